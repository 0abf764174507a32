ghost use Rattle.std.specs.Prelude.{◌≡◌, ◌<◌, ◌≤◌, ◌++◌, ◌∷◌, [], List, length, map, slice_set, if◌then◌else◌, IfOk, OnOk};
ghost use Rattle.core_ir.specs.Cells.{blend};
ghost use Rattle.rvt_num.specs.declared.values.Trap.{Trap};
ghost use Rattle.sym_exec.specs.Ends.{end_of, ended_so, trap_of, traps_in, AreOfOneLayout};
ghost use Rattle.sym_paths.specs.Runs.{exit_of};
ghost use Rattle.symbolic_runs.specs.Ending.{end_built, with_exit};
ghost use Rattle.symbolic_runs.specs.Runs.{chosen};

use aig_build::{Circuit, Lit};
use bit_ops::SymValue;
use rvt_num::{Memory, Trap};
use std::alloc::Global;
use sym_paths::{Exit, How, SymCall};
use sym_store::{copy_value, merge};

/// What a unit returns, and what it leaves in the mutable cells.
#[derive(Drop)]
pub struct Values {
    pub results: Vec<SymValue>,
    pub cells: Vec<SymValue>,
}

/// How a unit ends: by the first trap whose literal is true, and where none is, with these values. Where the guard of a call is true,
/// it is made.
#[derive(Drop)]
pub struct SymEnd {
    pub traps: Vec<(Trap, Lit)>,
    pub values: Values,
    pub calls: Vec<SymCall>,
}

/// The end that exits make together, from values that stand where none of them is taken.
pub fn ending(
    alloc: Global,
    circuit: &mut Circuit,
    exits: &[Exit],
    values: Values,
    calls: Vec<SymCall>,
) -> Result<SymEnd, Memory>
    requires kept { AreOfOneLayout circuit.old (map exit_of exits.now) values }
    ensures built { IfOk result (λ e. end_built circuit.old (map exit_of exits.now) values.results.items values.cells.items ≡ record { nodes = circuit.new; end = end_of e }) }
    ensures calls { IfOk result (λ e. e.calls ≡ calls) }
{
    let traps = trap_list(alloc, exits)?;
    let values = merge_exits(alloc, circuit, exits, values)?;
    Ok(SymEnd {
        traps,
        values,
        calls,
    })
}

/// The traps among exits, in order.
fn trap_list(alloc: Global, exits: &[Exit]) -> Result<Vec<(Trap, Lit)>, Memory>
    ensures { IfOk result (λ traps. traps.items ≡ traps_in (map exit_of exits.now)) }
{
    let mut traps = Vec::new(alloc);
    'exits: for exit in exits {
        push_trap(&mut traps, exit)?;
    }
    Ok(traps)
}

fn push_trap(traps: &mut Vec<(Trap, Lit)>, exit: &Exit) -> Result<(), Memory>
    ensures { OnOk result (traps.new.items ≡ traps.old.items ++ trap_of (exit_of exit.now).guard (exit_of exit.now).how) }
{
    let How::Traps(trap) = exit.how else {
        return Ok(());
    };
    match traps.push((trap, exit.guard)) {
        Ok(()) => Ok(()),
        Err(_) => Err(Memory),
    }
}

/// The values of the exit that is taken, from the last exit on.
fn merge_exits(
    alloc: Global,
    circuit: &mut Circuit,
    exits: &[Exit],
    values: Values,
) -> Result<Values, Memory>
    requires kept { AreOfOneLayout circuit.old (map exit_of exits.now) values }
    ensures { IfOk result (λ v. end_built circuit.old (map exit_of exits.now) values.results.items values.cells.items ≡ ended_so circuit.new (traps_in (map exit_of exits.now)) v) }
{
    let mut values = values;
    'exits: for done in 0..exits.len() {
        let left = exits.len() - 1 - done;
        merge_exit(alloc, circuit, &exits[left], &mut values)?;
    }
    Ok(values)
}

/// The values of the exit where it is taken and returns, else those that there were.
fn merge_exit(
    alloc: Global,
    circuit: &mut Circuit,
    exit: &Exit,
    values: &mut Values,
) -> Result<(), Memory>
    requires kept { AreOfOneLayout circuit.old (exit_of exit.now ∷ []) values.old }
    ensures { OnOk result ((traps : List (Trap × Lit)) → with_exit (exit_of exit.now).guard (exit_of exit.now).how (ended_so circuit.old traps values.old) ≡ ended_so circuit.new (trap_of (exit_of exit.now).guard (exit_of exit.now).how ++ traps) values.new) }
{
    let How::Stops(registers, store) = &exit.how else {
        return Ok(());
    };
    let returned = held(alloc, store.registers(), registers)?;
    let results = merge(alloc, circuit, exit.guard, &returned, &values.results)?;
    let cells = merge(alloc, circuit, exit.guard, store.cells(), &values.cells)?;
    values.results = results;
    values.cells = cells;
    Ok(())
}

/// What these registers hold.
fn held(alloc: Global, values: &[SymValue], registers: &[u32]) -> Result<Vec<SymValue>, Memory>
    ensures { IfOk result (λ held. held.items ≡ chosen values.now registers.now) }
{
    let mut held = Vec::new(alloc);
    'registers: for register in registers {
        push_held(alloc, &mut held, values, *register)?;
    }
    Ok(held)
}

fn push_held(
    alloc: Global,
    held: &mut Vec<SymValue>,
    values: &[SymValue],
    register: u32,
) -> Result<(), Memory>
    ensures { OnOk result (held.new.items ≡ held.old.items ++ chosen values.now (register ∷ [])) }
{
    let at = register as usize;
    if at >= values.len() {
        return Ok(());
    }
    let copy = copy_value(alloc, &values[at])?;
    push_value(held, copy)?;
    Ok(())
}

pub fn push_value(values: &mut Vec<SymValue>, value: SymValue) -> Result<(), Memory>
    ensures { OnOk result (values.new.items ≡ values.old.items ++ value ∷ []) }
{
    match values.push(value) {
        Ok(()) => Ok(()),
        Err(_) => Err(Memory),
    }
}

/// The cells that a unit owns become what they were before it.
pub fn put_back(
    alloc: Global,
    owned: &[bool],
    before: &[SymValue],
    cells: &mut Vec<SymValue>,
) -> Result<(), Memory>
    requires before_long { length owned.now ≤ length before.now }
    requires cells_long { length owned.now ≤ length cells.old.items }
    ensures { OnOk result (cells.new.items ≡ blend owned.now before.now cells.old.items) }
{
    for at in 0..owned.len() {
        put_cell(alloc, owned[at], &before[at], cells, at)?;
    }
    Ok(())
}

/// A cell becomes what it was before, where it is owned.
fn put_cell(
    alloc: Global,
    owned: bool,
    before: &SymValue,
    cells: &mut Vec<SymValue>,
    at: usize,
) -> Result<(), Memory>
    requires { at < length cells.old.items }
    ensures { OnOk result (cells.new.items ≡ (if owned then slice_set cells.old.items at before.now else cells.old.items)) }
{
    if !owned {
        return Ok(());
    }
    let copy = copy_value(alloc, before)?;
    cells[at] = copy;
    Ok(())
}
