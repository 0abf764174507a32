//! Which units may trap, and which of them always end.

ghost use Rattle.std.specs.Prelude.{◌≡◌, ℕ, ◌<◌, ◌≤◌, ◌^◌, ◌↔◌, true, false, map, length, replicate, slice_index_or, IfOk};
ghost use Rattle.call_graph.specs.Graphs.{At, rows};
ghost use Rattle.core_ir.specs.Joint.{core_of};
ghost use Rattle.rvt_num.specs.declared.values.Trap.{Trap};
ghost use Rattle.touch_sets.specs.Bodies.{has_trap};
ghost use Rattle.touch_sets.specs.Callers.{AreCallers};
ghost use Rattle.touch_sets.specs.Sets.{MayTrap, AlwaysEnds};
ghost use Rattle.touch_sets.specs.Touching.{side_of, flag, flag_rows, trap_number, trap_with};

use crate::versions::version;
use core_ir::{Core, JointCore};
use graph_marks::{Graph, Memory, on_cycles, spread};
use rvt_num::Trap;
use std::alloc::Global;

/// By the number of a trap, the units of one version that may end with it.
pub fn trap_rows(
    alloc: Global,
    core: &JointCore,
    old_side: bool,
    callers: &Graph,
) -> Result<Vec<Vec<bool>>, Memory>
    requires callers { AreCallers (core_of core.now (side_of old_side)) (rows callers.now.successors.items) }
    requires few { length callers.now.successors.items ≤ 2 ^ 32 }
    ensures { IfOk result (λ traps. (u : ℕ) (t : Trap) → (flag (flag_rows traps.items) (trap_number t) u ≡ true) ↔ MayTrap core.now (side_of old_side) u t) }
{
    let mut traps = Vec::new(alloc);
    'traps: for number in 0..8 {
        let row = trap_row(alloc, core, old_side, callers, trap_of(number))?;
        match traps.push(row) {
            Ok(()) => {}
            Err(_) => return Err(Memory),
        }
    }
    Ok(traps)
}

// The units that may end with one kind of trap.
fn trap_row(
    alloc: Global,
    core: &JointCore,
    old_side: bool,
    callers: &Graph,
    trap: Trap,
) -> Result<Vec<bool>, Memory>
    requires callers { AreCallers (core_of core.now (side_of old_side)) (rows callers.now.successors.items) }
    requires few { length callers.now.successors.items ≤ 2 ^ 32 }
    ensures { IfOk result (λ row. (u : ℕ) → At row.items u true ↔ MayTrap core.now (side_of old_side) u trap) }
{
    let seeds = trapping_units(alloc, version(core, old_side), trap)?;
    let none = no_flags(alloc, callers.successors.len())?;
    let row = spread(alloc, callers, seeds.as_slice(), none.as_slice())?;
    Ok(row)
}

/// The units of one version that reach a cycle of calls, which don't always end.
pub fn endless_units(
    alloc: Global,
    core: &JointCore,
    old_side: bool,
    callers: &Graph,
) -> Result<Vec<bool>, Memory>
    requires callers { AreCallers (core_of core.now (side_of old_side)) (rows callers.now.successors.items) }
    requires few { length callers.now.successors.items ≤ 2 ^ 32 }
    ensures { IfOk result (λ endless. (u : ℕ) → (slice_index_or endless.items u true ≡ false) ↔ AlwaysEnds (core_of core.now (side_of old_side)) u) }
{
    let seeds = on_cycles(alloc, callers)?;
    let none = no_flags(alloc, callers.successors.len())?;
    let endless = spread(alloc, callers, seeds.as_slice(), none.as_slice())?;
    Ok(endless)
}

// The units that may end with a trap by themselves.
fn trapping_units(alloc: Global, core: &Core, trap: Trap) -> Result<Vec<bool>, Memory>
    ensures { IfOk result (λ units. units.items ≡ map (λ w. has_trap trap w.own_traps) core.now.units) }
{
    let mut units = Vec::new(alloc);
    'units: for unit in core.units.as_slice() {
        match units.push(is_trap_of(unit.own_traps.as_slice(), trap)) {
            Ok(()) => {}
            Err(_) => return Err(Memory),
        }
    }
    Ok(units)
}

fn is_trap_of(traps: &[Trap], trap: Trap) -> bool
    ensures { result ≡ has_trap trap traps.now }
{
    'traps: for other in traps {
        if number_of(*other) == number_of(trap) {
            return true;
        }
    }
    false
}

fn no_flags(alloc: Global, count: usize) -> Result<Vec<bool>, Memory>
    ensures { IfOk result (λ flags. flags.items ≡ replicate count false) }
{
    match vec![in alloc; false; count] {
        Ok(flags) => Ok(flags),
        Err(_) => Err(Memory),
    }
}

/// The number of a kind of trap, from 0.
pub fn number_of(trap: Trap) -> usize
    ensures { result ≡ trap_number trap }
{
    match trap {
        Trap::Divide => 0,
        Trap::Quotient => 1,
        Trap::Shift => 2,
        Trap::Index => 3,
        Trap::Null => 4,
        Trap::Range => 5,
        Trap::Place => 6,
        Trap::NoReturn => 7,
    }
}

fn trap_of(number: usize) -> Trap
    ensures { result ≡ trap_with number }
{
    match number {
        0 => Trap::Divide,
        1 => Trap::Quotient,
        2 => Trap::Shift,
        3 => Trap::Index,
        4 => Trap::Null,
        5 => Trap::Range,
        6 => Trap::Place,
        _ => Trap::NoReturn,
    }
}
