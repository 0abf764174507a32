ghost use Rattle.std.specs.List.{AllByRecursion};
ghost use Rattle.std.specs.Prelude.{◌≡◌, ◌<◌, ◌∷◌, [], length, slice_get, slice_set, IfOk, OnOk};
ghost use Rattle.aig_build.specs.Circuits.{Grows};
ghost use Rattle.bit_words.specs.Words.{AreThere};
ghost use Rattle.core_ir.specs.Cells.{store_shapes};
ghost use Rattle.core_ir.specs.Fits.{ObjectFits};
ghost use Rattle.sym_places.specs.Bases.{bases_from};
ghost use Rattle.sym_places.specs.Loops.{FitsAt, MayTake};
ghost use Rattle.sym_places.specs.Writes.{put, put_one, with_cell_held, with_cell_in, with_held, write_built};
ghost use Rattle.sym_spots.specs.Spots.{AreAimsThere, AreTrapsThere};
ghost use Rattle.sym_store.specs.Stores.{IsStoreLaid, IsStoreThere, with_cell_value, with_value};
ghost use Rattle.sym_values.specs.Values.{lits_of};

use crate::bases::mutable_count;
use crate::held::held_by;
use aig_build::{Circuit, Lit};
use bit_ops::SymValue;
use bit_words::gates::and;
use core_ir::{CoreObject, Shape, Spot};
use rvt_num::Memory;
use std::alloc::Global;
use sym_spots::{Aim, SpotTraps, Target, aims_of, sum};
use sym_store::{SymStore, merge_value};

/// Writes a value at a spot where the guard is true, and says how the spot traps. `bases` comes from `bases_of`. After want of memory the
/// store is only to be dropped.
pub fn write(
    alloc: Global,
    objects: &[CoreObject],
    bases: &[u64],
    shapes: &[Shape],
    store: &mut SymStore,
    circuit: &mut Circuit,
    spot: &Spot,
    value: &SymValue,
    guard: Lit,
) -> Result<SpotTraps, Memory>
    requires bases_are { bases.now ≡ bases_from 0 objects.now }
    requires objects_fit { AllByRecursion ObjectFits objects.now }
    requires store_is_laid { IsStoreLaid shapes.now (store_shapes objects.now) store.old }
    requires value_fits { FitsAt objects.now shapes.now spot.now value.now }
    requires store_is_there { IsStoreThere circuit.old store.old }
    requires value_is_there { AreThere circuit.old (lits_of value.now) }
    requires guard_is_there { guard.node < length circuit.old }
    ensures built { IfOk result (λ traps. write_built objects.now shapes.now store.old circuit.old spot.now value.now guard ≡ record { nodes = circuit.new; store = store.new; traps = traps }) }
    ensures store_there { IfOk result (λ traps. IsStoreThere circuit.new store.new) }
    ensures traps_there { IfOk result (λ traps. AreTrapsThere circuit.new traps) }
    ensures grows { Grows circuit.old circuit.new }
{
    let (aims, traps) = aims_of(alloc, objects, shapes, store.registers(), circuit, spot)?;
    put(alloc, objects, bases, store, circuit, guard, value, &aims)?;
    Ok(traps)
}

/// Puts a value at each of the aims, where the guard and the aim are true.
fn put(
    alloc: Global,
    objects: &[CoreObject],
    bases: &[u64],
    store: &mut SymStore,
    circuit: &mut Circuit,
    guard: Lit,
    value: &SymValue,
    aims: &[Aim],
) -> Result<(), Memory>
    requires bases_are { bases.now ≡ bases_from 0 objects.now }
    requires takes { MayTake objects.now store.old aims.now value.now }
    requires aims_are_there { AreAimsThere circuit.old aims.now }
    requires store_is_there { IsStoreThere circuit.old store.old }
    requires value_is_there { AreThere circuit.old (lits_of value.now) }
    requires guard_is_there { guard.node < length circuit.old }
    ensures built { OnOk result (put objects.now guard value.now circuit.old store.old aims.now ≡ record { nodes = circuit.new; store = store.new }) }
    ensures there { OnOk result (IsStoreThere circuit.new store.new) }
    ensures grows { Grows circuit.old circuit.new }
{
    for at in 0..aims.len() {
        put_one(
            alloc, objects, bases, store, circuit, guard, value, aims[at],
        )?;
    }
    Ok(())
}

/// Puts a value at an aim, where the guard and the aim are true. Else what is there stays.
fn put_one(
    alloc: Global,
    objects: &[CoreObject],
    bases: &[u64],
    store: &mut SymStore,
    circuit: &mut Circuit,
    guard: Lit,
    value: &SymValue,
    aim: Aim,
) -> Result<(), Memory>
    requires bases_are { bases.now ≡ bases_from 0 objects.now }
    requires takes { MayTake objects.now store.old (aim ∷ []) value.now }
    requires aim_is_there { aim.lit.node < length circuit.old }
    requires store_is_there { IsStoreThere circuit.old store.old }
    requires value_is_there { AreThere circuit.old (lits_of value.now) }
    requires guard_is_there { guard.node < length circuit.old }
    ensures built { OnOk result (put_one objects.now guard value.now circuit.old store.old aim ≡ record { nodes = circuit.new; store = store.new }) }
    ensures there { OnOk result (IsStoreThere circuit.new store.new) }
    ensures grows { Grows circuit.old circuit.new }
{
    let _count = circuit.nodes();
    let both = and(circuit, guard, aim.lit)?;
    let before = held_by(alloc, objects, bases, store, aim.target)?;
    let after = merge_value(alloc, circuit, both, value, &before)?;
    set_held(objects, bases, store, aim.target, after)?;
    Ok(())
}

/// Sets what a place holds.
fn set_held(
    objects: &[CoreObject],
    bases: &[u64],
    store: &mut SymStore,
    target: Target,
    value: SymValue,
) -> Result<(), Memory>
    requires bases_are { bases.now ≡ bases_from 0 objects.now }
    ensures { OnOk result (store.new ≡ with_held objects.now store.old target value) }
{
    match target {
        Target::Cell(object, cell) => {
            set_cell_held(objects, bases, store, object, cell, value)?;
            Ok(())
        }
        Target::Register(register) => {
            set_register(store, register, value)?;
            Ok(())
        }
    }
}

fn set_cell_held(
    objects: &[CoreObject],
    bases: &[u64],
    store: &mut SymStore,
    object: u32,
    cell: u64,
    value: SymValue,
) -> Result<(), Memory>
    requires bases_are { bases.now ≡ bases_from 0 objects.now }
    ensures { OnOk result (store.new ≡ with_cell_held objects.now store.old object cell value (slice_get objects.now object)) }
{
    let number = object as usize;
    if number >= objects.len() {
        return Ok(());
    }
    set_cell_in(&objects[number], bases[number], store, cell, value)?;
    Ok(())
}

/// Sets a cell of an object whose mutable cells begin at `base`. Nothing is written into a constant object, nor outside the object.
fn set_cell_in(
    object: &CoreObject,
    base: u64,
    store: &mut SymStore,
    cell: u64,
    value: SymValue,
) -> Result<(), Memory>
    ensures { OnOk result (store.new ≡ with_cell_in object.now base store.old cell value) }
{
    if cell >= mutable_count(object) {
        return Ok(());
    }
    let at = sum(base, cell)?;
    set_cell(store, at, value);
    Ok(())
}

/// Sets a mutable cell, if it is there.
fn set_cell(store: &mut SymStore, at: u64, value: SymValue)
    ensures { store.new ≡ with_cell_value store.old at value }
{
    if at < store.cells().len() as u64 {
        store.set_cell(at, value);
    }
}

/// Sets a register, if it is there. One past 32 bits is want of memory.
fn set_register(store: &mut SymStore, register: u64, value: SymValue) -> Result<(), Memory>
    ensures { OnOk result (store.new ≡ with_value store.old register value) }
{
    if register >= store.registers().len() as u64 {
        return Ok(());
    }
    match u32::try_from(register) {
        Ok(register) => {
            store.set(register, value);
            Ok(())
        }
        Err(_) => Err(Memory),
    }
}
