//! Which units touch an object.

ghost use Rattle.std.specs.Prelude.{◌≡◌, ℕ, ◌<◌, ◌≤◌, ◌^◌, ◌↔◌, ◌⊎◌, ◌||◌, true, false, map, length, slice_get, slice_index_or, IfOk, OnOk};
ghost use Rattle.call_graph.specs.Graphs.{At, rows};
ghost use Rattle.core_ir.specs.Calls.{Among};
ghost use Rattle.core_ir.specs.Cells.{has};
ghost use Rattle.core_ir.specs.Joint.{core_of};
ghost use Rattle.touch_sets.specs.Bodies.{unit_objects, unit_types, names_of, types_of, begins_in, any_held, names_object};
ghost use Rattle.touch_sets.specs.Callers.{AreCallers};
ghost use Rattle.touch_sets.specs.Sets.{Touches};
ghost use Rattle.touch_sets.specs.Touching.{side_of, flag, flag_rows};

use crate::bodies::Named;
use crate::versions::version;
use core_ir::{Core, CoreObject, JointCore};
use graph_marks::{Graph, Memory, spread};
use std::alloc::Global;

/// By object, the units of one version that touch it.
pub fn touched_rows(
    alloc: Global,
    core: &JointCore,
    old_side: bool,
    all: &[Named],
    callers: &Graph,
) -> Result<Vec<Vec<bool>>, Memory>
    requires objects { map names_of all.now ≡ map unit_objects (core_of core.now (side_of old_side)).units }
    requires types { map types_of all.now ≡ map unit_types (core_of core.now (side_of old_side)).units }
    requires callers { AreCallers (core_of core.now (side_of old_side)) (rows callers.now.successors.items) }
    requires few { length callers.now.successors.items ≤ 2 ^ 32 }
    ensures { IfOk result (λ touched. (u o : ℕ) → (flag (flag_rows touched.items) o u ≡ true) ↔ Touches core.now (side_of old_side) u o) }
{
    let count = object_count(core.old.objects.len(), all);
    let mut touched = Vec::new(alloc);
    'objects: for object in 0..count {
        let row = touched_row(alloc, core, old_side, all, callers, object)?;
        match touched.push(row) {
            Ok(()) => {}
            Err(_) => return Err(Memory),
        }
    }
    Ok(touched)
}

// A number past every object of the table and every one that is named.
fn object_count(table: usize, all: &[Named]) -> usize
    ensures table { table ≤ result }
    ensures named { (u : ℕ) (named : Named) → slice_get all.now u ≡ Some named → (o : ℕ) → Among o named.objects.items → o < result }
{
    let mut count = table;
    'bodies: for named in all {
        count = past_all(count, named.objects.as_slice());
    }
    count
}

fn past_all(count: usize, objects: &[u32]) -> usize
    ensures before { count ≤ result }
    ensures objects { (o : ℕ) → Among o objects.now → o < result }
{
    let mut past = count;
    'objects: for object in objects {
        let object = *object as usize;
        if object < past {
            continue;
        }
        past = object + 1;
    }
    past
}

// The units that touch one object.
fn touched_row(
    alloc: Global,
    core: &JointCore,
    old_side: bool,
    all: &[Named],
    callers: &Graph,
    object: usize,
) -> Result<Vec<bool>, Memory>
    requires objects { map names_of all.now ≡ map unit_objects (core_of core.now (side_of old_side)).units }
    requires types { map types_of all.now ≡ map unit_types (core_of core.now (side_of old_side)).units }
    requires callers { AreCallers (core_of core.now (side_of old_side)) (rows callers.now.successors.items) }
    requires few { length callers.now.successors.items ≤ 2 ^ 32 }
    ensures { IfOk result (λ row. (u : ℕ) → At row.items u true ↔ Touches core.now (side_of old_side) u object) }
{
    let held = held_types(alloc, core.old.objects.as_slice(), object)?;
    let seeds = naming_units(alloc, all, held.as_slice(), object)?;
    let owners = owning_units(alloc, version(core, old_side), object)?;
    let row = spread(alloc, callers, seeds.as_slice(), owners.as_slice())?;
    Ok(row)
}

// By type, whether a value of it begins in an object, which is addressable.
fn held_types(alloc: Global, objects: &[CoreObject], object: usize) -> Result<Vec<bool>, Memory>
    ensures { IfOk result (λ held. (type : ℕ) → (slice_index_or held.items type false ≡ true) ↔ begins_in (slice_get objects.now object) type) }
{
    let mut held = Vec::new(alloc);
    match objects.get(object) {
        None => return Ok(held),
        Some(object) => {
            if !object.addressable {
                return Ok(held);
            }
            hold_all(object.starts.as_slice(), &mut held)?;
            Ok(held)
        }
    }
}

fn hold_all(starts: &[(u32, u32)], held: &mut Vec<bool>) -> Result<(), Memory>
    ensures { OnOk result ((type : ℕ) → (slice_index_or held.new.items type false ≡ true) ↔ ((slice_index_or held.old.items type false ≡ true) ⊎ ((cell : ℕ) × Among (type, cell) starts.now))) }
{
    'starts: for start in starts {
        hold(held, start.0 as usize)?;
    }
    Ok(())
}

fn hold(held: &mut Vec<bool>, pointee: usize) -> Result<(), Memory>
    requires small { pointee < 2 ^ 32 }
    ensures { OnOk result ((type : ℕ) → (slice_index_or held.new.items type false ≡ true) ↔ ((slice_index_or held.old.items type false ≡ true) ⊎ (type ≡ pointee))) }
{
    make_room(held, pointee)?;
    held[pointee] = true;
    Ok(())
}

// Makes the flags long enough for a type.
fn make_room(held: &mut Vec<bool>, pointee: usize) -> Result<(), Memory>
    requires small { pointee < 2 ^ 32 }
    ensures room { OnOk result (pointee < length held.new.items) }
    ensures kept { OnOk result ((type : ℕ) → slice_index_or held.new.items type false ≡ slice_index_or held.old.items type false) }
{
    if pointee < held.len() {
        return Ok(());
    }
    match held.resize(pointee + 1, false) {
        Ok(()) => {}
        Err(_) => return Err(Memory),
    }
    Ok(())
}

// The units whose own bodies touch an object.
fn naming_units(
    alloc: Global,
    all: &[Named],
    held: &[bool],
    object: usize,
) -> Result<Vec<bool>, Memory>
    ensures { IfOk result (λ units. units.items ≡ map (names_object held.now object) all.now) }
{
    let mut units = Vec::new(alloc);
    'bodies: for named in all {
        let names = stands_in(named.objects.as_slice(), object)
            || is_any_held(named.types.as_slice(), held);
        match units.push(names) {
            Ok(()) => {}
            Err(_) => return Err(Memory),
        }
    }
    Ok(units)
}

// The units that own an object.
fn owning_units(alloc: Global, core: &Core, object: usize) -> Result<Vec<bool>, Memory>
    ensures { IfOk result (λ units. units.items ≡ map (λ w. has object w.owned) core.now.units) }
{
    let mut units = Vec::new(alloc);
    'units: for unit in core.units.as_slice() {
        match units.push(stands_in(unit.owned.as_slice(), object)) {
            Ok(()) => {}
            Err(_) => return Err(Memory),
        }
    }
    Ok(units)
}

fn stands_in(numbers: &[u32], number: usize) -> bool
    ensures { result ≡ has number numbers.now }
{
    'numbers: for other in numbers {
        if *other as usize == number {
            return true;
        }
    }
    false
}

fn is_any_held(types: &[u32], held: &[bool]) -> bool
    ensures { result ≡ any_held held.now types.now }
{
    'types: for pointee in types {
        if is_flagged(held, *pointee as usize) {
            return true;
        }
    }
    false
}

/// The flag at a place; past the end there is none.
pub fn is_flagged(flags: &[bool], place: usize) -> bool
    ensures { result ≡ slice_index_or flags.now place false }
{
    if place < flags.len() {
        return flags[place];
    }
    false
}
