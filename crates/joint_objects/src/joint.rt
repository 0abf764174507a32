//! The joint table.

ghost use Rattle.std.specs.Prelude.{◌≡◌, ◌++◌, IfOk, OnOk};
ghost use Rattle.version_map.specs.Maps.{said_in};
ghost use Rattle.joint_objects.specs.Sides.{from_old as old_names, from_new as new_names};
ghost use Rattle.joint_objects.specs.Globals.{globals_from};
ghost use Rattle.joint_objects.specs.Locals.{locals_from};
ghost use Rattle.joint_objects.specs.JointObjects as spec;

use crate::arrays::{
    add_arrays_of_kinds, add_arrays_of_new, add_arrays_of_old, add_mapped, origin_of_old,
};
use crate::found::Found;
use crate::globals::matched_globals;
use crate::locals::matched_locals;
use crate::names::{pairs_from_new, pairs_from_old};
use crate::objects::{JointObject, Origin};
use crate::sides::FunctionPartners;
use crate::structs::struct_partners;
use crate::tallies::tallies;
use rvt_tree::Program;
use std::alloc::{AllocError, Global};
use version_map::Map;

/// The objects of two files as one table, where functions are paired so.
pub fn joint_table<'a>(
    alloc: Global,
    old: &'a Program,
    new: &'a Program,
    functions: &FunctionPartners,
    map: &'a Map,
) -> Result<Vec<JointObject>, AllocError>
    ensures { IfOk result (λ table. table.items ≡ spec.joint_table old.now new.now functions.now.of_old functions.now.of_new (said_in map.now)) }
{
    let of_old = struct_partners(
        alloc,
        old.structs.list.as_slice(),
        new.structs.list.as_slice(),
    )?;
    let of_new = struct_partners(
        alloc,
        new.structs.list.as_slice(),
        old.structs.list.as_slice(),
    )?;
    let mut table = Vec::new(alloc);
    add_all(
        alloc,
        old,
        new,
        functions,
        of_old.as_slice(),
        of_new.as_slice(),
        map,
        &mut table,
    )?;
    Ok(table)
}

// Adds all objects, where the partner of each struct is known both ways.
fn add_all<'a>(
    alloc: Global,
    old: &'a Program,
    new: &'a Program,
    functions: &FunctionPartners,
    of_old: &[Option<u32>],
    of_new: &[Option<u32>],
    map: &'a Map,
    table: &mut Vec<JointObject>,
) -> Result<(), AllocError>
    ensures { OnOk result (table.new.items ≡ table.old.items ++ spec.table_of old.now new.now (record { of_old = functions.now.of_old; of_new = functions.now.of_new }) (record { of_old = of_old.now; of_new = of_new.now }) (said_in map.now)) }
{
    add_globals(alloc, of_old, of_new, old, new, map, table)?;
    add_locals(alloc, of_old, of_new, old, new, functions, table)?;
    add_extras(alloc, of_old, of_new, old, new, table)?;
    add_mapped(map.objects.as_slice(), table)?;
    Ok(())
}

fn add_globals<'a>(
    alloc: Global,
    old_structs: &[Option<u32>],
    new_structs: &[Option<u32>],
    old: &'a Program,
    new: &'a Program,
    map: &'a Map,
    table: &mut Vec<JointObject>,
) -> Result<(), AllocError>
    ensures { OnOk result (table.new.items ≡ table.old.items ++ spec.all_globals (globals_from old_structs.now (old_names map.now.globals.items) new.now.table.objects 0 old.now.table.objects) (globals_from new_structs.now (new_names map.now.globals.items) old.now.table.objects 0 new.now.table.objects)) }
{
    let from_old = pairs_from_old(alloc, map.globals.as_slice())?;
    let in_old = matched_globals(
        alloc,
        old_structs,
        from_old.as_slice(),
        old.table.objects.as_slice(),
        new.table.objects.as_slice(),
    )?;
    let from_new = pairs_from_new(alloc, map.globals.as_slice())?;
    let in_new = matched_globals(
        alloc,
        new_structs,
        from_new.as_slice(),
        new.table.objects.as_slice(),
        old.table.objects.as_slice(),
    )?;
    push_globals(in_old.as_slice(), in_new.as_slice(), table)?;
    Ok(())
}

fn push_globals(
    old: &[Found],
    new: &[Found],
    table: &mut Vec<JointObject>,
) -> Result<(), AllocError>
    ensures { OnOk result (table.new.items ≡ table.old.items ++ spec.all_globals old.now new.now) }
{
    let mut left = old;
    'old: while let Some((first, rest)) = left.split_first() {
        table.push(JointObject::Global(origin_of_old(first.object, first.partner)))?;
        left = rest;
    }
    let mut left = new;
    'new: while let Some((first, rest)) = left.split_first() {
        left = rest;
        if first.partner.is_some() {
            continue;
        }
        table.push(JointObject::Global(Origin::New(first.object)))?;
    }
    Ok(())
}

fn add_locals(
    alloc: Global,
    old_structs: &[Option<u32>],
    new_structs: &[Option<u32>],
    old: &Program,
    new: &Program,
    functions: &FunctionPartners,
    table: &mut Vec<JointObject>,
) -> Result<(), AllocError>
    ensures { OnOk result (table.new.items ≡ table.old.items ++ spec.all_locals (locals_from old_structs.now functions.now.of_old new.now.functions 0 old.now.functions) (locals_from new_structs.now functions.now.of_new old.now.functions 0 new.now.functions)) }
{
    let in_old = matched_locals(
        alloc,
        old_structs,
        functions.of_old.as_slice(),
        old.functions.as_slice(),
        new.functions.as_slice(),
    )?;
    let in_new = matched_locals(
        alloc,
        new_structs,
        functions.of_new.as_slice(),
        new.functions.as_slice(),
        old.functions.as_slice(),
    )?;
    push_locals(in_old.as_slice(), in_new.as_slice(), table)?;
    Ok(())
}

fn push_locals(old: &[Found], new: &[Found], table: &mut Vec<JointObject>) -> Result<(), AllocError>
    ensures { OnOk result (table.new.items ≡ table.old.items ++ spec.all_locals old.now new.now) }
{
    let mut left = old;
    'old: while let Some((first, rest)) = left.split_first() {
        table.push(JointObject::Local(
            origin_of_old(first.object, first.partner),
            first.declaration,
        ))?;
        left = rest;
    }
    let mut left = new;
    'new: while let Some((first, rest)) = left.split_first() {
        left = rest;
        if first.partner.is_some() {
            continue;
        }
        table.push(JointObject::Local(Origin::New(first.object), first.declaration))?;
    }
    Ok(())
}

fn add_extras(
    alloc: Global,
    old_structs: &[Option<u32>],
    new_structs: &[Option<u32>],
    old: &Program,
    new: &Program,
    table: &mut Vec<JointObject>,
) -> Result<(), AllocError>
    ensures { OnOk result (table.new.items ≡ table.old.items ++ spec.extra_arrays old_structs.now new_structs.now old.now new.now) }
{
    let in_old = tallies(alloc, old.functions.as_slice())?;
    let in_new = tallies(alloc, new.functions.as_slice())?;
    add_arrays_of_kinds(&in_old, &in_new, table)?;
    add_arrays_of_old(
        &in_old,
        &in_new,
        old_structs,
        old.structs.list.as_slice(),
        table,
    )?;
    add_arrays_of_new(&in_new, new_structs, new.structs.list.as_slice(), table)?;
    Ok(())
}
