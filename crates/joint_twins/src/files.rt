//! Whether two files have a joint table over which their programs stand.

ghost use Rattle.std.specs.Prelude.{◌≡◌, ◌↔◌, [], IsTrue, IfOk};
ghost use Rattle.rvt_tree.specs.declared.pairings.Pairing.{Pairing as Pairs};
ghost use Rattle.version_map.specs.Maps.{said_in};
ghost use Rattle.joint_programs.specs.JointPrograms.{partners_in, table_of_old};
ghost use Rattle.joint_laws.specs.JointStand.{AreJoinable};
ghost use Rattle.joint_twins.specs.Joinable.{AreJoinableFiles};

use crate::checks::{is_numbered, turn_both_ways};
use crate::tables::{Files, are_of_files};
use joint_objects::{FunctionPartners, JointObject, joint_table, struct_partners};
use rvt_tree::{Pairing, Program};
use sqlite_items::Items;
use std::alloc::{AllocError, Global};
use version_map::Map;

/// Whether the programs of two files over their joint table stand over one table, whatever their constants hold.
pub fn are_joinable(
    alloc: Global,
    old: &Program,
    new: &Program,
    functions: &FunctionPartners,
    map: &Map,
) -> Result<bool, AllocError>
    ensures { IfOk result (λ yes. IsTrue yes ↔ AreJoinable old.now new.now (partners_in functions.now) (table_of_old old.now new.now (partners_in functions.now) (said_in map.now))) }
{
    let of_old = struct_partners(
        alloc,
        old.structs.list.as_slice(),
        new.structs.list.as_slice(),
    )?;
    let of_new = struct_partners(
        alloc,
        new.structs.list.as_slice(),
        old.structs.list.as_slice(),
    )?;
    let there = pairing_of(alloc, functions.of_old.as_slice(), of_old)?;
    let back = pairing_of(alloc, functions.of_new.as_slice(), of_new)?;
    let table = joint_table(alloc, old, new, functions, map)?;
    let files = Files {
        old,
        new,
        there: &there,
        back: &back,
    };
    let yes = are_joinable_files(&files, table.as_slice());
    Ok(yes)
}

/// Functions and structs that are paired, and no objects.
fn pairing_of(
    alloc: Global,
    functions: &[Option<u32>],
    structs: Vec<Option<u32>>,
) -> Result<Pairing, AllocError>
    ensures { IfOk result (λ pairing. pairing ≡ record { functions = functions.now; objects = []; structs = structs.items }) }
{
    let functions = Items::from_slice(alloc, functions)?;
    Ok(Pairing {
        functions,
        objects: Items::new(alloc),
        structs: Items::from_vec(structs),
    })
}

fn are_joinable_files(files: &Files, table: &[JointObject]) -> bool
    ensures { IsTrue result ↔ AreJoinableFiles files.now table.now }
{
    if !is_numbered(files.old) {
        return false;
    }
    if !is_numbered(files.new) {
        return false;
    }
    if !turn_both_ways(
        files.there.structs.as_slice(),
        files.back.structs.as_slice(),
    ) {
        return false;
    }
    if !turn_both_ways(
        files.there.functions.as_slice(),
        files.back.functions.as_slice(),
    ) {
        return false;
    }
    are_of_files(files, table)
}
