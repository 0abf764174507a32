//! The programs of two files over their joint table.

ghost use Rattle.std.specs.Prelude.{◌≡◌, ◌≤◌, length, map, IfOk, IfErr};
ghost use Rattle.version_map.specs.Maps.{said_in};
ghost use Rattle.joint_programs.specs.Parts.{program_parts};
ghost use Rattle.joint_programs.specs.Views.{view_of, seen_from_old, seen_from_new};
ghost use Rattle.joint_programs.specs.Objects.{joint_object as object_there};
ghost use Rattle.joint_programs.specs.Pairings.{joint_pairing};
ghost use Rattle.joint_programs.specs.JointPrograms.{partners_in, table_of_old, table_of_new, joint_old, joint_new};
ghost use Rattle.joint_programs.specs.Faults.{limit, cells_of, IsTableFault, IsJointFault};
ghost use Rattle.joint_programs.specs.Frames.{IsFrameOf, parts_of};

use crate::faults::JointFault;
use crate::numbers::numbers_in;
use crate::pairings::{by_number, structs_paired};
use crate::sides::Side;
use crate::structs::joint_structs;
use crate::tables::{joint_objects, table_turned};
use joint_objects::{FunctionPartners, JointObject, joint_table, struct_partners};
use object_numbers::renumbered;
use rvt_tree::{Function, Pairing, Program, Structs, Table};
use sqlite_items::Items;
use std::alloc::{AllocError, Global};
use version_map::{Added, Map};

/// The programs of two files over their joint table, and what is paired in them.
#[derive(Drop)]
pub struct JointPrograms {
    pub table: Vec<JointObject>,
    pub old: Program,
    pub new_side: Program,
    pub pairing: Pairing,
}

/// What a program has besides its functions, and the new numbers of its objects.
#[derive(Drop)]
struct Frame {
    structs: Structs,
    table: Table,
    numbers: Vec<u32>,
}

/// The programs of two files over their joint table, where functions are paired so. The files' programs are used up.
pub fn joint_programs(
    alloc: Global,
    old: Program,
    new: Program,
    functions: &FunctionPartners,
    map: &Map,
) -> Result<JointPrograms, JointFault>
    ensures table { IfOk result (λ joint. joint.table.items ≡ table_of_old old new (partners_in functions.now) (said_in map.now)) }
    ensures old_side { IfOk result (λ joint. program_parts joint.old ≡ joint_old old new (partners_in functions.now) (said_in map.now)) }
    ensures new_side { IfOk result (λ joint. program_parts joint.new_side ≡ joint_new old new (partners_in functions.now) (said_in map.now)) }
    ensures pairing { IfOk result (λ joint. joint.pairing ≡ joint_pairing old new (partners_in functions.now) (length joint.table.items)) }
    ensures fits { IfOk result (λ joint. (cells_of (program_parts joint.old).objects ≤ limit) × (cells_of (program_parts joint.new_side).objects ≤ limit)) }
    ensures fault { IfErr result (IsJointFault old new (partners_in functions.now) (said_in map.now)) }
{
    let frames = joint_frames(alloc, &old, &new, functions, map)?;
    let JointFrames {
        table,
        old: old_frame,
        new_side: new_frame,
        pairing,
    } = frames;
    let old_functions = functions_of(old);
    let new_functions = functions_of(new);
    let old_side = over(alloc, old_functions, old_frame)?;
    let new_side = over(alloc, new_functions, new_frame)?;
    Ok(JointPrograms {
        table,
        old: old_side,
        new_side,
        pairing,
    })
}

/// Both programs but for their functions.
#[derive(Drop)]
struct JointFrames {
    table: Vec<JointObject>,
    old: Frame,
    new_side: Frame,
    pairing: Pairing,
}

fn joint_frames(
    alloc: Global,
    old: &Program,
    new: &Program,
    functions: &FunctionPartners,
    map: &Map,
) -> Result<JointFrames, JointFault>
    ensures table { IfOk result (λ frames. frames.table.items ≡ table_of_old old.now new.now (partners_in functions.now) (said_in map.now)) }
    ensures old_side { IfOk result (λ frames. IsFrameOf (seen_from_old old.now new.now (partners_in functions.now)) (said_in map.now).objects (table_of_old old.now new.now (partners_in functions.now) (said_in map.now)) frames.old) }
    ensures new_side { IfOk result (λ frames. IsFrameOf (seen_from_new old.now new.now (partners_in functions.now)) (said_in map.now).objects (table_of_new old.now new.now (partners_in functions.now) (said_in map.now)) frames.new_side) }
    ensures pairing { IfOk result (λ frames. frames.pairing ≡ joint_pairing old.now new.now (partners_in functions.now) (length frames.table.items)) }
    ensures fault { IfErr result (IsJointFault old.now new.now (partners_in functions.now) (said_in map.now)) }
{
    let of_old = struct_partners(
        alloc,
        old.structs.list.as_slice(),
        new.structs.list.as_slice(),
    )?;
    let of_new = struct_partners(
        alloc,
        new.structs.list.as_slice(),
        old.structs.list.as_slice(),
    )?;
    let table = joint_table(alloc, old, new, functions, map)?;
    let pairing = Pairing {
        functions: Items::from_slice(alloc, functions.of_old.as_slice())?,
        objects: by_number(alloc, table.len())?,
        structs: structs_paired(
            alloc,
            new.structs.list.len(),
            of_old.as_slice(),
            of_new.as_slice(),
        )?,
    };
    let from_old = Side {
        ours: old,
        theirs: new,
        structs: of_new.as_slice(),
        functions: functions.of_new.as_slice(),
    };
    let from_new = Side {
        ours: new,
        theirs: old,
        structs: of_old.as_slice(),
        functions: functions.of_old.as_slice(),
    };
    let turned = table_turned(alloc, table.as_slice())?;
    let added = map.objects.as_slice();
    let old_frame = frame_of(alloc, &from_old, added, table.as_slice())?;
    let new_frame = frame_of(alloc, &from_new, added, turned.as_slice())?;
    Ok(JointFrames {
        table,
        old: old_frame,
        new_side: new_frame,
        pairing,
    })
}

/// A program over the table but for its functions.
fn frame_of(
    alloc: Global,
    side: &Side,
    added: &[Added],
    table: &[JointObject],
) -> Result<Frame, JointFault>
    ensures frame { IfOk result (IsFrameOf (view_of side.now) added.now table.now) }
    ensures fault { IfErr result (IsTableFault (map (object_there (view_of side.now) added.now) table.now)) }
{
    let objects = joint_objects(alloc, side, added, table)?;
    let structs = joint_structs(alloc, side)?;
    let numbers = numbers_in(alloc, table, side.ours.table.objects.len())?;
    Ok(Frame {
        structs,
        table: Table {
            objects: Items::from_vec(objects),
        },
        numbers,
    })
}

fn functions_of(program: Program) -> Items<Function>
    ensures { result ≡ program.functions }
{
    let Program {
        structs: _,
        functions,
        table: _,
    } = program;
    functions
}

/// The program of a frame and of these functions.
fn over(alloc: Global, functions: Items<Function>, frame: Frame) -> Result<Program, AllocError>
    ensures { IfOk result (λ program. program_parts program ≡ parts_of frame functions) }
{
    let Frame {
        structs,
        table,
        numbers,
    } = frame;
    let functions = renumbered(alloc, functions, numbers.as_slice())?;
    Ok(Program {
        structs,
        functions,
        table,
    })
}
