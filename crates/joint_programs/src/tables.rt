//! The objects of the joint table in our program.

ghost use Rattle.std.specs.Prelude.{◌≡◌, ◌+◌, ◌<◌, ◌≤◌, map, IfOk, IfErr};
ghost use Rattle.joint_programs.specs.declared.faults.JointFault.TheVariants.{TooLarge};
ghost use Rattle.joint_programs.specs.Parts.{object_parts};
ghost use Rattle.joint_programs.specs.Views.{view_of, origin_turned, element_turned, turned as turned_there, table_turned as table_there};
ghost use Rattle.joint_programs.specs.Objects as spec;
ghost use Rattle.joint_programs.specs.Faults.{limit, cells_of, IsTableFault};

use crate::arrays::{extra_array, mapped_array};
use crate::faults::JointFault;
use crate::objects::object_from;
use crate::sides::Side;
use joint_objects::{Element, JointObject, Origin};
use rvt_tree::Object;
use std::alloc::{AllocError, Global};
use version_map::Added;

/// How many cells a joint table may have.
const LIMIT: usize = 65536;

/// The objects of a table, as our program has them.
pub fn joint_objects(
    alloc: Global,
    side: &Side,
    added: &[Added],
    table: &[JointObject],
) -> Result<Vec<Object>, JointFault>
    ensures objects { IfOk result (λ objects. map object_parts objects.items ≡ map (spec.joint_object (view_of side.now) added.now) table.now) }
    ensures fits { IfOk result (λ objects. cells_of (map object_parts objects.items) ≤ limit) }
    ensures fault { IfErr result (IsTableFault (map (spec.joint_object (view_of side.now) added.now) table.now)) }
{
    let mut objects = Vec::new(alloc);
    let mut room = LIMIT;
    let mut left = table;
    'table: while let Some((first, rest)) = left.split_first() {
        let object = joint_object(alloc, side, added, *first)?;
        let after = room_after(room, object.initial.len())?;
        objects.push(object)?;
        room = after;
        left = rest;
    }
    Ok(objects)
}

/// The room that is left behind so many cells.
fn room_after(room: usize, cells: usize) -> Result<usize, JointFault>
    ensures left { IfOk result (λ less. room ≡ less + cells) }
    ensures fault { IfErr result (λ fault. (fault ≡ TooLarge) × (room < cells)) }
{
    if cells > room {
        return Err(JointFault::TooLarge);
    }
    Ok(room - cells)
}

fn joint_object(
    alloc: Global,
    side: &Side,
    added: &[Added],
    object: JointObject,
) -> Result<Object, AllocError>
    ensures { IfOk result (λ made. object_parts made ≡ spec.joint_object (view_of side.now) added.now object) }
{
    match object {
        JointObject::Global(origin) => object_from(alloc, side, origin),
        JointObject::Local(origin, _) => object_from(alloc, side, origin),
        JointObject::Extra(element, _) => extra_array(alloc, side, element),
        JointObject::Mapped(number) => mapped_array(alloc, added, number),
    }
}

/// The table as the new file sees it.
pub fn table_turned(alloc: Global, table: &[JointObject]) -> Result<Vec<JointObject>, AllocError>
    ensures { IfOk result (λ other. other.items ≡ table_there table.now) }
{
    let mut other = Vec::new(alloc);
    for object in table {
        other.push(turned(*object))?;
    }
    Ok(other)
}

fn turned(object: JointObject) -> JointObject
    ensures { result ≡ turned_there object }
{
    match object {
        JointObject::Global(origin) => JointObject::Global(turned_origin(origin)),
        JointObject::Local(origin, declaration) => {
            JointObject::Local(turned_origin(origin), declaration)
        }
        JointObject::Extra(element, number) => JointObject::Extra(turned_element(element), number),
        JointObject::Mapped(number) => JointObject::Mapped(number),
    }
}

fn turned_element(element: Element) -> Element
    ensures { result ≡ element_turned element }
{
    match element {
        Element::Word(kind) => Element::Word(kind),
        Element::Struct(origin) => Element::Struct(turned_origin(origin)),
    }
}

fn turned_origin(origin: Origin) -> Origin
    ensures { result ≡ origin_turned origin }
{
    match origin {
        Origin::Both(a, b) => Origin::Both(b, a),
        Origin::Old(a) => Origin::New(a),
        Origin::New(b) => Origin::Old(b),
    }
}
