//! Arrays that are added.

ghost use Rattle.std.specs.Prelude.{◌≡◌, map, slice_get, IfOk};
ghost use Rattle.rvt_tree.specs.declared.types.CType.TheVariants as C;
ghost use Rattle.c_types.specs.Layout.{shape_of, plan_of};
ghost use Rattle.c_meaning.specs.Runs.{zero_cell, zero_cells};
ghost use Rattle.joint_programs.specs.Parts.{object_parts};
ghost use Rattle.joint_programs.specs.Views.{view_of};
ghost use Rattle.joint_programs.specs.Objects as spec;

use crate::objects::no_object;
use crate::sides::{Side, number_across};
use c_layout::{TypeFault, layout};
use joint_objects::{Element, Origin};
use rvt_num::{Kind, Num, Value};
use rvt_tree::{CType, Name, Object, Structs};
use sqlite_items::{Items, at};
use std::alloc::{AllocError, Global};
use version_map::Added;

/// An array of eight elements. Want of memory also where a struct has more than 4,096 cells, as none of an accepted file has.
pub fn extra_array(alloc: Global, side: &Side, element: Element) -> Result<Object, AllocError>
    ensures { IfOk result (λ object. object_parts object ≡ spec.extra_array (view_of side.now) element) }
{
    let name = Name::new(alloc, b"")?;
    match element {
        Element::Word(kind) => array_of_word(alloc, name, kind, 8),
        Element::Struct(origin) => {
            let number = struct_number(side, origin)?;
            let cells = struct_cells(alloc, side, origin)?;
            array_of(alloc, name, CType::Struct(number), cells.as_slice(), 8)
        }
    }
}

/// An array that the map says.
pub fn mapped_array(alloc: Global, added: &[Added], number: u32) -> Result<Object, AllocError>
    ensures { IfOk result (λ object. object_parts object ≡ spec.mapped_array (slice_get added.now number)) }
{
    match at(added, number as usize) {
        Some(added) => {
            let name = Name::new(alloc, added.name.bytes())?;
            array_of_word(alloc, name, added.kind, added.count)
        }
        None => no_object(alloc),
    }
}

fn array_of_word(alloc: Global, name: Name, kind: Kind, count: u32) -> Result<Object, AllocError>
    ensures { IfOk result (λ object. object_parts object ≡ spec.an_array_of_words name kind count) }
{
    let cell = [zero(Some(kind))];
    array_of(alloc, name, CType::Word(kind), cell.as_slice(), count)
}

/// An array of elements that have these cells each.
fn array_of(
    alloc: Global,
    name: Name,
    element: CType,
    cells: &[Value],
    count: u32,
) -> Result<Object, AllocError>
    ensures { IfOk result (λ object. object_parts object ≡ spec.an_array name (shape_of element) cells.now count) }
{
    let initial = cells_repeated(alloc, cells, count)?;
    let element = Box::new(alloc, element)?;
    Ok(Object {
        name,
        ty: CType::Array(element, count),
        constant: false,
        addressable: true,
        owner: None,
        initial: Items::from_vec(initial),
    })
}

/// These cells, so many times.
fn cells_repeated(alloc: Global, cells: &[Value], count: u32) -> Result<Vec<Value>, AllocError>
    ensures { IfOk result (λ all. all.items ≡ spec.repeated_cells count cells.now) }
{
    let mut all = Vec::new(alloc);
    let mut left = count;
    'elements: while left > 0 {
        all.extend_from_slice(cells)?;
        left -= 1;
    }
    Ok(all)
}

/// The number in our program of a struct.
fn struct_number(side: &Side, origin: Origin) -> Result<u32, AllocError>
    ensures { IfOk result (λ number. number ≡ spec.struct_number (view_of side.now) origin) }
{
    match origin {
        Origin::Both(ours, _) => Ok(ours),
        Origin::Old(ours) => Ok(ours),
        Origin::New(theirs) => number_across(side, theirs),
    }
}

/// The cells of a struct, all zero.
fn struct_cells(alloc: Global, side: &Side, origin: Origin) -> Result<Vec<Value>, AllocError>
    ensures { IfOk result (λ cells. cells.items ≡ zero_cells (spec.struct_plan (view_of side.now) origin)) }
{
    match origin {
        Origin::Both(ours, _) => zeros_of(alloc, &side.ours.structs, ours),
        Origin::Old(ours) => zeros_of(alloc, &side.ours.structs, ours),
        Origin::New(theirs) => zeros_of(alloc, &side.theirs.structs, theirs),
    }
}

fn zeros_of(alloc: Global, structs: &Structs, number: u32) -> Result<Vec<Value>, AllocError>
    ensures { IfOk result (λ cells. cells.items ≡ zero_cells (plan_of structs.now (C.Struct number))) }
{
    let ty = CType::Struct(number);
    match layout(alloc, &ty, structs) {
        Ok(plan) => zeros(alloc, plan.cells.as_slice()),
        Err(TypeFault::Incomplete) => Ok(Vec::new(alloc)),
        Err(_) => Err(AllocError),
    }
}

fn zeros(alloc: Global, cells: &[Option<Kind>]) -> Result<Vec<Value>, AllocError>
    ensures { IfOk result (λ zeros. zeros.items ≡ map zero_cell cells.now) }
{
    let mut zeros = Vec::new(alloc);
    for cell in cells {
        zeros.push(zero(*cell))?;
    }
    Ok(zeros)
}

fn zero(cell: Option<Kind>) -> Value
    ensures { result ≡ zero_cell cell }
{
    match cell {
        Some(kind) => Value::Num(Num::wrapped(kind, 0)),
        None => Value::Null,
    }
}
