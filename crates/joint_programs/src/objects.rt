//! Objects that a file has, as our program has them.

ghost use Rattle.std.specs.Prelude.{◌≡◌, slice_get, IfOk};
ghost use Rattle.joint_programs.specs.Parts.{object_parts};
ghost use Rattle.joint_programs.specs.Views.{view_of};
ghost use Rattle.joint_programs.specs.Objects as spec;

use crate::sides::{Side, owner_across};
use crate::types::{copy_of, type_across};
use joint_objects::Origin;
use rvt_num::{Kind, Value};
use rvt_tree::{CType, Name, Object};
use sqlite_items::{Items, at};
use std::alloc::{AllocError, Global};

/// The object of this origin.
pub fn object_from(alloc: Global, side: &Side, origin: Origin) -> Result<Object, AllocError>
    ensures { IfOk result (λ object. object_parts object ≡ spec.object_from (view_of side.now) origin) }
{
    let ours = side.ours.table.objects.as_slice();
    let theirs = side.theirs.table.objects.as_slice();
    match origin {
        Origin::Both(a, b) => {
            let taken = is_addressable(theirs, b);
            own_object_at(alloc, ours, a, taken)
        }
        Origin::Old(a) => own_object_at(alloc, ours, a, false),
        Origin::New(b) => their_object_at(alloc, side, theirs, b),
    }
}

/// An object without cells.
pub fn no_object(alloc: Global) -> Result<Object, AllocError>
    ensures { IfOk result (λ object. object_parts object ≡ spec.no_object) }
{
    let name = Name::new(alloc, b"")?;
    Ok(Object {
        name,
        ty: CType::Word(Kind::I32),
        constant: false,
        addressable: false,
        owner: None,
        initial: Items::new(alloc),
    })
}

fn is_addressable(objects: &[Object], number: u32) -> bool
    ensures { result ≡ spec.is_addressable (slice_get objects.now number) }
{
    match at(objects, number as usize) {
        Some(object) => object.addressable,
        None => false,
    }
}

fn own_object_at(
    alloc: Global,
    objects: &[Object],
    number: u32,
    taken: bool,
) -> Result<Object, AllocError>
    ensures { IfOk result (λ object. object_parts object ≡ spec.or_none (spec.own_object taken) (slice_get objects.now number)) }
{
    match at(objects, number as usize) {
        Some(object) => own_object(alloc, object, taken),
        None => no_object(alloc),
    }
}

fn own_object(alloc: Global, object: &Object, taken: bool) -> Result<Object, AllocError>
    ensures { IfOk result (λ copy. object_parts copy ≡ spec.own_object taken object.now) }
{
    let name = Name::new(alloc, object.name.bytes())?;
    let ty = copy_of(alloc, &object.ty)?;
    let initial: Items<Value> = Items::from_slice(alloc, object.initial.as_slice())?;
    Ok(Object {
        name,
        ty,
        constant: object.constant,
        addressable: object.addressable || taken,
        owner: object.owner,
        initial,
    })
}

fn their_object_at(
    alloc: Global,
    side: &Side,
    objects: &[Object],
    number: u32,
) -> Result<Object, AllocError>
    ensures { IfOk result (λ object. object_parts object ≡ spec.or_none (spec.their_object (view_of side.now)) (slice_get objects.now number)) }
{
    match at(objects, number as usize) {
        Some(object) => their_object(alloc, side, object),
        None => no_object(alloc),
    }
}

fn their_object(alloc: Global, side: &Side, object: &Object) -> Result<Object, AllocError>
    ensures { IfOk result (λ copy. object_parts copy ≡ spec.their_object (view_of side.now) object.now) }
{
    let name = Name::new(alloc, object.name.bytes())?;
    let ty = type_across(alloc, side, &object.ty)?;
    let initial: Items<Value> = Items::from_slice(alloc, object.initial.as_slice())?;
    Ok(Object {
        name,
        ty,
        constant: object.constant,
        addressable: object.addressable,
        owner: owner_across(side, object.owner),
        initial,
    })
}
