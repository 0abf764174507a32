//! The places of our objects in the joint table.

ghost use Rattle.std.specs.Prelude.{◌≡◌, IfOk};
ghost use Rattle.joint_programs.specs.Numbers as spec;

use joint_objects::{JointObject, Origin};
use sqlite_items::at;
use std::alloc::{AllocError, Global};

/// For each of so many of our objects its place in the table.
pub fn numbers_in(
    alloc: Global,
    table: &[JointObject],
    count: usize,
) -> Result<Vec<u32>, AllocError>
    ensures { IfOk result (λ numbers. numbers.items ≡ spec.numbers_in table.now count) }
{
    // There is no memory for more.
    if table.len() > u32::MAX as usize {
        return Err(AllocError);
    }
    let mut numbers = own_numbers(alloc, count)?;
    let mut left = table.len() as u32;
    // From the end, so that the first of two places counts.
    'table: while left > 0 {
        left -= 1;
        put_place(&mut numbers, table, left);
    }
    Ok(numbers)
}

/// Puts the place at the number of our object that stands there, if one does.
fn put_place(numbers: &mut Vec<u32>, table: &[JointObject], place: u32)
    ensures { numbers.new.items ≡ spec.with_place (spec.number_at table.now place) place numbers.old.items }
{
    let number = number_at(table, place);
    put(numbers, number, place);
}

fn number_at(table: &[JointObject], place: u32) -> Option<u32>
    ensures { result ≡ spec.number_at table.now place }
{
    match at(table, place as usize) {
        Some(object) => own_number(*object),
        None => None,
    }
}

/// Each number below the count.
fn own_numbers(alloc: Global, count: usize) -> Result<Vec<u32>, AllocError>
    ensures { IfOk result (λ numbers. numbers.items ≡ spec.numbers_below count) }
{
    if count > u32::MAX as usize {
        return Err(AllocError);
    }
    let mut numbers = Vec::new(alloc);
    for number in 0..count {
        numbers.push(number as u32)?;
    }
    Ok(numbers)
}

/// Puts the place at the number of the object, if there is one.
fn put(numbers: &mut Vec<u32>, object: Option<u32>, place: u32)
    ensures { numbers.new.items ≡ spec.with_place object place numbers.old.items }
{
    if let Some(number) = object {
        let number = number as usize;
        if number < numbers.len() {
            numbers[number] = place;
        }
    }
}

/// Our object that an object of the table is.
fn own_number(object: JointObject) -> Option<u32>
    ensures { result ≡ spec.own_number object }
{
    match object {
        JointObject::Global(origin) => number_of(origin),
        JointObject::Local(origin, _) => number_of(origin),
        JointObject::Extra(_, _) => None,
        JointObject::Mapped(_) => None,
    }
}

fn number_of(origin: Origin) -> Option<u32>
    ensures { result ≡ spec.number_of origin }
{
    match origin {
        Origin::Both(ours, _) => Some(ours),
        Origin::Old(ours) => Some(ours),
        Origin::New(_) => None,
    }
}
