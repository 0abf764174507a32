//! What is paired in the two programs.

ghost use Rattle.std.specs.Prelude.{◌≡◌, ◌++◌, length, IfOk, OnOk};
ghost use Rattle.joint_programs.specs.Pairings as spec;

use crate::sides::sum;
use sqlite_items::Items;
use std::alloc::{AllocError, Global};

/// So many numbers, each with itself.
pub fn by_number(alloc: Global, count: usize) -> Result<Items<Option<u32>>, AllocError>
    ensures { IfOk result (λ pairs. pairs ≡ spec.by_number count) }
{
    if count > u32::MAX as usize {
        return Err(AllocError);
    }
    let mut pairs = Vec::new(alloc);
    for number in 0..count {
        pairs.push(Some(number as u32))?;
    }
    Ok(Items::from_vec(pairs))
}

/// The structs of the old program, each with the equal one of the new program; the new file has so many.
pub fn structs_paired(
    alloc: Global,
    count: usize,
    of_old: &[Option<u32>],
    of_new: &[Option<u32>],
) -> Result<Items<Option<u32>>, AllocError>
    ensures { IfOk result (λ pairs. pairs ≡ spec.structs_paired count (record { of_old = of_old.now; of_new = of_new.now })) }
{
    let mut pairs = Vec::new(alloc);
    push_old(count, of_old, &mut pairs)?;
    push_new(of_new, &mut pairs)?;
    Ok(Items::from_vec(pairs))
}

fn push_old(
    count: usize,
    partners: &[Option<u32>],
    pairs: &mut Vec<Option<u32>>,
) -> Result<(), AllocError>
    ensures { OnOk result (pairs.new.items ≡ pairs.old.items ++ spec.old_structs_from count 0 partners.now) }
{
    let mut number: u32 = 0;
    let mut left = partners;
    'structs: while let Some((first, rest)) = left.split_first() {
        let other = number_in_new(count, number, *first)?;
        pairs.push(Some(other))?;
        let after = sum(1, number)?;
        number = after;
        left = rest;
    }
    Ok(())
}

fn number_in_new(count: usize, number: u32, partner: Option<u32>) -> Result<u32, AllocError>
    ensures { IfOk result (λ other. other ≡ spec.number_in_new count number partner) }
{
    match partner {
        Some(other) => Ok(other),
        None => sum(count, number),
    }
}

fn push_new(partners: &[Option<u32>], pairs: &mut Vec<Option<u32>>) -> Result<(), AllocError>
    ensures { OnOk result (pairs.new.items ≡ pairs.old.items ++ spec.new_structs_from 0 partners.now) }
{
    let mut number: u32 = 0;
    let mut left = partners;
    'structs: while let Some((first, rest)) = left.split_first() {
        let entry = unless_equal(number, *first);
        pairs.push(entry)?;
        let after = sum(1, number)?;
        number = after;
        left = rest;
    }
    Ok(())
}

fn unless_equal(number: u32, partner: Option<u32>) -> Option<u32>
    ensures { result ≡ spec.unless_equal number partner }
{
    match partner {
        Some(_) => None,
        None => Some(number),
    }
}
