//! What may stand for what in two files: functions by their names, objects and structs by their numbers.

ghost use Rattle.std.specs.Prelude.{◌≡◌, IfOk, if◌then◌else◌, None};
ghost use Rattle.one_table.specs.Names.{named_number};
ghost use Rattle.one_table.specs.Candidates.{is_number, partners_from, by_number as each_with_itself, candidates_of};

use crate::names::{number_of, numbers};
use indexmap::IndexMap;
use rvt_tree::{Function, Pairing, Program};
use sqlite_items::Items;
use std::alloc::{AllocError, Global};

/// For each function of the old file the one of the new file that has its name, and for each object and each struct the
/// one of its number.
pub fn candidates(alloc: Global, old: &Program, new: &Program) -> Result<Pairing, AllocError>
    ensures { IfOk result (λ pairing. pairing ≡ candidates_of old.now new.now) }
{
    let functions = partners(alloc, old.functions.as_slice(), new.functions.as_slice())?;
    let objects = by_number(alloc, old.table.objects.len())?;
    let structs = by_number(alloc, old.structs.list.len())?;
    Ok(Pairing {
        functions: Items::from_vec(functions),
        objects: Items::from_vec(objects),
        structs: Items::from_vec(structs),
    })
}

fn partners(
    alloc: Global,
    old: &[Function],
    new: &[Function],
) -> Result<Vec<Option<u32>>, AllocError>
    ensures { IfOk result (λ partners. partners.items ≡ partners_from old.now new.now 0 old.now) }
{
    let old_numbers = numbers(alloc, old)?;
    let new_numbers = numbers(alloc, new)?;
    let mut partners = Vec::new(alloc);
    for number in 0..old.len() {
        let name = old[number].name.bytes();
        partners.push(partner(&old_numbers, &new_numbers, number, name))?;
    }
    Ok(partners)
}

/// The number under a name in the new file, where the name is that of this number in the old one.
fn partner(
    old: &IndexMap<&[u8], u32>,
    new: &IndexMap<&[u8], u32>,
    number: usize,
    name: &[u8],
) -> Option<u32>
    ensures { result ≡ (if is_number number (named_number name.now old.now) then named_number name.now new.now else None) }
{
    match number_of(old, name) {
        Some(first) if first as usize == number => number_of(new, name),
        _ => None,
    }
}

/// Each number below the count with itself.
fn by_number(alloc: Global, count: usize) -> Result<Vec<Option<u32>>, AllocError>
    ensures { IfOk result (λ list. list.items ≡ each_with_itself count) }
{
    // There is no memory for more.
    if count > u32::MAX as usize {
        return Err(AllocError);
    }
    let mut list = Vec::new(alloc);
    for number in 0..count {
        list.push(Some(number as u32))?;
    }
    Ok(list)
}
