//! The structs of two files that are equal.

ghost use Rattle.std.specs.Prelude.{◌≡◌, ◌+◌, List, map, option_map, IfOk};
ghost use Rattle.std.specs.List.{position_from};
ghost use Rattle.rvt_tree.specs.declared.programs.StructDef.{StructDef as Definition};
ghost use Rattle.joint_objects.specs.Indexes.{key_view, keys_view, numbered_as};
ghost use Rattle.joint_objects.specs.StructTypes as spec;

use crate::keys::{Key, number_of, numbers};
use crate::types::same_type;
use indexmap::IndexMap;
use rvt_tree::{CType, Name, StructDef};
use sqlite_items::at;
use std::alloc::{AllocError, Global};

/// For each of our structs the equal one of theirs: of the same tag, or named by the same typedef, and with the same fields.
pub fn struct_partners(
    alloc: Global,
    ours: &[StructDef],
    theirs: &[StructDef],
) -> Result<Vec<Option<u32>>, AllocError>
    ensures { IfOk result (λ partners. partners.items ≡ spec.struct_partners ours.now theirs.now) }
{
    let table = struct_numbers(alloc, theirs)?;
    let mut known = Vec::new(alloc);
    let mut left = ours;
    'structs: while let Some((first, rest)) = left.split_first() {
        let partner = equal_struct(&table, known.as_slice(), first, theirs);
        known.push(partner)?;
        left = rest;
    }
    Ok(known)
}

// A struct by its name, and whether that is a tag.
fn struct_key(of: &StructDef) -> Key<'_>
    ensures { key_view result ≡ spec.struct_key of.now }
{
    let name = of.tag.bytes();
    if of.tagged {
        return Key { name, which: 1 };
    }
    Key { name, which: 0 }
}

fn struct_keys(alloc: Global, structs: &[StructDef]) -> Result<Vec<Option<Key<'_>>>, AllocError>
    ensures { IfOk result (λ keys. keys_view keys.items ≡ spec.struct_keys structs.now) }
{
    let mut keys = Vec::new(alloc);
    let mut left = structs;
    'structs: while let Some((first, rest)) = left.split_first() {
        keys.push(Some(struct_key(first)))?;
        left = rest;
    }
    Ok(keys)
}

// The number of the first struct of each name.
fn struct_numbers(
    alloc: Global,
    structs: &[StructDef],
) -> Result<IndexMap<Key<'_>, u32>, AllocError>
    ensures { IfOk result (λ table. (s : Definition) → numbered_as (spec.struct_key s) table ≡ position_from (spec.have_one_name s) 0 structs.now) }
{
    let keys = struct_keys(alloc, structs)?;
    numbers(alloc, keys.as_slice())
}

// The struct of theirs that is equal to one of ours.
fn equal_struct(
    table: &IndexMap<Key<'_>, u32>,
    known: &[Option<u32>],
    ours: &StructDef,
    theirs: &[StructDef],
) -> Option<u32>
    requires { (s : Definition) → numbered_as (spec.struct_key s) table.now ≡ position_from (spec.have_one_name s) 0 theirs.now }
    ensures { result ≡ spec.equal_struct known.now theirs.now ours.now }
{
    let number = match number_of(table, struct_key(ours)) {
        Some(number) => number,
        None => return None,
    };
    match at(theirs, number as usize) {
        Some(other) => {
            if have_same_fields(known, ours, other) {
                Some(number)
            } else {
                None
            }
        }
        None => None,
    }
}

fn have_same_fields(known: &[Option<u32>], a: &StructDef, b: &StructDef) -> bool
    ensures { result ≡ spec.have_same_fields known.now a.now b.now }
{
    a.complete == b.complete && same_fields(known, a.fields.as_slice(), b.fields.as_slice())
}

fn same_fields(known: &[Option<u32>], a: &[(Name, CType)], b: &[(Name, CType)]) -> bool
    ensures { result ≡ spec.same_fields known.now a.now b.now }
{
    let mut left = a;
    let mut right = b;
    'fields: while let Some((x, more)) = left.split_first() {
        match right.split_first() {
            None => return false,
            Some((y, others)) => {
                if !same_field(known, x, y) {
                    return false;
                }
                left = more;
                right = others;
            }
        }
    }
    right.len() == 0
}

fn same_field(known: &[Option<u32>], a: &(Name, CType), b: &(Name, CType)) -> bool
    ensures { result ≡ spec.same_field known.now a.now b.now }
{
    a.0.bytes() == b.0.bytes() && same_type(known, &a.1, &b.1)
}
