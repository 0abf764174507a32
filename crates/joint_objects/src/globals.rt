//! The globals of a file, each with its partner.

ghost use Rattle.std.specs.Prelude.{◌≡◌, ◌+◌, ◌++◌, ℕ, List, IfOk, OnOk, option_map, option_and_then};
ghost use Rattle.std.specs.List.{position_from};
ghost use Rattle.std.specs.Str.{bytes_eq};
ghost use Rattle.joint_objects.specs.Indexes.{keys_view, numbered_as};
ghost use Rattle.joint_objects.specs.Names.{pair_views};
ghost use Rattle.joint_objects.specs.Globals as spec;

use crate::found::Found;
use crate::keys::{Key, number_of, numbers};
use crate::names::{NamePair, other_name_of, our_numbers, their_numbers};
use crate::types::same_type;
use indexmap::IndexMap;
use rvt_tree::Object;
use sqlite_items::at;
use std::alloc::{AllocError, Global};

/// The globals of our file, each with its partner in theirs.
pub fn matched_globals<'a>(
    alloc: Global,
    structs: &[Option<u32>],
    listed: &[NamePair<'a>],
    ours: &'a [Object],
    theirs: &[Object],
) -> Result<Vec<Found>, AllocError>
    ensures { IfOk result (λ found. found.items ≡ spec.globals_from structs.now (pair_views listed.now) theirs.now 0 ours.now) }
{
    let by_ours = our_numbers(alloc, listed)?;
    let by_theirs = their_numbers(alloc, listed)?;
    let table = global_numbers(alloc, theirs)?;
    globals_by(
        alloc, &by_ours, &by_theirs, &table, structs, listed, ours, theirs,
    )
}

fn globals_by<'a>(
    alloc: Global,
    by_ours: &IndexMap<Key<'_>, u32>,
    by_theirs: &IndexMap<Key<'_>, u32>,
    table: &IndexMap<Key<'_>, u32>,
    structs: &[Option<u32>],
    listed: &[NamePair<'a>],
    ours: &'a [Object],
    theirs: &[Object],
) -> Result<Vec<Found>, AllocError>
    requires ours { (name : List ℕ) → numbered_as (name, 0) by_ours.now ≡ position_from (λ names. bytes_eq names.0 name) 0 (pair_views listed.now) }
    requires theirs { (name : List ℕ) → numbered_as (name, 0) by_theirs.now ≡ position_from (λ names. bytes_eq names.1 name) 0 (pair_views listed.now) }
    requires globals { (name : List ℕ) → numbered_as (name, 0) table.now ≡ position_from (spec.is_global_of name) 0 theirs.now }
    ensures { IfOk result (λ found. found.items ≡ spec.globals_from structs.now (pair_views listed.now) theirs.now 0 ours.now) }
{
    let mut found = Vec::new(alloc);
    let mut number: u32 = 0;
    let mut left = ours;
    'objects: while let Some((first, rest)) = left.split_first() {
        let partner = global_partner(by_ours, by_theirs, table, structs, listed, first, theirs);
        add_global(first, number, partner, &mut found)?;
        let after = next(number)?;
        number = after;
        left = rest;
    }
    Ok(found)
}

fn add_global(
    object: &Object,
    number: u32,
    partner: Option<u32>,
    found: &mut Vec<Found>,
) -> Result<(), AllocError>
    ensures { OnOk result (found.new.items ≡ found.old.items ++ spec.found_global object.now.owner number partner) }
{
    match object.owner {
        None => found.push(Found {
            object: number,
            partner,
            declaration: 0,
        })?,
        Some(_) => {}
    }
    Ok(())
}

fn global_partner<'a>(
    by_ours: &IndexMap<Key<'_>, u32>,
    by_theirs: &IndexMap<Key<'_>, u32>,
    table: &IndexMap<Key<'_>, u32>,
    structs: &[Option<u32>],
    listed: &[NamePair<'a>],
    ours: &'a Object,
    theirs: &[Object],
) -> Option<u32>
    requires ours { (name : List ℕ) → numbered_as (name, 0) by_ours.now ≡ position_from (λ names. bytes_eq names.0 name) 0 (pair_views listed.now) }
    requires theirs { (name : List ℕ) → numbered_as (name, 0) by_theirs.now ≡ position_from (λ names. bytes_eq names.1 name) 0 (pair_views listed.now) }
    requires globals { (name : List ℕ) → numbered_as (name, 0) table.now ≡ position_from (spec.is_global_of name) 0 theirs.now }
    ensures { result ≡ spec.global_partner structs.now (pair_views listed.now) theirs.now ours.now }
{
    let name = other_name_of(by_ours, by_theirs, listed, ours.name.bytes());
    partner_named(table, structs, ours, name, theirs)
}

/// One more; there is no memory for more than these.
pub fn next(number: u32) -> Result<u32, AllocError>
    ensures { IfOk result (λ next. next ≡ number + 1) }
{
    if number == u32::MAX {
        return Err(AllocError);
    }
    Ok(number + 1)
}

fn partner_named(
    table: &IndexMap<Key<'_>, u32>,
    structs: &[Option<u32>],
    ours: &Object,
    name: Option<&[u8]>,
    theirs: &[Object],
) -> Option<u32>
    requires { (name : List ℕ) → numbered_as (name, 0) table.now ≡ position_from (spec.is_global_of name) 0 theirs.now }
    ensures { result ≡ option_and_then (spec.alike_global structs.now theirs.now ours.now) (option_map (λ n. n.now) name.entry) }
{
    match name {
        Some(name) => alike_global(table, structs, ours, name, theirs),
        None => None,
    }
}

// The global of theirs of this name, if it is like ours.
fn alike_global(
    table: &IndexMap<Key<'_>, u32>,
    structs: &[Option<u32>],
    ours: &Object,
    name: &[u8],
    theirs: &[Object],
) -> Option<u32>
    requires { (name : List ℕ) → numbered_as (name, 0) table.now ≡ position_from (spec.is_global_of name) 0 theirs.now }
    ensures { result ≡ spec.alike_global structs.now theirs.now ours.now name.now }
{
    let number = match number_of(table, Key { name, which: 0 }) {
        Some(number) => number,
        None => return None,
    };
    match at(theirs, number as usize) {
        Some(other) => {
            if are_alike(structs, ours, other) {
                Some(number)
            } else {
                None
            }
        }
        None => None,
    }
}

/// Whether two globals have one type, and are both `const` or neither.
pub fn are_alike(structs: &[Option<u32>], a: &Object, b: &Object) -> bool
    ensures { result ≡ spec.are_alike structs.now a.now b.now }
{
    same_type(structs, &a.ty, &b.ty) && a.constant == b.constant
}

fn global_key(object: &Object) -> Option<Key<'_>>
    ensures { option_map (λ key. (key.name.now, key.which)) result ≡ spec.global_key object.now }
{
    match object.owner {
        None => Some(Key {
            name: object.name.bytes(),
            which: 0,
        }),
        Some(_) => None,
    }
}

fn global_keys(alloc: Global, objects: &[Object]) -> Result<Vec<Option<Key<'_>>>, AllocError>
    ensures { IfOk result (λ keys. keys_view keys.items ≡ spec.global_keys objects.now) }
{
    let mut keys = Vec::new(alloc);
    let mut left = objects;
    'objects: while let Some((first, rest)) = left.split_first() {
        keys.push(global_key(first))?;
        left = rest;
    }
    Ok(keys)
}

/// The number of the first global of each name.
pub fn global_numbers(
    alloc: Global,
    objects: &[Object],
) -> Result<IndexMap<Key<'_>, u32>, AllocError>
    ensures { IfOk result (λ table. (name : List ℕ) → numbered_as (name, 0) table ≡ position_from (spec.is_global_of name) 0 objects.now) }
{
    let keys = global_keys(alloc, objects)?;
    numbers(alloc, keys.as_slice())
}
