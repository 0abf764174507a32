//! The lines of a map that name no two globals of equal type and `const`.

ghost use Rattle.std.specs.Prelude.{◌≡◌, ℕ, List, IfOk};
ghost use Rattle.std.specs.List.{position_from};
ghost use Rattle.std.specs.Option.{option_copied};
ghost use Rattle.joint_objects.specs.Indexes.{numbered_as};
ghost use Rattle.joint_objects.specs.StructTypes.{struct_partners as equal_structs};
ghost use Rattle.joint_objects.specs.Globals as spec;

use crate::globals::{are_alike, global_numbers};
use crate::keys::{Key, number_of};
use crate::structs::struct_partners;
use indexmap::IndexMap;
use rvt_tree::{Object, Program};
use sqlite_items::at;
use std::alloc::{AllocError, Global};
use version_map::{Listed, Map};

/// The first line of the map that says something of a global that isn't there.
pub fn line_without_global(
    alloc: Global,
    old: &Program,
    new: &Program,
    map: &Map,
) -> Result<Option<u32>, AllocError>
    ensures { IfOk result (λ line. line ≡ spec.line_without_global old.now.table.objects new.now.table.objects map.now.globals.items) }
{
    let old = old.table.objects.as_slice();
    let new = new.table.objects.as_slice();
    let in_old = global_numbers(alloc, old)?;
    let in_new = global_numbers(alloc, new)?;
    let line = line_without(&in_old, &in_new, old, new, map.globals.as_slice());
    Ok(line)
}

fn line_without(
    in_old: &IndexMap<Key<'_>, u32>,
    in_new: &IndexMap<Key<'_>, u32>,
    old: &[Object],
    new: &[Object],
    lines: &[Listed],
) -> Option<u32>
    requires old { (name : List ℕ) → numbered_as (name, 0) in_old.now ≡ position_from (spec.is_global_of name) 0 old.now }
    requires new { (name : List ℕ) → numbered_as (name, 0) in_new.now ≡ position_from (spec.is_global_of name) 0 new.now }
    ensures { result ≡ spec.line_without_global old.now new.now lines.now }
{
    let mut left = lines;
    'lines: while let Some((first, rest)) = left.split_first() {
        if !are_there(in_old, in_new, old, new, first) {
            return Some(first.line);
        }
        left = rest;
    }
    None
}

fn are_there(
    in_old: &IndexMap<Key<'_>, u32>,
    in_new: &IndexMap<Key<'_>, u32>,
    old: &[Object],
    new: &[Object],
    line: &Listed,
) -> bool
    requires old { (name : List ℕ) → numbered_as (name, 0) in_old.now ≡ position_from (spec.is_global_of name) 0 old.now }
    requires new { (name : List ℕ) → numbered_as (name, 0) in_new.now ≡ position_from (spec.is_global_of name) 0 new.now }
    ensures { result ≡ spec.both_there (spec.global_named old.now line.now.old) (spec.global_named new.now line.now.new) }
{
    global_named(in_old, old, line.old.bytes()).is_some()
        && global_named(in_new, new, line.new.bytes()).is_some()
}

fn global_named<'a>(
    table: &IndexMap<Key<'_>, u32>,
    objects: &'a [Object],
    name: &[u8],
) -> Option<&'a Object>
    requires { (name : List ℕ) → numbered_as (name, 0) table.now ≡ position_from (spec.is_global_of name) 0 objects.now }
    ensures { option_copied result ≡ spec.global_named objects.now name.now }
{
    match number_of(table, Key { name, which: 0 }) {
        Some(number) => at(objects, number as usize),
        None => None,
    }
}

/// The first line of the map that matches two globals of which the types differ, or one of which alone is `const`.
pub fn line_of_unlike(
    alloc: Global,
    old: &Program,
    new: &Program,
    map: &Map,
) -> Result<Option<u32>, AllocError>
    ensures { IfOk result (λ line. line ≡ spec.line_of_unlike (equal_structs old.now.structs.list new.now.structs.list) old.now.table.objects new.now.table.objects map.now.globals.items) }
{
    let structs = struct_partners(
        alloc,
        old.structs.list.as_slice(),
        new.structs.list.as_slice(),
    )?;
    let old = old.table.objects.as_slice();
    let new = new.table.objects.as_slice();
    let in_old = global_numbers(alloc, old)?;
    let in_new = global_numbers(alloc, new)?;
    let line = unlike_line(
        &in_old,
        &in_new,
        structs.as_slice(),
        old,
        new,
        map.globals.as_slice(),
    );
    Ok(line)
}

fn unlike_line(
    in_old: &IndexMap<Key<'_>, u32>,
    in_new: &IndexMap<Key<'_>, u32>,
    structs: &[Option<u32>],
    old: &[Object],
    new: &[Object],
    lines: &[Listed],
) -> Option<u32>
    requires old { (name : List ℕ) → numbered_as (name, 0) in_old.now ≡ position_from (spec.is_global_of name) 0 old.now }
    requires new { (name : List ℕ) → numbered_as (name, 0) in_new.now ≡ position_from (spec.is_global_of name) 0 new.now }
    ensures { result ≡ spec.line_of_unlike structs.now old.now new.now lines.now }
{
    let mut left = lines;
    'lines: while let Some((first, rest)) = left.split_first() {
        if is_unlike(in_old, in_new, structs, old, new, first) {
            return Some(first.line);
        }
        left = rest;
    }
    None
}

fn is_unlike(
    in_old: &IndexMap<Key<'_>, u32>,
    in_new: &IndexMap<Key<'_>, u32>,
    structs: &[Option<u32>],
    old: &[Object],
    new: &[Object],
    line: &Listed,
) -> bool
    requires old { (name : List ℕ) → numbered_as (name, 0) in_old.now ≡ position_from (spec.is_global_of name) 0 old.now }
    requires new { (name : List ℕ) → numbered_as (name, 0) in_new.now ≡ position_from (spec.is_global_of name) 0 new.now }
    ensures { result ≡ spec.unlike structs.now (spec.global_named old.now line.now.old) (spec.global_named new.now line.now.new) }
{
    let a = global_named(in_old, old, line.old.bytes());
    let b = global_named(in_new, new, line.new.bytes());
    unlike(structs, a, b)
}

fn unlike(structs: &[Option<u32>], a: Option<&Object>, b: Option<&Object>) -> bool
    ensures { result ≡ spec.unlike structs.now (option_copied a.entry) (option_copied b.entry) }
{
    match (a, b) {
        (Some(a), Some(b)) => !are_alike(structs, a, b),
        _ => false,
    }
}
