//! The locals of a file that are objects, each with its partner.

ghost use Rattle.std.specs.Prelude.{◌≡◌, ◌++◌, option_map, slice_get, OnOk, IfOk};
ghost use Rattle.std.specs.Option.{option_copied};
ghost use Rattle.std.specs.List.{position_from};
ghost use Rattle.joint_objects.specs.Indexes.{numbered_as};
ghost use Rattle.joint_objects.specs.Locals as spec;
ghost use Rattle.joint_objects.specs.Counts.{declared_view, declared_views, declaration_key};

use crate::declarations::{Declared, declaration_numbers, declarations, key_of};
use crate::found::Found;
use crate::globals::next;
use crate::keys::{Key, number_of};
use crate::types::{partner_of, same_type};
use indexmap::IndexMap;
use rvt_tree::Function;
use sqlite_items::at;
use std::alloc::{AllocError, Global};

/// The locals of our functions that are objects, each with its partner.
pub fn matched_locals(
    alloc: Global,
    structs: &[Option<u32>],
    pairs: &[Option<u32>],
    ours: &[Function],
    theirs: &[Function],
) -> Result<Vec<Found>, AllocError>
    ensures { IfOk result (λ found. found.items ≡ spec.locals_from structs.now pairs.now theirs.now 0 ours.now) }
{
    let mut found = Vec::new(alloc);
    let mut number: u32 = 0;
    let mut left = ours;
    'functions: while let Some((first, rest)) = left.split_first() {
        let other = paired_function(pairs, theirs, number as usize);
        add_locals(alloc, structs, first, other, &mut found)?;
        let after = next(number)?;
        number = after;
        left = rest;
    }
    Ok(found)
}

fn paired_function<'a>(
    pairs: &[Option<u32>],
    theirs: &'a [Function],
    number: usize,
) -> Option<&'a Function>
    ensures { option_copied result ≡ spec.paired_function pairs.now theirs.now number }
{
    match partner_of(pairs, number) {
        Some(other) => at(theirs, other as usize),
        None => None,
    }
}

// Adds the objects among the declarations in a function.
fn add_locals(
    alloc: Global,
    structs: &[Option<u32>],
    function: &Function,
    other: Option<&Function>,
    found: &mut Vec<Found>,
) -> Result<(), AllocError>
    ensures { OnOk result (found.new.items ≡ found.old.items ++ spec.locals_among structs.now (spec.declarations_in (option_copied other.entry)) (spec.declarations_in (Some function.now))) }
{
    let ours = declarations(alloc, Some(function))?;
    let theirs = declarations(alloc, other)?;
    let table = declaration_numbers(alloc, theirs.as_slice())?;
    add_declared(&table, structs, ours.as_slice(), theirs.as_slice(), found)
}

fn add_declared(
    table: &IndexMap<Key<'_>, u32>,
    structs: &[Option<u32>],
    ours: &[Declared<'_>],
    theirs: &[Declared<'_>],
    found: &mut Vec<Found>,
) -> Result<(), AllocError>
    requires { (d : spec.Declaration) → numbered_as (declaration_key d) table.now ≡ position_from (spec.is_same_declaration d) 0 (declared_views theirs.now) }
    ensures { OnOk result (found.new.items ≡ found.old.items ++ spec.locals_among structs.now (declared_views theirs.now) (declared_views ours.now)) }
{
    for number in 0..ours.len() {
        add_local(table, structs, ours[number], theirs, found)?;
    }
    Ok(())
}

fn add_local(
    table: &IndexMap<Key<'_>, u32>,
    structs: &[Option<u32>],
    ours: Declared<'_>,
    theirs: &[Declared<'_>],
    found: &mut Vec<Found>,
) -> Result<(), AllocError>
    requires { (d : spec.Declaration) → numbered_as (declaration_key d) table.now ≡ position_from (spec.is_same_declaration d) 0 (declared_views theirs.now) }
    ensures { OnOk result (found.new.items ≡ found.old.items ++ spec.found_local ours.entry.local.now.object (spec.local_partner structs.now (declared_views theirs.now) (declared_view ours.entry)) ours.entry.before) }
{
    let object = match ours.local.object {
        Some(object) => object,
        None => return Ok(()),
    };
    let partner = local_partner(table, structs, ours, theirs);
    found.push(Found {
        object,
        partner,
        declaration: ours.before,
    })?;
    Ok(())
}

fn local_partner(
    table: &IndexMap<Key<'_>, u32>,
    structs: &[Option<u32>],
    ours: Declared<'_>,
    theirs: &[Declared<'_>],
) -> Option<u32>
    requires { (d : spec.Declaration) → numbered_as (declaration_key d) table.now ≡ position_from (spec.is_same_declaration d) 0 (declared_views theirs.now) }
    ensures { result ≡ spec.local_partner structs.now (declared_views theirs.now) (declared_view ours.entry) }
{
    let number = match number_of(table, key_of(ours)) {
        Some(number) => number,
        None => return None,
    };
    match declared_at(theirs, number as usize) {
        Some(other) => {
            if same_type(structs, &ours.local.ty, &other.local.ty) {
                other.local.object
            } else {
                None
            }
        }
        None => None,
    }
}

fn declared_at<'a>(list: &[Declared<'a>], number: usize) -> Option<Declared<'a>>
    ensures { option_map declared_view result ≡ slice_get (declared_views list.now) number }
{
    match at(list, number) {
        Some(declared) => Some(*declared),
        None => None,
    }
}
