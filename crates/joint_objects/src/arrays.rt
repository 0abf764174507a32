//! The arrays that are added.

ghost use Rattle.std.specs.Prelude.{◌≡◌, ◌++◌, List, max, length, OnOk};
ghost use Rattle.std.specs.List.{flat_map};
ghost use Rattle.rvt_tree.specs.declared.programs.Function.{Function as Unit};
ghost use Rattle.joint_objects.specs.Extras as spec;
ghost use Rattle.joint_objects.specs.JointObjects.{mapped_arrays as arrays_of_map};
ghost use Rattle.joint_objects.specs.Tallies.{AreMost};

use crate::globals::next;
use crate::objects::{Element, JointObject, Origin};
use crate::tallies::{Tally, most_at};
use crate::types::partner_of;
use indexmap::IndexMap;
use rvt_num::Kind;
use rvt_tree::{Pointee, StructDef};
use std::alloc::AllocError;
use version_map::Added;

const KINDS: [Kind; 9] = [
    Kind::Bool,
    Kind::I8,
    Kind::U8,
    Kind::I16,
    Kind::U16,
    Kind::I32,
    Kind::U32,
    Kind::I64,
    Kind::U64,
];

fn add_arrays(element: Element, count: u32, out: &mut Vec<JointObject>) -> Result<(), AllocError>
    ensures { OnOk result (out.new.items ≡ out.old.items ++ spec.arrays_of element count) }
{
    for number in 0..count {
        out.push(JointObject::Extra(element, number))?;
    }
    Ok(())
}

/// Adds the arrays of each kind.
pub fn add_arrays_of_kinds(
    old: &IndexMap<usize, Tally>,
    new: &IndexMap<usize, Tally>,
    out: &mut Vec<JointObject>,
) -> Result<(), AllocError>
    ensures { OnOk result ((f g : List Unit) → AreMost f old.now → AreMost g new.now → out.new.items ≡ out.old.items ++ flat_map (spec.arrays_of_kind f g) spec.kinds_in_order) }
{
    let mut left = KINDS.as_slice();
    'kinds: while let Some((first, rest)) = left.split_first() {
        let kind = *first;
        let in_old = most_at(old, Pointee::Word(kind));
        let in_new = most_at(new, Pointee::Word(kind));
        let count = larger(in_old, in_new);
        add_arrays(Element::Word(kind), count, out)?;
        left = rest;
    }
    Ok(())
}

/// Adds the arrays of the structs of the old file.
pub fn add_arrays_of_old(
    old: &IndexMap<usize, Tally>,
    new: &IndexMap<usize, Tally>,
    partners: &[Option<u32>],
    structs: &[StructDef],
    out: &mut Vec<JointObject>,
) -> Result<(), AllocError>
    ensures { OnOk result ((f g : List Unit) → AreMost f old.now → AreMost g new.now → out.new.items ≡ out.old.items ++ spec.arrays_of_old_structs f g partners.now 0 structs.now) }
{
    let mut number: u32 = 0;
    let mut left = structs;
    'structs: while let Some((first, rest)) = left.split_first() {
        let partner = partner_of(partners, number as usize);
        add_arrays_of_old_struct(old, new, number, partner, first, out)?;
        let after = next(number)?;
        number = after;
        left = rest;
    }
    Ok(())
}

fn add_arrays_of_old_struct(
    old: &IndexMap<usize, Tally>,
    new: &IndexMap<usize, Tally>,
    number: u32,
    partner: Option<u32>,
    definition: &StructDef,
    out: &mut Vec<JointObject>,
) -> Result<(), AllocError>
    ensures { OnOk result ((f g : List Unit) → AreMost f old.now → AreMost g new.now → out.new.items ≡ out.old.items ++ spec.arrays_of_old_struct f g number partner definition.now) }
{
    if !definition.complete {
        return Ok(());
    }
    let count = larger(
        most_at(old, Pointee::Struct(number)),
        most_of_partner(new, partner),
    );
    add_arrays(Element::Struct(origin_of_old(number, partner)), count, out)?;
    Ok(())
}

fn larger(a: u32, b: u32) -> u32
    ensures { result ≡ max a b }
{
    a.max(b)
}

fn add_arrays_of_new_struct(
    new: &IndexMap<usize, Tally>,
    number: u32,
    partner: Option<u32>,
    definition: &StructDef,
    out: &mut Vec<JointObject>,
) -> Result<(), AllocError>
    ensures { OnOk result ((g : List Unit) → AreMost g new.now → out.new.items ≡ out.old.items ++ spec.arrays_of_new_struct g number partner definition.now) }
{
    if !definition.complete {
        return Ok(());
    }
    if partner.is_some() {
        return Ok(());
    }
    let count = most_at(new, Pointee::Struct(number));
    add_arrays(Element::Struct(Origin::New(number)), count, out)?;
    Ok(())
}

fn most_of_partner(new: &IndexMap<usize, Tally>, partner: Option<u32>) -> u32
    ensures { (g : List Unit) → AreMost g new.now → result ≡ spec.most_of_partner partner g }
{
    match partner {
        Some(other) => most_at(new, Pointee::Struct(other)),
        None => 0,
    }
}

/// What something of the old file is in both.
pub fn origin_of_old(number: u32, partner: Option<u32>) -> Origin
    ensures { result ≡ spec.origin_of_old number partner }
{
    match partner {
        Some(other) => Origin::Both(number, other),
        None => Origin::Old(number),
    }
}

/// Adds the arrays of the structs of the new file alone.
pub fn add_arrays_of_new(
    new: &IndexMap<usize, Tally>,
    partners: &[Option<u32>],
    structs: &[StructDef],
    out: &mut Vec<JointObject>,
) -> Result<(), AllocError>
    ensures { OnOk result ((g : List Unit) → AreMost g new.now → out.new.items ≡ out.old.items ++ spec.arrays_of_new_structs g partners.now 0 structs.now) }
{
    let mut number: u32 = 0;
    let mut left = structs;
    'structs: while let Some((first, rest)) = left.split_first() {
        let partner = partner_of(partners, number as usize);
        add_arrays_of_new_struct(new, number, partner, first, out)?;
        let after = next(number)?;
        number = after;
        left = rest;
    }
    Ok(())
}

/// Adds the arrays of the map.
pub fn add_mapped(arrays: &[Added], out: &mut Vec<JointObject>) -> Result<(), AllocError>
    ensures { OnOk result (out.new.items ≡ out.old.items ++ arrays_of_map (length arrays.now)) }
{
    // There is no memory for more.
    if arrays.len() > u32::MAX as usize {
        return Err(AllocError);
    }
    for number in 0..arrays.len() {
        out.push(JointObject::Mapped(number as u32))?;
    }
    Ok(())
}
