//! Whether a joint table is what two files have.

ghost use Rattle.std.specs.Prelude.{◌≡◌, ◌↔◌, slice_get, Some, None, IsTrue};
ghost use Rattle.joint_laws.specs.Premises as spec;
ghost use Rattle.joint_twins.specs.Files.{structs_of, functions_of, AreOneObject};

use joint_objects::{Element, JointObject, Origin};
use rvt_same::are_paired;
use rvt_tree::{Object, Pairing, Program};
use twin_check::same_type;

/// Two files, and the functions and structs of the new one that are partners of the old one's, and the other way round.
#[derive(Clone, Copy)]
pub struct Files<'a> {
    pub old: &'a Program,
    pub new: &'a Program,
    pub there: &'a Pairing,
    pub back: &'a Pairing,
}

/// Whether each object of the table is what the files have.
pub fn are_of_files(files: &Files, table: &[JointObject]) -> bool
    ensures { IsTrue result ↔ spec.AreOfFiles files.now.old.now files.now.new.now (structs_of files.now) (functions_of files.now) table.now }
{
    let mut left = table;
    'table: while let Some((first, rest)) = left.split_first() {
        if !is_of_files(files, *first) {
            return false;
        }
        left = rest;
    }
    true
}

fn is_of_files(files: &Files, object: JointObject) -> bool
    ensures { IsTrue result ↔ spec.IsOfFiles files.now.old.now files.now.new.now (structs_of files.now) (functions_of files.now) object }
{
    match object {
        JointObject::Global(origin) => is_from_files(files, origin),
        JointObject::Local(origin, _) => is_from_files(files, origin),
        JointObject::Extra(element, _) => is_element(files, element),
        JointObject::Mapped(_) => true,
    }
}

fn is_element(files: &Files, element: Element) -> bool
    ensures { IsTrue result ↔ spec.IsElement files.now.old.now files.now.new.now (structs_of files.now) (functions_of files.now) element }
{
    match element {
        Element::Word(_) => true,
        Element::Struct(origin) => is_struct_of(files, origin),
    }
}

fn is_struct_of(files: &Files, origin: Origin) -> bool
    ensures { IsTrue result ↔ spec.IsStructOf files.now.old.now files.now.new.now (structs_of files.now) (functions_of files.now) origin }
{
    match origin {
        Origin::Both(a, b) => are_paired(&files.there.structs, a, b),
        Origin::Old(a) => is_alone(files.there.structs.as_slice(), a),
        Origin::New(b) => is_alone(files.back.structs.as_slice(), b),
    }
}

/// Whether the one of this number is there and has no partner.
fn is_alone(partners: &[Option<u32>], number: u32) -> bool
    ensures { IsTrue result ↔ (slice_get partners.now number ≡ Some None) }
{
    match partners.get(number as usize) {
        Some(None) => true,
        _ => false,
    }
}

fn is_from_files(files: &Files, origin: Origin) -> bool
    ensures { IsTrue result ↔ spec.IsFromFiles files.now.old.now files.now.new.now (structs_of files.now) (functions_of files.now) origin }
{
    let old = files.old.table.objects.as_slice();
    let new = files.new.table.objects.as_slice();
    match origin {
        Origin::Both(a, b) => are_one_object(files.there, old, a, new, b),
        Origin::Old(a) => is_there(old, a),
        Origin::New(b) => is_there(new, b),
    }
}

fn is_there(objects: &[Object], number: u32) -> bool
    ensures { IsTrue result ↔ spec.IsThere objects.now number }
{
    match objects.get(number as usize) {
        Some(_) => true,
        None => false,
    }
}

// ---- an object that both files have

fn are_one_object(pairing: &Pairing, old: &[Object], a: u32, new: &[Object], b: u32) -> bool
    ensures { IsTrue result ↔ AreOneObject pairing.now (slice_get old.now a) (slice_get new.now b) }
{
    let Some(x) = old.get(a as usize) else {
        return false
    };
    let Some(y) = new.get(b as usize) else {
        return false
    };
    is_one_object(pairing, x, y)
}

fn is_one_object(pairing: &Pairing, a: &Object, b: &Object) -> bool
    ensures { IsTrue result ↔ spec.IsOneObject pairing.now a.now b.now }
{
    if !same_type(&a.ty, &b.ty, pairing) {
        return false;
    }
    if a.constant != b.constant {
        return false;
    }
    if a.initial.len() != b.initial.len() {
        return false;
    }
    have_partners_as_owners(pairing, a.owner, b.owner)
}

fn have_partners_as_owners(pairing: &Pairing, a: Option<u32>, b: Option<u32>) -> bool
    ensures { IsTrue result ↔ spec.HavePartnersAsOwners pairing.now.functions a b }
{
    match (a, b) {
        (None, None) => true,
        (Some(a), Some(b)) => are_paired(&pairing.functions, a, b),
        _ => false,
    }
}
