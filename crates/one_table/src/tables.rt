//! Whether two files have the same structs and the same objects.

ghost use Rattle.std.specs.Prelude.{◌≡◌, ◌↔◌, IsTrue};
ghost use Rattle.one_table.specs.Tables.{SameField, SameFields, SameStruct, SameStructs, SameOwner, IsOneObject, AreOneTable, HaveOneTable};

use rvt_num::Value;
use rvt_same::are_paired;
use rvt_tree::{CType, Name, Object, Pairing, Program, StructDef};
use twin_check::same_type;

/// Whether the two files have the same structs and the same objects, in the same order, where functions and structs are
/// paired so.
pub fn same_tables(old: &Program, new: &Program, pairing: &Pairing) -> bool
    ensures { IsTrue result ↔ HaveOneTable pairing.now old.now new.now }
{
    if !same_structs(
        old.structs.list.as_slice(),
        new.structs.list.as_slice(),
        pairing,
    ) {
        return false;
    }
    same_objects(
        old.table.objects.as_slice(),
        new.table.objects.as_slice(),
        pairing,
    )
}

// ---- structs

fn same_structs(a: &[StructDef], b: &[StructDef], pairing: &Pairing) -> bool
    ensures { IsTrue result ↔ SameStructs pairing.now a.now b.now }
{
    let mut left = a;
    let mut right = b;
    'structs: while let Some((x, more)) = left.split_first() {
        match right.split_first() {
            None => return false,
            Some((y, others)) => {
                if !same_struct(x, y, pairing) {
                    return false;
                }
                left = more;
                right = others;
            }
        }
    }
    right.len() == 0
}

fn same_struct(a: &StructDef, b: &StructDef, pairing: &Pairing) -> bool
    ensures { IsTrue result ↔ SameStruct pairing.now a.now b.now }
{
    if !same_name(&a.tag, &b.tag) {
        return false;
    }
    if a.tagged != b.tagged {
        return false;
    }
    if a.complete != b.complete {
        return false;
    }
    same_fields(a.fields.as_slice(), b.fields.as_slice(), pairing)
}

fn same_fields(a: &[(Name, CType)], b: &[(Name, CType)], pairing: &Pairing) -> bool
    ensures { IsTrue result ↔ SameFields pairing.now a.now b.now }
{
    let mut left = a;
    let mut right = b;
    'fields: while let Some((x, more)) = left.split_first() {
        match right.split_first() {
            None => return false,
            Some((y, others)) => {
                if !same_field(x, y, pairing) {
                    return false;
                }
                left = more;
                right = others;
            }
        }
    }
    right.len() == 0
}

fn same_field(a: &(Name, CType), b: &(Name, CType), pairing: &Pairing) -> bool
    ensures { IsTrue result ↔ SameField pairing.now a.now b.now }
{
    if !same_name(&a.0, &b.0) {
        return false;
    }
    same_type(&a.1, &b.1, pairing)
}

fn same_name(a: &Name, b: &Name) -> bool
    ensures { IsTrue result ↔ (a.now ≡ b.now) }
{
    a.bytes() == b.bytes()
}

// ---- objects

fn same_objects(a: &[Object], b: &[Object], pairing: &Pairing) -> bool
    ensures { IsTrue result ↔ AreOneTable pairing.now a.now b.now }
{
    let mut left = a;
    let mut right = b;
    'objects: while let Some((x, more)) = left.split_first() {
        match right.split_first() {
            None => return false,
            Some((y, others)) => {
                if !same_object(x, y, pairing) {
                    return false;
                }
                left = more;
                right = others;
            }
        }
    }
    right.len() == 0
}

fn same_object(a: &Object, b: &Object, pairing: &Pairing) -> bool
    ensures { IsTrue result ↔ IsOneObject pairing.now a.now b.now }
{
    if !same_name(&a.name, &b.name) {
        return false;
    }
    if !same_type(&a.ty, &b.ty, pairing) {
        return false;
    }
    if a.constant != b.constant {
        return false;
    }
    if a.initial.len() != b.initial.len() {
        return false;
    }
    if a.constant && !same_values(a.initial.as_slice(), b.initial.as_slice()) {
        return false;
    }
    same_owner(a.owner, b.owner, pairing)
}

fn same_values(a: &[Value], b: &[Value]) -> bool
    ensures { IsTrue result ↔ (a.now ≡ b.now) }
{
    let mut left = a;
    let mut right = b;
    'values: while let Some((x, more)) = left.split_first() {
        match right.split_first() {
            None => return false,
            Some((y, others)) => {
                if *x != *y {
                    return false;
                }
                left = more;
                right = others;
            }
        }
    }
    right.len() == 0
}

fn same_owner(a: Option<u32>, b: Option<u32>, pairing: &Pairing) -> bool
    ensures { IsTrue result ↔ SameOwner pairing.now a b }
{
    match (a, b) {
        (None, None) => true,
        (Some(a), Some(b)) => are_paired(&pairing.functions, a, b),
        _ => false,
    }
}
