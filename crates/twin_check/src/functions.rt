//! Equality of two functions under a pairing.

ghost use Rattle.std.specs.Prelude.{◌↔◌, IsTrue, slice_get};
ghost use Rattle.c_meaning.specs.Twins.{SameType, SameObjectNumber, SameLocal, SameLocals, SameResult, SameBody, SameFunction, AreTwins};

use rvt_same::{are_paired, same_pointee, same_tree};
use rvt_tree::{CType, Function, Local, Pairing, Program, Stmt};

/// Whether two types are the same.
pub fn same_type(a: &CType, b: &CType, pairing: &Pairing) -> bool
    ensures { IsTrue result ↔ SameType pairing.now a.now b.now }
{
    match (a, b) {
        (CType::Word(a), CType::Word(b)) => *a == *b,
        (CType::Pointer(a, constant), CType::Pointer(b, constant_of_b)) => {
            same_pointee(pairing, *a, *b) && *constant == *constant_of_b
        }
        (CType::Array(a, n), CType::Array(b, m)) => same_type(a, b, pairing) && *n == *m,
        (CType::Struct(a), CType::Struct(b)) => are_paired(&pairing.structs, *a, *b),
        _ => false,
    }
}

fn same_object_number(a: Option<u32>, b: Option<u32>, pairing: &Pairing) -> bool
    ensures { IsTrue result ↔ SameObjectNumber pairing.now a b }
{
    match (a, b) {
        (None, None) => true,
        (Some(a), Some(b)) => are_paired(&pairing.objects, a, b),
        _ => false,
    }
}

fn same_local(a: &Local, b: &Local, pairing: &Pairing) -> bool
    ensures { IsTrue result ↔ SameLocal pairing.now a.now b.now }
{
    if !same_object_number(a.object, b.object, pairing) {
        return false;
    }
    same_type(&a.ty, &b.ty, pairing)
}

fn same_locals(a: &[Local], b: &[Local], pairing: &Pairing) -> bool
    ensures { IsTrue result ↔ SameLocals pairing.now a.now b.now }
{
    let mut left = a;
    let mut right = b;
    while let Some((x, more)) = left.split_first() {
        match right.split_first() {
            None => return false,
            Some((y, others)) => {
                if !same_local(x, y, pairing) {
                    return false;
                }
                left = more;
                right = others;
            }
        }
    }
    right.len() == 0
}

fn same_result(a: &Option<CType>, b: &Option<CType>, pairing: &Pairing) -> bool
    ensures { IsTrue result ↔ SameResult pairing.now a.now b.now }
{
    match (a, b) {
        (None, None) => true,
        (Some(a), Some(b)) => same_type(a, b, pairing),
        _ => false,
    }
}

fn same_body(a: &Option<Stmt>, b: &Option<Stmt>, pairing: &Pairing) -> bool
    ensures { IsTrue result ↔ SameBody pairing.now a.now b.now }
{
    match (a, b) {
        (None, None) => true,
        (Some(a), Some(b)) => same_tree(a, b, pairing),
        _ => false,
    }
}

fn same_function(a: &Function, b: &Function, pairing: &Pairing) -> bool
    ensures { IsTrue result ↔ SameFunction pairing.now a.now b.now }
{
    if !same_locals(a.params.as_slice(), b.params.as_slice(), pairing) {
        return false;
    }
    if !same_locals(a.locals.as_slice(), b.locals.as_slice(), pairing) {
        return false;
    }
    if !same_result(&a.result, &b.result, pairing) {
        return false;
    }
    same_body(&a.body, &b.body, pairing)
}

/// Whether two functions, by their numbers, are equal under the pairing.
pub fn are_twins(old: &Program, other: &Program, pairing: &Pairing, f: usize, g: usize) -> bool
    ensures { IsTrue result ↔ AreTwins pairing.now (slice_get old.now.functions f) (slice_get other.now.functions g) }
{
    let Some(a) = old.functions.get(f) else {
        return false
    };
    let Some(b) = other.functions.get(g) else {
        return false
    };
    same_function(a, b, pairing)
}
