//! Whether two functions, or two loops, take and give the same types.

ghost use Rattle.std.specs.Prelude.{◌↔◌, IsTrue};
ghost use Rattle.c_meaning.specs.Twins.{SameResult};
ghost use Rattle.rvt_run.specs.Pairs.{SameTypes, SameInterface, local_of, SameNamedLocal, SameNamedLocals, SameLoopInterface};

use loop_interfaces::local_at;
use rvt_tree::{CType, Function, Local, Pairing};
use twin_check::same_type;

/// Whether two functions have the same types of parameters and of results.
pub fn same_interface(a: &Function, b: &Function, pairing: &Pairing) -> bool
    ensures { IsTrue result ↔ SameInterface pairing.now a.now b.now }
{
    if !same_types(a.params.as_slice(), b.params.as_slice(), pairing) {
        return false;
    }
    same_result(&a.result, &b.result, pairing)
}

fn same_types(a: &[Local], b: &[Local], pairing: &Pairing) -> bool
    ensures { IsTrue result ↔ SameTypes pairing.now a.now b.now }
{
    let mut left = a;
    let mut right = b;
    while let Some((x, more)) = left.split_first() {
        match right.split_first() {
            None => return false,
            Some((y, others)) => {
                if !same_type(&x.ty, &y.ty, pairing) {
                    return false;
                }
                left = more;
                right = others;
            }
        }
    }
    right.len() == 0
}

fn same_result(a: &Option<CType>, b: &Option<CType>, pairing: &Pairing) -> bool
    ensures { IsTrue result ↔ SameResult pairing.now a.now b.now }
{
    match (a, b) {
        (None, None) => true,
        (Some(a), Some(b)) => same_type(a, b, pairing),
        _ => false,
    }
}

// ---- loops

/// Whether two loops have the same type of result, and stand on locals of the same names and types, which are given by their
/// numbers.
pub fn same_loop_interface(
    f: &Function,
    g: &Function,
    locals: &[u32],
    others: &[u32],
    pairing: &Pairing,
) -> bool
    ensures { IsTrue result ↔ SameLoopInterface pairing.now f.now g.now locals.now others.now }
{
    if !same_named_locals(f, g, locals, others, pairing) {
        return false;
    }
    same_result(&f.result, &g.result, pairing)
}

fn same_named_locals(
    f: &Function,
    g: &Function,
    locals: &[u32],
    others: &[u32],
    pairing: &Pairing,
) -> bool
    ensures { IsTrue result ↔ SameNamedLocals pairing.now f.now g.now locals.now others.now }
{
    let mut left = locals;
    let mut right = others;
    'locals: while let Some((a, more)) = left.split_first() {
        match right.split_first() {
            None => return false,
            Some((b, rest)) => {
                if !same_named_local(f, g, *a, *b, pairing) {
                    return false;
                }
                left = more;
                right = rest;
            }
        }
    }
    right.len() == 0
}

fn same_named_local(f: &Function, g: &Function, a: u32, b: u32, pairing: &Pairing) -> bool
    ensures { IsTrue result ↔ SameNamedLocal pairing.now (local_of f.now a) (local_of g.now b) }
{
    let Some(x) = local_at(f, a) else {
        return false
    };
    let Some(y) = local_at(g, b) else {
        return false
    };
    if x.name.bytes() != y.name.bytes() {
        return false;
    }
    same_type(&x.ty, &y.ty, pairing)
}
