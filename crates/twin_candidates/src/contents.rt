//! Objects without the constants whose contents changed.

ghost use Rattle.std.specs.Prelude.{◌≡◌, ◌↔◌, IsTrue, true, slice_get, IfOk};
ghost use Rattle.twin_laws.specs.Tables.{SameNumber, SameNumbers, SameContents};
ghost use Rattle.twin_candidates.specs.Kept.{IsKept, KeepsOnly};

use rvt_num::Value;
use rvt_tree::Object;
use std::alloc::{AllocError, Global};

/// The partners of objects, without those of constants whose contents changed.
pub fn unchanged(
    alloc: Global,
    partners: &[Option<u32>],
    old: &[Object],
    new: &[Object],
) -> Result<Vec<Option<u32>>, AllocError>
    ensures { IfOk result (λ kept. KeepsOnly (λ a b. SameContents (slice_get old.now a) (slice_get new.now b)) partners.now kept.items) }
{
    let mut kept = Vec::new(alloc);
    for number in 0..partners.len() {
        let partner = kept_object(partners, number, old, new);
        kept.push(partner)?;
    }
    Ok(kept)
}

fn kept_object(
    partners: &[Option<u32>],
    number: usize,
    old: &[Object],
    new: &[Object],
) -> Option<u32>
    ensures { IsKept (λ b. SameContents (slice_get old.now number) (slice_get new.now b)) partners.now number result }
{
    match partners.get(number) {
        Some(Some(other)) => {
            if hold_the_same(old, number, new, *other as usize) {
                Some(*other)
            } else {
                None
            }
        }
        _ => None,
    }
}

fn hold_the_same(old: &[Object], number: usize, new: &[Object], other: usize) -> bool
    ensures { IsTrue result ↔ SameContents (slice_get old.now number) (slice_get new.now other) }
{
    let Some(a) = old.get(number) else {
        return true
    };
    let Some(b) = new.get(other) else { return true };
    same_contents(a, b)
}

fn same_contents(a: &Object, b: &Object) -> bool
    ensures { IsTrue result ↔ (a.now.constant ≡ true → SameNumbers a.now.initial b.now.initial) }
{
    if !a.constant {
        return true;
    }
    same_numbers(a.initial.as_slice(), b.initial.as_slice())
}

fn same_numbers(a: &[Value], b: &[Value]) -> bool
    ensures { IsTrue result ↔ SameNumbers a.now b.now }
{
    let mut left = a;
    let mut right = b;
    'values: while let Some((x, more)) = left.split_first() {
        match right.split_first() {
            None => return false,
            Some((y, others)) => {
                if !is_same_number(*x, *y) {
                    return false;
                }
                left = more;
                right = others;
            }
        }
    }
    right.len() == 0
}

fn is_same_number(a: Value, b: Value) -> bool
    ensures { IsTrue result ↔ SameNumber a b }
{
    match a {
        Value::Num(_) => a == b,
        _ => false,
    }
}
