//! Types that are equal, where the partner of each struct is known.

ghost use Rattle.std.specs.Prelude.{◌≡◌, get_or, None};
ghost use Rattle.c_types.specs.Layout.{shape_of, same_kind as kinds_agree};
ghost use Rattle.joint_objects.specs.StructTypes as spec;

use rvt_num::Kind;
use rvt_tree::{CType, Pointee};

/// Whether theirs is the partner of ours.
pub fn are_partners(partners: &[Option<u32>], a: u32, b: u32) -> bool
    ensures { result ≡ spec.are_partners partners.now a b }
{
    match partner_of(partners, a as usize) {
        Some(c) => c == b,
        None => false,
    }
}

/// The partner of the one of this number.
pub fn partner_of(partners: &[Option<u32>], number: usize) -> Option<u32>
    ensures { result ≡ get_or partners.now number None }
{
    if number < partners.len() {
        partners[number]
    } else {
        None
    }
}

fn same_kind(a: Kind, b: Kind) -> bool
    ensures { result ≡ kinds_agree a b }
{
    a.width() == b.width() && a.is_signed() == b.is_signed()
}

fn same_pointee(partners: &[Option<u32>], a: Pointee, b: Pointee) -> bool
    ensures { result ≡ spec.same_pointee partners.now a b }
{
    match (a, b) {
        (Pointee::Word(a), Pointee::Word(b)) => same_kind(a, b),
        (Pointee::Struct(a), Pointee::Struct(b)) => are_partners(partners, a, b),
        _ => false,
    }
}

/// Whether two types are equal.
pub fn same_type(partners: &[Option<u32>], a: &CType, b: &CType) -> bool
    ensures { result ≡ spec.same_type partners.now (shape_of a.now) (shape_of b.now) }
{
    match (a, b) {
        (CType::Word(a), CType::Word(b)) => same_kind(*a, *b),
        (CType::Pointer(a, constant), CType::Pointer(b, constant_of_b)) => {
            same_pointee(partners, *a, *b) && *constant == *constant_of_b
        }
        (CType::Array(a, n), CType::Array(b, m)) => same_type(partners, a, b) && *n == *m,
        (CType::Struct(a), CType::Struct(b)) => are_partners(partners, *a, *b),
        _ => false,
    }
}
