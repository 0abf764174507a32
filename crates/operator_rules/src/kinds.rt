//! Whether two kinds are one, and two pointers point to one type.

ghost use Rattle.std.specs.Prelude.{◌≡◌};
ghost use Rattle.c_types.specs.Layout.{same_kind, same_pointee};

use rvt_num::Kind;
use rvt_tree::Pointee;

pub fn is_same_kind(a: Kind, b: Kind) -> bool
    ensures { result ≡ same_kind a b }
{
    a.width() == b.width() && a.is_signed() == b.is_signed()
}

pub fn is_same_pointee(a: Pointee, b: Pointee) -> bool
    ensures { result ≡ same_pointee a b }
{
    match (a, b) {
        (Pointee::Word(a), Pointee::Word(b)) => is_same_kind(a, b),
        (Pointee::Struct(a), Pointee::Struct(b)) => a == b,
        _ => false,
    }
}
