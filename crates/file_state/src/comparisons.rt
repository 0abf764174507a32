//! When types are the same (C 6.2.7).

ghost use Rattle.std.specs.Prelude.{◌≡◌, map};
ghost use Rattle.c_types.specs.Layout.{shape_of, same_kind, same_pointee, same_shape};
ghost use Rattle.file_typing.specs.FunctionDeclarators.{same_result, same_shapes, shapes_of};
ghost use Rattle.typing_base.specs.NoteViews.{local_view};

use rvt_num::Kind;
use rvt_tree::{CType, Pointee};
use typing_base::Local;

fn is_same_kind(a: Kind, b: Kind) -> bool
    ensures { result ≡ same_kind a b }
{
    a.width() == b.width() && a.is_signed() == b.is_signed()
}

fn is_same_pointee(a: Pointee, b: Pointee) -> bool
    ensures { result ≡ same_pointee a b }
{
    match (a, b) {
        (Pointee::Word(a), Pointee::Word(b)) => is_same_kind(a, b),
        (Pointee::Struct(a), Pointee::Struct(b)) => a == b,
        _ => false,
    }
}

fn same_type(a: &CType, b: &CType) -> bool
    ensures { result ≡ same_shape (shape_of a.now) (shape_of b.now) }
{
    match (a, b) {
        (CType::Word(a), CType::Word(b)) => is_same_kind(*a, *b),
        (CType::Pointer(a, constant), CType::Pointer(b, constant_of_b)) => {
            is_same_pointee(*a, *b) && *constant == *constant_of_b
        }
        (CType::Array(a, n), CType::Array(b, m)) => same_type(a, b) && *n == *m,
        (CType::Struct(a), CType::Struct(b)) => *a == *b,
        _ => false,
    }
}

/// Whether the parameters have these types.
pub fn same_types(types: &[CType], params: &[Local]) -> bool
    ensures { result ≡ same_shapes (map shape_of types.now) (shapes_of (map local_view params.now)) }
{
    let mut types = types;
    let mut params = params;
    'params: while let [ty, other_types @ ..] = types {
        match params {
            [param, other_params @ ..] => {
                if !same_type(ty, &param.ty) {
                    return false;
                }
                params = other_params;
            }
            [] => return false,
        }
        types = other_types;
    }
    params.is_empty()
}

pub fn same_results(a: Option<Kind>, b: Option<Kind>) -> bool
    ensures { result ≡ same_result a b }
{
    match (a, b) {
        (None, None) => true,
        (Some(a), Some(b)) => is_same_kind(a, b),
        _ => false,
    }
}
