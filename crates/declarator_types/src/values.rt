//! Types that values have.

ghost use Rattle.std.specs.Prelude.{◌≡◌};
ghost use Rattle.file_typing.specs.DeclaratorTypes.{value_type, adjusted, result_kind};
ghost use Rattle.typing_base.specs.Follows.{Gives};
ghost use Rattle.typing_base.specs.Views.{named_view, qualified_view};
ghost use Rattle.declarator_types.specs.Views.{value_type_view};

use place_rules::pointee_of;
use rvt_num::Kind;
use rvt_tree::{CType, Place};
use typing_base::{Fault, NamedType, QualifiedType, not_in_profile, wrong_type};

/// A type that values have, and whether it is `const`.
#[derive(Debug, Drop)]
pub struct ValueType {
    pub ty: CType,
    pub constant: bool,
}

pub fn value_type(at: Place, ty: QualifiedType) -> Result<ValueType, Fault>
    ensures { Gives value_type_view (value_type at (qualified_view ty)) result }
{
    let QualifiedType { named, constant } = ty;
    match named {
        NamedType::Type(shape) => Ok(ValueType {
            ty: shape,
            constant,
        }),
        NamedType::NoValue => Err(wrong_type(at)),
        NamedType::PointerElsewhere => Err(wrong_type(at)),
    }
}

/// A parameter of array type is a pointer to its elements (C 6.7.6.3).
pub fn adjusted(ty: ValueType) -> ValueType
    ensures { value_type_view result ≡ adjusted (value_type_view ty) (value_type_view ty).shape }
{
    let pointee = match &ty.ty {
        CType::Array(element, _) => pointee_of(element),
        _ => None,
    };
    match pointee {
        Some(pointee) => ValueType {
            ty: CType::Pointer(pointee, ty.constant),
            constant: false,
        },
        None => ty,
    }
}

/// The result of a function is `void` or an integer.
pub fn result_kind(at: Place, named: &NamedType) -> Result<Option<Kind>, Fault>
    ensures { Gives (λ kind. kind) (result_kind at (named_view named.now)) result }
{
    match named {
        NamedType::NoValue => Ok(None),
        NamedType::Type(CType::Word(kind)) => Ok(Some(*kind)),
        _ => Err(not_in_profile(at)),
    }
}
