//! Copies of types.

ghost use Rattle.std.specs.Prelude.{◌≡◌, IfOk};
ghost use Rattle.c_types.specs.Layout.{shape_of};
ghost use Rattle.typing_base.specs.Views.{named_view, qualified_view};

use rvt_tree::CType;
use std::alloc::{AllocError, Global};
use typing_base::{NamedType, QualifiedType};

/// A copy of a type.
pub fn copied_type(alloc: Global, ty: &CType) -> Result<CType, AllocError>
    ensures { IfOk result (λ copy. shape_of copy ≡ shape_of ty.now) }
{
    match ty {
        CType::Word(kind) => Ok(CType::Word(*kind)),
        CType::Pointer(pointee, constant) => Ok(CType::Pointer(*pointee, *constant)),
        CType::Array(item, count) => {
            let item = copied_type(alloc, item)?;
            Ok(CType::Array(Box::new(alloc, item)?, *count))
        }
        CType::Struct(number) => Ok(CType::Struct(*number)),
    }
}

fn copied_named(alloc: Global, named: &NamedType) -> Result<NamedType, AllocError>
    ensures { IfOk result (λ copy. named_view copy ≡ named_view named.now) }
{
    match named {
        NamedType::NoValue => Ok(NamedType::NoValue),
        NamedType::Type(ty) => Ok(NamedType::Type(copied_type(alloc, ty)?)),
        NamedType::PointerElsewhere => Ok(NamedType::PointerElsewhere),
    }
}

/// The type of a base, for one more declarator.
pub fn copied_base(alloc: Global, base: &QualifiedType) -> Result<QualifiedType, AllocError>
    ensures { IfOk result (λ copy. qualified_view copy ≡ qualified_view base.now) }
{
    let named = copied_named(alloc, &base.named)?;
    Ok(QualifiedType {
        named,
        constant: base.constant,
    })
}
