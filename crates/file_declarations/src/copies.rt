//! Copies of types.

ghost use Rattle.std.specs.Prelude.{◌≡◌, IfOk};
ghost use Rattle.typing_base.specs.Views.{named_view, qualified_view};

use file_state::copied_type;
use std::alloc::{AllocError, Global};
use typing_base::{NamedType, QualifiedType};

fn copied_named(alloc: Global, named: &NamedType) -> Result<NamedType, AllocError>
    ensures { IfOk result (λ copy. named_view copy ≡ named_view named.now) }
{
    match named {
        NamedType::NoValue => Ok(NamedType::NoValue),
        NamedType::Type(ty) => Ok(NamedType::Type(copied_type(alloc, ty)?)),
        NamedType::PointerElsewhere => Ok(NamedType::PointerElsewhere),
    }
}

/// The type of a base, for one more declarator.
pub fn copied(alloc: Global, ty: &QualifiedType) -> Result<QualifiedType, AllocError>
    ensures { IfOk result (λ copy. qualified_view copy ≡ qualified_view ty.now) }
{
    let named = copied_named(alloc, &ty.named)?;
    Ok(QualifiedType {
        named,
        constant: ty.constant,
    })
}
