ghost use Rattle.std.specs.Prelude.{◌≡◌, IfOk};
ghost use Rattle.c_types.specs.Layout.{shape_of};

use rvt_tree::CType;
use std::alloc::{AllocError, Global};

/// A copy of a type, of the same shape.
pub fn copy_of(alloc: Global, ty: &CType) -> Result<CType, AllocError>
    ensures { IfOk result (λ copy. shape_of copy ≡ shape_of ty.now) }
{
    match ty {
        CType::Word(kind) => Ok(CType::Word(*kind)),
        CType::Pointer(pointee, constant) => Ok(CType::Pointer(*pointee, *constant)),
        CType::Array(element, count) => {
            let element = copy_of(alloc, element)?;
            let element = Box::new(alloc, element)?;
            Ok(CType::Array(element, *count))
        }
        CType::Struct(number) => Ok(CType::Struct(*number)),
    }
}
