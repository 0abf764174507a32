//! The members of an array and of a struct, and how many cells they have.

ghost use Rattle.std.specs.Prelude.{◌≡◌, ◌<◌, option_map, IfOk, IfSome};
ghost use Rattle.c_types.specs.Layout.{shape_of, AStruct};
ghost use Rattle.file_typing.specs.Initializers.{member_of, size_of};
ghost use Rattle.typing_base.specs.Views.{structures_view};

use rvt_tree::CType;
use sqlite_items::at;
use std::alloc::AllocError;
use typing_base::{Structure, cells_of};

/// The member of a number: an element of an array, a field of a struct.
pub fn member_of<'t>(structs: &'t [Structure], ty: &'t CType, number: usize) -> Option<&'t CType>
    ensures member { option_map (λ member. shape_of member.now) result ≡ member_of (structures_view structs.now) (shape_of ty.now) number }
    ensures below { IfSome result (λ member. number < usize.MAX) }
{
    match ty {
        CType::Array(item, count) => {
            if number < *count as usize {
                Some(item)
            } else {
                None
            }
        }
        CType::Struct(structure) => field_of(structs, *structure, number),
        CType::Word(_) => None,
        CType::Pointer(_, _) => None,
    }
}

fn field_of(structs: &[Structure], structure: u32, number: usize) -> Option<&CType>
    ensures member { option_map (λ member. shape_of member.now) result ≡ member_of (structures_view structs.now) (AStruct structure) number }
    ensures below { IfSome result (λ member. number < usize.MAX) }
{
    let structure = match at(structs, structure as usize) {
        Some(structure) => structure,
        None => return None,
    };
    if number >= structure.fields.len() {
        return None;
    }
    Some(&structure.fields[number].ty)
}

/// The cells of a type, and none of an incomplete one.
pub fn size_of(structs: &[Structure], ty: &CType) -> Result<u32, AllocError>
    ensures { IfOk result (λ size. size ≡ size_of (structures_view structs.now) (shape_of ty.now)) }
{
    match cells_of(structs, ty) {
        Some(4_294_967_295) => Err(AllocError),
        Some(cells) => Ok(cells),
        None => Ok(0),
    }
}
