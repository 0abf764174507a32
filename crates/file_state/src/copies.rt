//! Copies of types and interfaces.

ghost use Rattle.std.specs.Prelude.{◌≡◌, ◌++◌, ◌∷◌, [], map, IfOk, OnOk};
ghost use Rattle.c_types.specs.Layout.{shape_of};
ghost use Rattle.file_typing.specs.FunctionDeclarators.{shapes_of};
ghost use Rattle.typing_base.specs.NoteViews.{local_view};
ghost use Rattle.file_state.specs.Views.{interface_view};

use crate::entries::Interface;
use rvt_tree::CType;
use std::alloc::{AllocError, Global};
use typing_base::{Local, copied_name};

/// A copy of a type.
pub fn copied_type(alloc: Global, ty: &CType) -> Result<CType, AllocError>
    ensures { IfOk result (λ copy. shape_of copy ≡ shape_of ty.now) }
{
    match ty {
        CType::Word(kind) => Ok(CType::Word(*kind)),
        CType::Pointer(pointee, constant) => Ok(CType::Pointer(*pointee, *constant)),
        CType::Array(item, count) => {
            let item = copied_type(alloc, item)?;
            Ok(CType::Array(Box::new(alloc, item)?, *count))
        }
        CType::Struct(number) => Ok(CType::Struct(*number)),
    }
}

/// Copies of the types of parameters.
pub fn copied_types(alloc: Global, params: &[Local]) -> Result<Vec<CType>, AllocError>
    ensures { IfOk result (λ copies. map shape_of copies.items ≡ shapes_of (map local_view params.now)) }
{
    let mut copies = Vec::new(alloc);
    let mut rest = params;
    'params: while let [param, others @ ..] = rest {
        put_type(alloc, &mut copies, param)?;
        rest = others;
    }
    Ok(copies)
}

fn put_type(alloc: Global, copies: &mut Vec<CType>, param: &Local) -> Result<(), AllocError>
    ensures { OnOk result (map shape_of copies.new.items ≡ map shape_of copies.old.items ++ shape_of param.now.ty ∷ []) }
{
    let copy = copied_type(alloc, &param.ty)?;
    copies.push(copy)?;
    Ok(())
}

fn put_local(alloc: Global, copies: &mut Vec<Local>, param: &Local) -> Result<(), AllocError>
    ensures { OnOk result (map local_view copies.new.items ≡ map local_view copies.old.items ++ local_view param.now ∷ []) }
{
    let name = copied_name(alloc, &param.name)?;
    let ty = copied_type(alloc, &param.ty)?;
    copies.push(Local {
        name,
        place: param.place,
        ty,
        cells: param.cells,
        constant: param.constant,
    })?;
    Ok(())
}

/// A copy of parameters and result.
pub fn copied_interface(alloc: Global, interface: &Interface) -> Result<Interface, AllocError>
    ensures { IfOk result (λ copy. interface_view copy ≡ interface_view interface.now) }
{
    let mut params = Vec::new(alloc);
    let mut rest = interface.params.as_slice();
    'params: while let [param, others @ ..] = rest {
        put_local(alloc, &mut params, param)?;
        rest = others;
    }
    Ok(Interface {
        params,
        result: interface.result,
    })
}
