//! The locals that are objects.

ghost use Rattle.std.specs.Prelude.{◌≡◌, ◌++◌, ◌∷◌, [], map, option_map, if◌then◌else◌, IfOk, OnOk};
ghost use Rattle.c_elab.specs.LocalObjects.{local_object};
ghost use Rattle.c_types.specs.Layout.{shape_of};
ghost use Rattle.file_state.specs.Views.{body_view, struct_entry_view};
ghost use Rattle.file_typing.specs.Elaboration.{objects_from, objects_of_body};
ghost use Rattle.file_typing.specs.Objects.{zeros};
ghost use Rattle.file_typing.specs.Programs.{object_view};
ghost use Rattle.typing_base.specs.NoteViews.{local_view};

use file_state::{FunctionBody, cell_kinds, copied_type};
use rvt_num::{Num, Value};
use rvt_tree::{CType, Object};
use sqlite_items::Items;
use std::alloc::{AllocError, Global};
use typing_base::{Local, Structure, copied_name};

/// The contents of an object without an initializer.
#[tactic(auto, using(crate::proofs::Zeros::zero_wrapped))]
fn zeros(alloc: Global, structs: &[Structure], ty: &CType) -> Result<Items<Value>, AllocError>
    ensures { IfOk result (λ values. values ≡ zeros (map struct_entry_view structs.now) (shape_of ty.now)) }
{
    let kinds = cell_kinds(alloc, structs, ty)?;
    let mut values = Vec::new(alloc);
    'kinds: for kind in &kinds {
        values.push(Value::Num(Num::wrapped(*kind, 0)))?;
    }
    Ok(Items::from_vec(values))
}

fn local_object(
    alloc: Global,
    structs: &[Structure],
    owner: u32,
    local: &Local,
) -> Result<Object, AllocError>
    ensures { IfOk result (λ object. object_view object ≡ local_object (map struct_entry_view structs.now) owner (local_view local.now)) }
{
    let name = copied_name(alloc, &local.name)?;
    let ty = copied_type(alloc, &local.ty)?;
    let initial = zeros(alloc, structs, &local.ty)?;
    Ok(Object {
        name,
        ty,
        constant: false,
        addressable: true,
        owner: Some(owner),
        initial,
    })
}

// The object of a local, if it is one.
#[tactic(auto, using(crate::proofs::Lists::nothing_more))]
fn put_object(
    alloc: Global,
    structs: &[Structure],
    owner: u32,
    local: &Local,
    is_object: bool,
    objects: &mut Vec<Object>,
) -> Result<(), AllocError>
    ensures { OnOk result (map object_view objects.new.items ≡ map object_view objects.old.items
        ++ (if is_object then local_object (map struct_entry_view structs.now) owner (local_view local.now) ∷ [] else [])) }
{
    if !is_object {
        return Ok(());
    }
    let object = local_object(alloc, structs, owner, local)?;
    objects.push(object)?;
    Ok(())
}

/// The objects of a function, in the order of its locals.

fn objects_from(
    alloc: Global,
    structs: &[Structure],
    owner: u32,
    body: &FunctionBody,
    objects: &mut Vec<Object>,
) -> Result<(), AllocError>
    ensures { OnOk result (map object_view objects.new.items ≡ map object_view objects.old.items
        ++ objects_from (map struct_entry_view structs.now) owner (body_view body.now) 0 (body_view body.now).locals) }
{
    let mut number = 0u32;
    let mut rest = body.locals.as_slice();
    'locals: while let [local, others @ ..] = rest {
        if number == 4_294_967_295 {
            return Err(AllocError);
        }
        put_object(
            alloc,
            structs,
            owner,
            local,
            body.taken.has_local(number),
            objects,
        )?;
        number += 1;
        rest = others;
    }
    Ok(())
}

#[tactic(auto, using(crate::proofs::Lists::nothing_more))]
pub fn objects_of_body(
    alloc: Global,
    structs: &[Structure],
    owner: u32,
    body: &Option<FunctionBody>,
    objects: &mut Vec<Object>,
) -> Result<(), AllocError>
    ensures { OnOk result (map object_view objects.new.items ≡ map object_view objects.old.items
        ++ objects_of_body (map struct_entry_view structs.now) owner (option_map body_view body.now)) }
{
    match body {
        Some(body) => {
            objects_from(alloc, structs, owner, body, objects)?;
            Ok(())
        }
        None => Ok(()),
    }
}
