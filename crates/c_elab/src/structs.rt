//! The structs of a program.

ghost use Rattle.std.specs.Prelude.{◌≡◌, map, IfOk};
ghost use Rattle.c_types.specs.Layout.{shape_of};
ghost use Rattle.file_state.specs.Views.{struct_entry_view};
ghost use Rattle.file_typing.specs.Elaboration.{field_views, struct_of, structs_of};
ghost use Rattle.file_typing.specs.Programs.{struct_view};
ghost use Rattle.typing_base.specs.Views.{field_view};

use rvt_tree::{CType, Name, StructDef};
use sqlite_items::Items;
use std::alloc::{AllocError, Global};
use typing_base::{Field, Structure};

/// The name and the type of each field.
fn field_views(alloc: Global, fields: Vec<Field>) -> Result<Items<(Name, CType)>, AllocError>
    ensures { IfOk result (λ views. map (λ field. (field.0, shape_of field.1)) views ≡ field_views (map field_view fields.items)) }
{
    let mut views = Vec::new(alloc);
    'fields: for field in fields {
        let Field { name, ty, .. } = field;
        views.push((name, ty))?;
    }
    Ok(Items::from_vec(views))
}

fn struct_of(alloc: Global, structure: Structure) -> Result<StructDef, AllocError>
    ensures { IfOk result (λ def. struct_view def ≡ struct_of (struct_entry_view structure)) }
{
    let Structure {
        tag,
        tagged,
        fields,
        cells,
        ..
    } = structure;
    let fields = field_views(alloc, fields)?;
    Ok(StructDef {
        tag,
        tagged,
        complete: cells.is_some(),
        fields,
    })
}

/// The structs by their numbers.
pub fn structs_of(alloc: Global, structs: Vec<Structure>) -> Result<Items<StructDef>, AllocError>
    ensures { IfOk result (λ defs. map struct_view defs ≡ structs_of (map struct_entry_view structs.items)) }
{
    let mut defs = Vec::new(alloc);
    'structs: for structure in structs {
        let def = struct_of(alloc, structure)?;
        defs.push(def)?;
    }
    Ok(Items::from_vec(defs))
}
