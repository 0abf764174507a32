//! Copies of what is noted of parameters.

ghost use Rattle.std.specs.Prelude.{◌≡◌, ◌++◌, ◌∷◌, [], map, IfOk, OnOk};
ghost use Rattle.typing_base.specs.NoteViews.{local_view};

use file_state::copied_type;
use std::alloc::{AllocError, Global};
use typing_base::{Local, copied_name};

fn put(alloc: Global, copies: &mut Vec<Local>, local: &Local) -> Result<(), AllocError>
    ensures { OnOk result (map local_view copies.new.items ≡ map local_view copies.old.items ++ local_view local.now ∷ []) }
{
    let name = copied_name(alloc, &local.name)?;
    let ty = copied_type(alloc, &local.ty)?;
    copies.push(Local {
        name,
        place: local.place,
        ty,
        cells: local.cells,
        constant: local.constant,
    })?;
    Ok(())
}

/// The locals once more.
pub fn copied_locals(alloc: Global, locals: &[Local]) -> Result<Vec<Local>, AllocError>
    ensures { IfOk result (λ copies. map local_view copies.items ≡ map local_view locals.now) }
{
    let mut copies = Vec::new(alloc);
    let mut rest = locals;
    'locals: while let [local, others @ ..] = rest {
        put(alloc, &mut copies, local)?;
        rest = others;
    }
    Ok(copies)
}
