//! Which object each local of a function is.

ghost use Rattle.std.specs.Prelude.{◌≡◌, ◌||◌, ℕ, map, IfOk, OnOk};
ghost use Rattle.expression_typing.specs.Progress.{is_taken, same_variable};
ghost use Rattle.file_state.specs.Views.{body_view};
ghost use Rattle.file_typing.specs.Elaboration.{is_object};
ghost use Rattle.file_typing.specs.LocalObjects.{object_of_local};
ghost use Rattle.local_objects.specs.ObjectTables.{is_flagged, object_at};
ghost use Rattle.rvt_tree.specs.declared.expressions.Variable.TheVariants as V;
ghost use Rattle.typing_base.specs.NoteViews.{taken_view};

use crate::flags::set_flag;
use file_state::FunctionBody;
use local_objects::{has_room, objects_of_locals};
use rvt_tree::Variable;
use std::alloc::{AllocError, Global};
use typing_base::Taken;

#[tactic(auto, using(crate::proofs::FlagLists::or_false))]
fn flag_local(flags: &mut Vec<bool>, variable: Variable) -> Result<(), AllocError>
    ensures { OnOk result ((k : ℕ) → is_flagged flags.new.items k ≡ is_flagged flags.old.items k || same_variable variable (V.Local k)) }
{
    match variable {
        Variable::Local(number) => {
            set_flag(flags, number)?;
            Ok(())
        }
        Variable::Object(_) => Ok(()),
    }
}

/// Sets the flag of each local whose address is taken.
#[tactic(auto, using(crate::proofs::FlagLists::or_false))]
fn flag_locals(flags: &mut Vec<bool>, taken: &[Taken]) -> Result<(), AllocError>
    ensures { OnOk result ((k : ℕ) → is_flagged flags.new.items k ≡ is_flagged flags.old.items k || is_taken (map taken_view taken.now) (V.Local k)) }
{
    let mut rest = taken;
    'taken: while let [one, others @ ..] = rest {
        flag_local(flags, one.variable)?;
        rest = others;
    }
    Ok(())
}

/// The object that each local is, from the number of the first one on.
pub fn object_table(
    alloc: Global,
    first: u32,
    body: &FunctionBody,
) -> Result<Vec<Option<u32>>, AllocError>
    ensures { IfOk result (λ objects. object_at objects.items ≡ object_of_local (is_object (body_view body.now)) first) }
{
    let mut flags = Vec::new(alloc);
    flag_locals(&mut flags, body.taken.as_slice())?;
    let flags = flags.as_slice();
    if !has_room(flags, first) {
        return Err(AllocError);
    }
    let objects = objects_of_locals(alloc, flags, first)?;
    Ok(objects)
}
