//! The objects of the file whose addresses are taken.

ghost use Rattle.std.specs.Prelude.{◌≡◌, ◌||◌, ℕ, flat_map, map, option_map, IfOk, OnOk};
ghost use Rattle.expression_typing.specs.Progress.{is_taken, same_variable};
ghost use Rattle.file_state.specs.Views.{body_view, function_entry_view};
ghost use Rattle.file_typing.specs.Elaboration.{taken_in, with_address};
ghost use Rattle.file_typing.specs.Programs.{object_view};
ghost use Rattle.local_objects.specs.ObjectTables.{is_flagged};
ghost use Rattle.rvt_tree.specs.declared.expressions.Variable.TheVariants as V;
ghost use Rattle.typing_base.specs.NoteViews.{taken_view};

use crate::flags::{is_flagged, set_flag};
use file_state::{FunctionBody, FunctionEntry};
use rvt_tree::{Object, Variable};
use std::alloc::{AllocError, Global};
use typing_base::Taken;

#[tactic(auto, using(crate::proofs::FlagLists::or_false))]
fn flag_object(flags: &mut Vec<bool>, variable: Variable) -> Result<(), AllocError>
    ensures { OnOk result ((k : ℕ) → is_flagged flags.new.items k ≡ is_flagged flags.old.items k || same_variable variable (V.Object k)) }
{
    match variable {
        Variable::Local(_) => Ok(()),
        Variable::Object(number) => {
            set_flag(flags, number)?;
            Ok(())
        }
    }
}

#[tactic(auto, using(crate::proofs::FlagLists::or_false))]
fn flag_objects(flags: &mut Vec<bool>, taken: &[Taken]) -> Result<(), AllocError>
    ensures { OnOk result ((k : ℕ) → is_flagged flags.new.items k ≡ is_flagged flags.old.items k || is_taken (map taken_view taken.now) (V.Object k)) }
{
    let mut rest = taken;
    'taken: while let [one, others @ ..] = rest {
        flag_object(flags, one.variable)?;
        rest = others;
    }
    Ok(())
}

#[tactic(auto, using(crate::proofs::FlagLists::or_false))]
fn flag_objects_in(flags: &mut Vec<bool>, body: &Option<FunctionBody>) -> Result<(), AllocError>
    ensures { OnOk result ((k : ℕ) → is_flagged flags.new.items k ≡ is_flagged flags.old.items k || is_taken (taken_in (option_map body_view body.now)) (V.Object k)) }
{
    match body {
        Some(body) => {
            flag_objects(flags, body.taken.as_slice())?;
            Ok(())
        }
        None => Ok(()),
    }
}

/// A flag for each object whose address is taken in a function.
#[tactic(auto, using(crate::proofs::FlagLists::or_false))]
fn addressed(alloc: Global, functions: &[FunctionEntry]) -> Result<Vec<bool>, AllocError>
    ensures { IfOk result (λ flags. (k : ℕ) → is_flagged flags.items k ≡ is_taken (flat_map (λ entry. taken_in entry.body) (map function_entry_view functions.now)) (V.Object k)) }
{
    let mut flags = Vec::new(alloc);
    let mut rest = functions;
    'functions: while let [function, others @ ..] = rest {
        flag_objects_in(&mut flags, &function.body)?;
        rest = others;
    }
    Ok(flags)
}

fn with_flag(object: Object, addressable: bool) -> Object
    ensures { object_view result ≡ record { name = (object_view object).name; shape = (object_view object).shape; constant = (object_view object).constant; addressable = addressable; owner = (object_view object).owner; initial = (object_view object).initial } }
{
    Object {
        addressable,
        ..object
    }
}

/// An object of the file is addressable where its address is taken in a function.

pub fn with_address(
    alloc: Global,
    functions: &[FunctionEntry],
    objects: Vec<Object>,
) -> Result<Vec<Object>, AllocError>
    ensures { IfOk result (λ flagged. map object_view flagged.items ≡ with_address (flat_map (λ entry. taken_in entry.body) (map function_entry_view functions.now)) 0 (map object_view objects.items)) }
{
    let flags = addressed(alloc, functions)?;
    let flags = flags.as_slice();
    let mut flagged = Vec::new(alloc);
    'objects: for object in objects {
        let addressable = is_flagged(flags, flagged.len());
        flagged.push(with_flag(object, addressable))?;
    }
    Ok(flagged)
}
