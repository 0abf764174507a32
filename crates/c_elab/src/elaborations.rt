//! What the items of a file become.

ghost use Rattle.std.specs.Prelude.{◌≡◌, List, map};
ghost use Rattle.c_elab.specs.Typed.{IsTyped};
ghost use Rattle.c_syntax.specs.Views.{item_view};
ghost use Rattle.c_syntax.specs.Syntax.{ExternalItem};
ghost use Rattle.expression_typing.specs.Outcomes.{Made};
ghost use Rattle.expression_typing.specs.Progress.{Notes as NotesRecord};
ghost use Rattle.file_state.specs.Views.{file_state_view};
ghost use Rattle.file_typing.specs.Elaboration.{IsElaborated, whole_file};

use crate::last_rules::last_rules;
use crate::programs::program_of;
use crate::refusals::refusal_of;
use c_syntax::Item;
use file_items::all_items;
use file_state::FileState;
use rvt_tree::{Fault, Program};
use std::alloc::Global;
use typing_base::Notes;

// What is sought at the end of a file, and then its program.
fn finished(alloc: Global, state: FileState) -> Result<Program, typing_base::Fault>
    ensures { (items : List ExternalItem) (notes : NotesRecord) → whole_file items ≡ Made (file_state_view state) notes → IsTyped items result }
{
    last_rules(alloc, &state.functions)?;
    let program = program_of(alloc, state)?;
    Ok(program)
}

// All items in order, and then the end of the file.
fn typed_program(alloc: Global, items: &[Item]) -> Result<Program, typing_base::Fault>
    ensures { IsTyped (map item_view items.now) result }
{
    let mut notes = Notes::new(alloc);
    let state = all_items(alloc, items, &mut notes)?;
    let program = finished(alloc, state)?;
    Ok(program)
}

/// The program that the items of a file become, or the rule that the file breaks first.
pub fn elaborate(alloc: Global, items: &[Item]) -> Result<Program, Fault>
    ensures { IsElaborated (map item_view items.now) result }
{
    match typed_program(alloc, items) {
        Ok(program) => Ok(program),
        Err(typing_base::Fault::Memory) => Err(Fault::Memory),
        Err(typing_base::Fault::Broken(broken)) => match refusal_of(alloc, broken) {
            Ok(refusal) => Err(Fault::Refused(refusal)),
            Err(_) => Err(Fault::Memory),
        },
    }
}
