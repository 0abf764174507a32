//! What is sought when all items of a file are typed.

ghost use Rattle.std.specs.Prelude.{◌≡◌, map, IfOk};
ghost use Rattle.c_elab.specs.LastRules.{IsSought};
ghost use Rattle.call_cycles.specs.Noted.{AreNotesOf, noted, notes_view};
ghost use Rattle.file_state.specs.Views.{function_entry_view};
ghost use Rattle.typing_base.specs.declared.faults.Cause.TheVariants as C;

use call_cycles::{FunctionNotes, address_on_cycle, missing_body};
use file_state::FunctionEntry;
use std::alloc::{AllocError, Global};
use typing_base::{Call, Cause, Fault, broken, copied_name};

fn note_of(function: &FunctionEntry) -> FunctionNotes<'_>
    ensures { notes_view result ≡ noted (function_entry_view function.now) }
{
    match &function.body {
        Some(body) => FunctionNotes {
            defined: true,
            calls: body.calls.as_slice(),
            taken: body.taken.as_slice(),
        },
        None => FunctionNotes {
            defined: false,
            calls: &[],
            taken: &[],
        },
    }
}

fn notes_of(
    alloc: Global,
    functions: &[FunctionEntry],
) -> Result<Vec<FunctionNotes<'_>>, AllocError>
    ensures { IfOk result (λ notes. AreNotesOf notes.items (map function_entry_view functions.now)) }
{
    let mut notes = Vec::new(alloc);
    'functions: for function in functions {
        notes.push(note_of(function))?;
    }
    Ok(notes)
}

fn no_body(alloc: Global, call: &Call) -> Result<Cause, AllocError>
    ensures { IfOk result (λ cause. cause ≡ C.NoBody call.now.name) }
{
    let name = copied_name(alloc, &call.name)?;
    Ok(Cause::NoBody(name))
}

/// The first call of a function without a body is refused, and then the first address of a local on a call cycle.
pub fn last_rules(alloc: Global, functions: &[FunctionEntry]) -> Result<(), Fault>
    ensures { IsSought (map function_entry_view functions.now) result }
{
    if functions.len() > 4_294_967_295 {
        return Err(Fault::Memory);
    }
    let list = notes_of(alloc, functions)?;
    let notes = list.as_slice();
    match missing_body(notes) {
        Some(call) => {
            let cause = no_body(alloc, call)?;
            return Err(broken(cause, call.place));
        }
        None => {}
    }
    match address_on_cycle(alloc, notes) {
        Ok(Some(place)) => Err(broken(Cause::AddressOnCallCycle, place)),
        Ok(None) => Ok(()),
        Err(_) => Err(Fault::Memory),
    }
}
