ghost use Rattle.std.specs.Prelude.{◌≡◌, List, not, find, option_map, IfNone};
ghost use Rattle.std.specs.Option.{option_copied};
ghost use Rattle.call_graph.specs.Graphs.{IsGraph};
ghost use Rattle.file_typing.specs.CallCycles.{first_without_body};
ghost use Rattle.file_typing.specs.FileScope.{FunctionEntry};
ghost use Rattle.call_cycles.specs.Noted.{AreNotesOf, calls_between, is_defined};
ghost use Rattle.typing_base.specs.NoteViews.{call_view};

use crate::notes::FunctionNotes;
use typing_base::Call;

/// The first call, in the order of the source, of a function that has no body at the end of the file.
pub fn missing_body<'a>(functions: &[FunctionNotes<'a>]) -> Option<&'a Call>
    ensures first { (entries : List FunctionEntry) → AreNotesOf functions.now entries → option_map call_view (option_copied result) ≡ first_without_body entries }
    ensures known { IfNone result (IsGraph (calls_between functions.now)) }
{
    'functions: for function in functions {
        match missing_in(functions, function.calls) {
            Some(call) => return Some(call),
            None => {}
        }
    }
    None
}

fn missing_in<'a>(functions: &[FunctionNotes], calls: &'a [Call]) -> Option<&'a Call>
    ensures { option_copied result ≡ find (λ call. not (is_defined functions.now call.function)) calls.now }
{
    'calls: for call in calls {
        if !has_body(functions, call.function) {
            return Some(call);
        }
    }
    None
}

fn has_body(functions: &[FunctionNotes], number: u32) -> bool
    ensures { result ≡ is_defined functions.now number }
{
    match functions.get(number as usize) {
        Some(function) => function.defined,
        None => false,
    }
}
