//! The answer to the run of a function.

ghost use Rattle.std.specs.Prelude.{◌≡◌, ◌≢◌, ℕ, ◌+◌, ◌-◌, ◌++◌, ◌^◌, ◌<◌, All, IfOk, IfSome, IfNone, bytes_eq, codes, length, position};
ghost use Rattle.std.specs.String.{string_bytes};
ghost use Rattle.std.specs.Fmt.{decimal, signed_decimal};
ghost use Rattle.rvt_tree.specs.declared.programs.Function.{Function as AnyFunction};
ghost use Rattle.c_interp.specs.declared.machine.Stop.{Stop as StopOf};
ghost use Rattle.command_words.specs.Commands.{texts};
ghost use Rattle.rvt_run.specs.Answer.{IsLine, Runs};
ghost use Rattle.rvt_run.specs.Runs.{IsFunction, IsRunAnswer, MachineStops, StopsSo, end_text, stop_status, stop_text, trap_word};
ghost use Rattle.rvt_run.specs.Texts.{HasNoLineEnd};

use crate::answers::{Answer, one_line, refused};
use c_interp::{Machine, Stop};
use c_programs::{Refused, read_program};
use call_arguments::{Arguments, argument_values, first_contents};
use command_words::FunctionRun;
use rvt_num::{End, Input, Num, Trap, Value};
use rvt_tree::{Function, Program};
use std::alloc::{AllocError, Global};

/// How many calls may be active at once.
const MOST_CALLS: u32 = 10_000;
/// The status of a run that returned.
const RETURNED: u8 = 0;
/// The status of a run that asks for what the file hasn't.
const REFUSED: u8 = 3;
/// The status of a run that trapped, or stopped at a bound.
const STOPPED: u8 = 7;

/// A status, and the text of the line that is written with it.
#[derive(Drop)]
struct Said {
    status: u8,
    text: String,
}

/// The answer to the run of a function, by what its file holds.
pub fn run(alloc: Global, command: &FunctionRun<'_>, bytes: &[u8]) -> Result<Answer, AllocError>
    requires file_plain { HasNoLineEnd command.now.file.now }
    requires function_plain { HasNoLineEnd command.now.function.now }
    ensures runs { IfOk result (λ answer. Runs command.now.file.now bytes.now command.now.function.now (texts command.now.arguments.items) command.now.steps answer.status answer.lines.items) }
    ensures shaped { IfOk result (λ answer. All IsLine answer.lines.items) }
{
    let program = match read_program(alloc, bytes) {
        Ok(program) => program,
        Err(Refused::Memory) => return Err(AllocError),
        Err(Refused::Source(refusal)) => return refused(alloc, command.file, &refusal),
    };
    let said = said_of_run(alloc, &program, command)?;
    one_line(alloc, said.status, said.text.as_bytes(), b"")
}

/// What is said of the run of a function of this program.
fn said_of_run(
    alloc: Global,
    program: &Program,
    command: &FunctionRun<'_>,
) -> Result<Said, AllocError>
    requires file_plain { HasNoLineEnd command.now.file.now }
    requires function_plain { HasNoLineEnd command.now.function.now }
    ensures said { IfOk result (λ said. IsRunAnswer program.now command.now.file.now command.now.function.now (texts command.now.arguments.items) command.now.steps said.status (string_bytes said.text)) }
    ensures one_line { IfOk result (λ said. HasNoLineEnd (string_bytes said.text)) }
{
    let (number, function) = match function_named(program, command.function) {
        Some(found) => found,
        None => return no_function(alloc, command.file, command.function),
    };
    let words = command.arguments.as_slice();
    if words.len() != function.params.len() {
        return other_number(alloc, function.params.len());
    }
    match argument_values(alloc, program, function.params.as_slice(), words)? {
        Arguments::Values(values) => stopped(alloc, program, number, values, command.steps),
        Arguments::Bad(before) => bad_argument(alloc, before),
    }
}

/// The function of this name, if it has a body.
fn function_named<'a>(program: &'a Program, name: &str) -> Option<(usize, &'a Function)>
    ensures some { IfSome result (λ found. IsFunction program.now name.now found.0 found.1.now) }
    ensures none { IfNone result ((number : ℕ) (function : AnyFunction) → IsFunction program.now name.now number function → ⊥) }
{
    let functions = program.functions.as_slice();
    let number = match number_named(functions, name.as_bytes()) {
        Some(number) => number,
        None => return None,
    };
    let function = &functions[number];
    if function.body.is_none() {
        return None;
    }
    Some((number, function))
}

/// The number of the function of this name.
fn number_named(functions: &[Function], name: &[u8]) -> Option<usize>
    ensures { result ≡ position (λ function. bytes_eq function.name name.now) functions.now }
{
    functions.iter().position(|function| function.name.is(name))
}

fn no_function(alloc: Global, file: &str, name: &str) -> Result<Said, AllocError>
    requires file_plain { HasNoLineEnd file.now }
    requires name_plain { HasNoLineEnd name.now }
    ensures one_line { IfOk result (λ said. HasNoLineEnd (string_bytes said.text)) }
    ensures status { IfOk result (λ said. said.status ≡ 3) }
    ensures text { IfOk result (λ said. string_bytes said.text ≡ file.now ++ (codes ": no function " ++ name.now)) }
{
    let text = format!(in alloc; "{file}: no function {name}")?;
    Ok(Said {
        status: REFUSED,
        text,
    })
}

fn other_number(alloc: Global, wanted: usize) -> Result<Said, AllocError>
    ensures one_line { IfOk result (λ said. HasNoLineEnd (string_bytes said.text)) }
    ensures status { IfOk result (λ said. said.status ≡ 3) }
    ensures text { IfOk result (λ said. string_bytes said.text ≡ codes "wanted " ++ (decimal wanted ++ codes " arguments")) }
{
    let text = format!(in alloc; "wanted {wanted} arguments")?;
    Ok(Said {
        status: REFUSED,
        text,
    })
}

/// An argument with so many before it means no value of its type.
fn bad_argument(alloc: Global, before: usize) -> Result<Said, AllocError>
    requires { before < 2 ^ 64 - 1 }
    ensures one_line { IfOk result (λ said. HasNoLineEnd (string_bytes said.text)) }
    ensures status { IfOk result (λ said. said.status ≡ 3) }
    ensures text { IfOk result (λ said. string_bytes said.text ≡ codes "argument " ++ (decimal (before + 1) ++ codes ": not a value of its type")) }
{
    let place = before + 1;
    let text = format!(in alloc; "argument {place}: not a value of its type")?;
    Ok(Said {
        status: REFUSED,
        text,
    })
}

/// What is said of the run of a function on these arguments.
fn stopped(
    alloc: Global,
    program: &Program,
    number: usize,
    values: Vec<Value>,
    steps: u64,
) -> Result<Said, AllocError>
    ensures one_line { IfOk result (λ said. HasNoLineEnd (string_bytes said.text)) }
    ensures stopped { IfOk result (λ said. (stop : StopOf) × StopsSo program.now number values.items steps stop × (said.status ≡ stop_status stop) × (string_bytes said.text ≡ stop_text steps stop)) }
{
    // No file has so many functions.
    if number > u32::MAX as usize {
        return Err(AllocError);
    }
    let store = first_contents(alloc, program)?;
    let input = Input {
        args: values,
        store,
    };
    match stop_of(alloc, program, number as u32, &input, steps) {
        Ok(stop) => said_of_stop(alloc, steps, stop),
        Err(error) => Err(error),
    }
}

/// How a run stops.
fn stop_of(
    alloc: Global,
    program: &Program,
    function: u32,
    input: &Input,
    steps: u64,
) -> Result<Stop, AllocError>
    ensures { IfOk result (λ stop. MachineStops program.now function input.now.args.items input.now.store.items steps stop) }
{
    let mut machine = Machine::open(alloc, program, MOST_CALLS)?;
    machine.run(function, input, steps)
}

/// What is said of a run that stopped so, where it could have so many steps.
fn said_of_stop(alloc: Global, bound: u64, stop: Stop) -> Result<Said, AllocError>
    ensures status { IfOk result (λ said. said.status ≡ stop_status stop) }
    ensures text { IfOk result (λ said. string_bytes said.text ≡ stop_text bound stop) }
    ensures one_line { IfOk result (λ said. HasNoLineEnd (string_bytes said.text)) }
{
    match stop {
        Stop::Ended { end, steps } => said_of_end(alloc, end, steps),
        Stop::Cut => Ok(Said {
            status: STOPPED,
            text: cut_text(alloc, bound)?,
        }),
        Stop::Deep => Ok(Said {
            status: STOPPED,
            text: String::from_str(alloc, "deep at 10000 calls")?,
        }),
    }
}

/// What is said of a run that ended so after so many steps.
fn said_of_end(alloc: Global, end: End, steps: u64) -> Result<Said, AllocError>
    ensures status { IfOk result (λ said. said.status ≡ stop_status (Stop.Ended end steps)) }
    ensures text { IfOk result (λ said. string_bytes said.text ≡ end_text end ++ (codes " after " ++ (decimal steps ++ codes " steps"))) }
    ensures one_line { IfOk result (λ said. HasNoLineEnd (string_bytes said.text)) }
{
    match end {
        End::Trapped(why) => {
            let first = trapped_text(alloc, why)?;
            Ok(Said {
                status: STOPPED,
                text: ended_text(alloc, &first, steps)?,
            })
        }
        End::Returned(None) => Ok(Said {
            status: RETURNED,
            text: ended_text(alloc, "returns", steps)?,
        }),
        End::Returned(Some(outcome)) => {
            let first = returned_text(alloc, &outcome)?;
            Ok(Said {
                status: RETURNED,
                text: ended_text(alloc, &first, steps)?,
            })
        }
    }
}

/// The line of a run that ended so after so many steps.
fn ended_text(alloc: Global, end: &str, steps: u64) -> Result<String, AllocError>
    requires { HasNoLineEnd end.now }
    ensures text { IfOk result (λ text. string_bytes text ≡ end.now ++ (codes " after " ++ (decimal steps ++ codes " steps"))) }
    ensures one_line { IfOk result (λ text. HasNoLineEnd (string_bytes text)) }
{
    let text = format!(in alloc; "{end} after {steps} steps")?;
    Ok(text)
}

/// The line of a run that had no step left.
fn cut_text(alloc: Global, bound: u64) -> Result<String, AllocError>
    ensures text { IfOk result (λ text. string_bytes text ≡ codes "cut at " ++ (decimal bound ++ codes " steps")) }
    ensures one_line { IfOk result (λ text. HasNoLineEnd (string_bytes text)) }
{
    let text = format!(in alloc; "cut at {bound} steps")?;
    Ok(text)
}

fn trapped_text(alloc: Global, why: Trap) -> Result<String, AllocError>
    ensures text { IfOk result (λ text. string_bytes text ≡ codes "traps " ++ trap_word why) }
    ensures one_line { IfOk result (λ text. HasNoLineEnd (string_bytes text)) }
{
    let word = trap_word(why);
    let text = format!(in alloc; "traps {word}")?;
    Ok(text)
}

fn returned_text(alloc: Global, outcome: &Num) -> Result<String, AllocError>
    ensures text { IfOk result (λ text. string_bytes text ≡ codes "returns " ++ signed_decimal outcome.now.value) }
    ensures one_line { IfOk result (λ text. HasNoLineEnd (string_bytes text)) }
{
    let value = outcome.value();
    let text = format!(in alloc; "returns {value}")?;
    Ok(text)
}

fn trap_word(why: Trap) -> &'static str
    ensures { result.now ≡ trap_word why }
{
    match why {
        Trap::Divide => "divide",
        Trap::Quotient => "quotient",
        Trap::Shift => "shift",
        Trap::Index => "index",
        Trap::Null => "null",
        Trap::Range => "range",
        Trap::Place => "place",
        Trap::NoReturn => "noreturn",
    }
}
