//! Functions with their interfaces and bodies (C 6.7.6.3, 6.9.1).

ghost use Rattle.std.specs.Prelude.{◌≡◌, ◌≤◌, ◌+◌, IfOk, OnOk};
ghost use Rattle.file_typing.specs.FunctionDeclarators.{number_of_function, entry_of, with_interface, with_entry, function_declared};
ghost use Rattle.file_typing.specs.FunctionDefinitions.{with_body};
ghost use Rattle.file_state.specs.Indexes.{IsIndexed, times_declared};
ghost use Rattle.file_state.specs.Views.{body_view, file_state_view, function_entry_view, interface_view};

use crate::copies::copied_interface;
use crate::entries::{FunctionBody, FunctionEntry, Interface};
use crate::functions::{named_function, with_function};
use crate::states::FileState;
use c_syntax::Word;
use std::alloc::{AllocError, Global};

/// The first declaration gives the interface; how many more are declared.
fn give_interface(
    alloc: Global,
    entry: &mut FunctionEntry,
    interface: &Interface,
) -> Result<u32, AllocError>
    ensures given { OnOk result (function_entry_view entry.new ≡ with_interface (interface_view interface.now) (function_entry_view entry.old)) }
    ensures name { OnOk result (entry.new.name ≡ entry.old.name) }
    ensures count { IfOk result (λ more. times_declared entry.new ≡ times_declared entry.old + more) }
    ensures few { IfOk result (λ more. more ≤ 1) }
{
    match &entry.interface {
        Some(_) => Ok(0),
        None => {
            let copy = copied_interface(alloc, interface)?;
            entry.interface = Some(copy);
            Ok(1)
        }
    }
}

fn to_declare(entry: &FunctionEntry) -> u32
    ensures count { times_declared entry.now + result ≡ 1 }
    ensures few { result ≤ 1 }
{
    match &entry.interface {
        Some(_) => 0,
        None => 1,
    }
}

/// A definition gives interface and body; how many more are declared.
fn give_body(entry: &mut FunctionEntry, interface: Interface, body: FunctionBody) -> u32
    ensures given { function_entry_view entry.new ≡ with_body (interface_view interface) (body_view body) (function_entry_view entry.old) }
    ensures name { entry.new.name ≡ entry.old.name }
    ensures count { times_declared entry.new ≡ times_declared entry.old + result }
    ensures few { result ≤ 1 }
{
    let more = to_declare(entry);
    entry.interface = Some(interface);
    entry.body = Some(body);
    more
}

fn with_interface(
    alloc: Global,
    state: &mut FileState,
    word: &Word,
    number: u32,
    interface: &Interface,
) -> Result<(), AllocError>
    requires indexed { IsIndexed state.old }
    ensures given { OnOk result (file_state_view state.new ≡ with_entry number (with_interface (interface_view interface.now) (entry_of (file_state_view state.old) number word.now)) (file_state_view state.old)) }
    ensures indexed { OnOk result (IsIndexed state.new) }
{
    if state.declared == 4_294_967_295 {
        return Err(AllocError);
    }
    let place = number as usize;
    if place >= state.functions.len() {
        return Err(AllocError);
    }
    let more = give_interface(alloc, &mut state.functions[place], interface)?;
    state.declared += more;
    Ok(())
}

/// A function gets its body.
pub fn with_body(
    state: &mut FileState,
    word: &Word,
    number: u32,
    interface: Interface,
    body: FunctionBody,
) -> Result<(), AllocError>
    requires indexed { IsIndexed state.old }
    ensures defined { OnOk result (file_state_view state.new ≡ with_entry number (with_body (interface_view interface) (body_view body) (entry_of (file_state_view state.old) number word.now)) (file_state_view state.old)) }
    ensures indexed { OnOk result (IsIndexed state.new) }
{
    if state.declared == 4_294_967_295 {
        return Err(AllocError);
    }
    let place = number as usize;
    if place >= state.functions.len() {
        return Err(AllocError);
    }
    let more = give_body(&mut state.functions[place], interface, body);
    state.declared += more;
    Ok(())
}

/// A function is declared; its number.
#[tactic(auto, using(crate::proofs::EntryChanges::declared_by_steps))]
pub fn function_declared(
    alloc: Global,
    state: &mut FileState,
    word: &Word,
    interface: &Interface,
) -> Result<u32, AllocError>
    requires indexed { IsIndexed state.old }
    ensures number { IfOk result (λ number. number ≡ number_of_function (file_state_view state.new) word.now) }
    ensures declared { OnOk result (file_state_view state.new ≡ function_declared word.now (interface_view interface.now) (file_state_view state.old)) }
    ensures indexed { OnOk result (IsIndexed state.new) }
{
    let number = with_function(alloc, state, word)?;
    named_function(alloc, state, word, number, interface)?;
    with_interface(alloc, state, word, number, interface)?;
    Ok(number)
}
