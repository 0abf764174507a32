//! What a prototype and a definition begin with: the result, the name and the parameters (C 6.7.6.3, 6.9.1).

ghost use Rattle.std.specs.Prelude.{◌≡◌, IfOk, OnOk};
ghost use Rattle.c_syntax.specs.Views.{params_view};
ghost use Rattle.expression_typing.specs.Entities.{in_scope};
ghost use Rattle.file_typing.specs.FunctionDeclarators.{number_of_function, unless_unlike};
ghost use Rattle.file_typing.specs.FunctionDefinitions.{typed_header};
ghost use Rattle.typing_base.specs.Follows.{Becomes, Gives};
ghost use Rattle.typing_base.specs.Views.{notes_view, qualified_view};
ghost use Rattle.file_state.specs.Indexes.{IsIndexed};
ghost use Rattle.file_state.specs.Views.{file_state_view, interface_view};
ghost use Rattle.file_items.specs.FunctionHeaders.{header_behind, header_view};

use crate::locals::copied_locals;
use crate::parameters::{Parameter, parameters_of_header};
use c_syntax::{Params, Word};
use declarator_types::result_kind;
use file_state::{
    FileState, Interface, entity_in, function_declared, may_name_function, unless_unlike,
};
use rvt_num::Kind;
use std::alloc::{AllocError, Global};
use typing_base::{Fault, Notes, QualifiedType};

/// A function that is declared: its number, its interface, and its parameters as the body sees them.
#[derive(Debug, Drop)]
pub struct Header {
    pub number: u32,
    pub interface: Interface,
    pub parameters: Vec<Parameter>,
}

/// The parameters are what is noted of the function so far.
fn interface_noted(
    alloc: Global,
    kind: Option<Kind>,
    notes: &Notes,
) -> Result<Interface, AllocError>
    ensures { IfOk result (λ interface. interface_view interface ≡ record { params = (notes_view notes.now).locals; result = kind }) }
{
    let params = copied_locals(alloc, notes.locals.as_slice())?;
    Ok(Interface {
        params,
        result: kind,
    })
}

/// All declarations of a function have one type.
fn unless_unlike_in_file(state: &FileState, word: &Word, interface: &Interface) -> Result<(), Fault>
    ensures { Gives (λ x. x) (unless_unlike word.now (interface_view interface.now) (in_scope (file_state_view state.now).names word.now.name)) result }
{
    unless_unlike(word, interface, entity_in(state, word.name.bytes()))
}

/// What follows the name: the parameters, and then whether it is the type of the declarations before.
fn header_behind(
    alloc: Global,
    with_names: bool,
    state: &mut FileState,
    kind: Option<Kind>,
    word: &Word,
    params: &Params,
    notes: &mut Notes,
) -> Result<Header, Fault>
    requires indexed { IsIndexed state.old }
    ensures typed { Becomes (header_view (file_state_view state.old) state.new) (header_behind with_names (file_state_view state.old) kind word.now (params_view params.now) (notes_view notes.old)) result notes.new }
    ensures number { IfOk result (λ header. header.number ≡ number_of_function (file_state_view state.new) word.now) }
    ensures tags { OnOk result ((file_state_view state.new).tags ≡ (file_state_view state.old).tags) }
    ensures structs { OnOk result ((file_state_view state.new).structs ≡ (file_state_view state.old).structs) }
    ensures indexed { OnOk result (IsIndexed state.new) }
{
    let parameters = parameters_of_header(alloc, with_names, state, kind, params, notes)?;
    let interface = interface_noted(alloc, kind, notes)?;
    unless_unlike_in_file(state, word, &interface)?;
    let number = function_declared(alloc, state, word, &interface)?;
    Ok(Header {
        number,
        interface,
        parameters,
    })
}

/// The result, the name, the parameters, and then whether it is the type of the declarations before.
pub fn typed_header(
    alloc: Global,
    with_names: bool,
    state: &mut FileState,
    ty: &QualifiedType,
    word: &Word,
    params: &Params,
    notes: &mut Notes,
) -> Result<Header, Fault>
    requires indexed { IsIndexed state.old }
    ensures typed { Becomes (header_view (file_state_view state.old) state.new) (typed_header with_names (file_state_view state.old) (qualified_view ty.now) word.now (params_view params.now) (notes_view notes.old)) result notes.new }
    ensures number { IfOk result (λ header. header.number ≡ number_of_function (file_state_view state.new) word.now) }
    ensures tags { OnOk result ((file_state_view state.new).tags ≡ (file_state_view state.old).tags) }
    ensures structs { OnOk result ((file_state_view state.new).structs ≡ (file_state_view state.old).structs) }
    ensures indexed { OnOk result (IsIndexed state.new) }
{
    let kind = result_kind(word.place, &ty.named)?;
    may_name_function(alloc, state, word)?;
    notes.end_function(alloc);
    header_behind(alloc, with_names, state, kind, word, params, notes)
}
