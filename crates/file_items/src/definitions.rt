//! Prototypes and definitions of functions (C 6.9.1).

ghost use Rattle.std.specs.Prelude.{◌≡◌, OnOk};
ghost use Rattle.c_syntax.specs.Views.{params_view, stmt_view};
ghost use Rattle.file_typing.specs.FunctionDefinitions.{typed_definition, typed_prototype};
ghost use Rattle.typing_base.specs.Follows.{Becomes};
ghost use Rattle.typing_base.specs.Views.{notes_view, qualified_view};
ghost use Rattle.file_state.specs.Indexes.{IsIndexed};
ghost use Rattle.file_state.specs.Views.{file_state_view};

use crate::bodies::{body_noted, typed_behind, unless_defined};
use crate::headers::typed_header;
use c_syntax::{Params, Stmt, Word};
use file_state::{FileState, with_body};
use std::alloc::Global;
use typing_base::{Fault, Notes, QualifiedType};

/// A prototype.
pub fn typed_prototype(
    alloc: Global,
    state: &mut FileState,
    ty: &QualifiedType,
    word: &Word,
    params: &Params,
    notes: &mut Notes,
) -> Result<(), Fault>
    requires indexed { IsIndexed state.old }
    ensures typed { Becomes (λ _. file_state_view state.new) (typed_prototype (file_state_view state.old) (qualified_view ty.now) word.now (params_view params.now) (notes_view notes.old)) result notes.new }
    ensures indexed { OnOk result (IsIndexed state.new) }
{
    typed_header(alloc, false, state, ty, word, params, notes)?;
    notes.end_function(alloc);
    Ok(())
}

/// A definition gives the names of the parameters.
pub fn typed_definition(
    alloc: Global,
    state: &mut FileState,
    ty: &QualifiedType,
    word: &Word,
    params: &Params,
    body: &Stmt,
    notes: &mut Notes,
) -> Result<(), Fault>
    requires indexed { IsIndexed state.old }
    ensures typed { Becomes (λ _. file_state_view state.new) (typed_definition (file_state_view state.old) (qualified_view ty.now) word.now (params_view params.now) (stmt_view body.now) (notes_view notes.old)) result notes.new }
    ensures indexed { OnOk result (IsIndexed state.new) }
{
    let header = typed_header(alloc, true, state, ty, word, params, notes)?;
    unless_defined(alloc, state, word, header.number)?;
    let statement = typed_behind(alloc, state, &header, body, notes)?;
    let body = body_noted(alloc, statement, notes);
    with_body(state, word, header.number, header.interface, body)?;
    Ok(())
}
