//! Structs with their bodies (C 6.7.2.1).

ghost use Rattle.std.specs.Prelude.{◌≡◌, map, OnOk};
ghost use Rattle.c_syntax.specs.Views.{declarator_view, field_view};
ghost use Rattle.c_types.specs.Layout.{shape_of};
ghost use Rattle.file_typing.specs.Structs.{added, no_members, struct_defined, typed_field, typed_fields, typed_lines};
ghost use Rattle.typing_base.specs.Follows.{Becomes, Gives};
ghost use Rattle.typing_base.specs.Views.{notes_view, qualified_view};
ghost use Rattle.file_state.specs.Indexes.{IsIndexed};
ghost use Rattle.file_state.specs.Views.{file_state_view, members_view};
ghost use Rattle.file_declarations.specs.Steps.{typed_line};

use crate::copies::copied;
use c_syntax::{Declarator, Field, Word};
use declarator_types::{Sort, declared_type, size_of, value_type};
use expression_elaboration::{base_type, lengths, pointed};
use file_state::{
    FileState, Members, begins_body, body_begun, body_ended, declared_twice, has_field, of_struct,
    with_field,
};
use rvt_tree::CType;
use std::alloc::Global;
use typing_base::{Cause, Fault, Notes, QualifiedType, broken};

/// A field after others.
fn added(
    alloc: Global,
    state: &FileState,
    members: &mut Members,
    word: &Word,
    ty: CType,
) -> Result<(), Fault>
    ensures { Gives (λ _. members_view members.new) (added (file_state_view state.now) (members_view members.old) word.now (shape_of ty)) result }
{
    let size = size_of(state.structs(), &ty)?;
    if members.contents.len() as u128 + size as u128 > 4096 {
        return Err(broken(Cause::TooManyCells, word.place));
    }
    if has_field(members, word.name.bytes()) {
        let fault = declared_twice(alloc, word)?;
        return Err(fault);
    }
    with_field(alloc, state.structs(), &word.name, ty, members)?;
    Ok(())
}

fn typed_field(
    alloc: Global,
    state: &FileState,
    base: &QualifiedType,
    members: &mut Members,
    declarator: &Declarator,
    notes: &mut Notes,
) -> Result<(), Fault>
    ensures { Becomes (λ _. members_view members.new) (typed_field (file_state_view state.now) (qualified_view base.now) (members_view members.old) (declarator_view declarator.now) (notes_view notes.old)) result notes.new }
{
    let counts = lengths(alloc, state.scope(), &declarator.dims, notes)?;
    let base = copied(alloc, base)?;
    let at = declarator.word.place;
    let whole = pointed(declarator.pointer, base);
    let ty = declared_type(alloc, Sort::Field, state.structs(), at, whole, &counts)?;
    let ty = value_type(at, ty)?;
    added(alloc, state, members, &declarator.word, ty.ty)
}

/// The fields of one line.
fn typed_fields(
    alloc: Global,
    state: &FileState,
    base: &QualifiedType,
    members: &mut Members,
    declarators: &[Declarator],
    notes: &mut Notes,
) -> Result<(), Fault>
    ensures { Becomes (λ _. members_view members.new) (typed_fields (file_state_view state.now) (qualified_view base.now) (members_view members.old) (map declarator_view declarators.now) (notes_view notes.old)) result notes.new }
{
    let mut rest = declarators;
    'fields: while let [declarator, others @ ..] = rest {
        typed_field(alloc, state, base, members, declarator, notes)?;
        rest = others;
    }
    Ok(())
}

fn typed_line(
    alloc: Global,
    state: &FileState,
    members: &mut Members,
    line: &Field,
    notes: &mut Notes,
) -> Result<(), Fault>
    ensures { Becomes (λ _. members_view members.new) (typed_line (file_state_view state.now) (members_view members.old) (field_view line.now) (notes_view notes.old)) result notes.new }
{
    let base = base_type(alloc, state.scope(), &line.base)?;
    fields_on_base(alloc, state, base, members, line, notes)
}

fn fields_on_base(
    alloc: Global,
    state: &FileState,
    base: QualifiedType,
    members: &mut Members,
    line: &Field,
    notes: &mut Notes,
) -> Result<(), Fault>
    ensures { Becomes (λ _. members_view members.new) (typed_fields (file_state_view state.now) (qualified_view base) (members_view members.old) (field_view line.now).declarators (notes_view notes.old)) result notes.new }
{
    typed_fields(
        alloc,
        state,
        &base,
        members,
        line.declarators.as_slice(),
        notes,
    )
}

/// The lines of a struct, each with a base of its own.
fn typed_lines(
    alloc: Global,
    state: &FileState,
    members: &mut Members,
    lines: &[Field],
    notes: &mut Notes,
) -> Result<(), Fault>
    ensures { Becomes (λ _. members_view members.new) (typed_lines (file_state_view state.now) (members_view members.old) (map field_view lines.now) (notes_view notes.old)) result notes.new }
{
    let mut rest = lines;
    'lines: while let [line, others @ ..] = rest {
        typed_line(alloc, state, members, line, notes)?;
        rest = others;
    }
    Ok(())
}

fn no_members(alloc: Global) -> Members
    ensures { members_view result ≡ no_members }
{
    Members {
        fields: Vec::new(alloc),
        contents: Vec::new(alloc),
    }
}

/// A struct with its body, in which it is incomplete.
pub fn struct_defined(
    alloc: Global,
    state: &mut FileState,
    tag: &Option<Word>,
    constant: bool,
    lines: &[Field],
    notes: &mut Notes,
) -> Result<QualifiedType, Fault>
    requires indexed { IsIndexed state.old }
    ensures defined { Becomes (λ type. record { file = file_state_view state.new; type = qualified_view type }) (struct_defined (file_state_view state.old) tag.now constant (map field_view lines.now) (notes_view notes.old)) result notes.new }
    ensures indexed { OnOk result (IsIndexed state.new) }
{
    begins_body(alloc, state, tag)?;
    let number = body_begun(state, tag)?;
    let mut members = no_members(alloc);
    typed_lines(alloc, state, &mut members, lines, notes)?;
    body_ended(state, number, members)?;
    Ok(of_struct(number, constant))
}
