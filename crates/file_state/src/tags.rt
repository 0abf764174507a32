//! Tags, and the structs that they name (C 6.7.2.3).

ghost use Rattle.std.specs.Prelude.{◌≡◌, ◌++◌, ◌∷◌, [], length, map, true, option_map, IfOk, OnOk};
ghost use Rattle.std.specs.Option.{option_copied};
ghost use Rattle.std.specs.Prelude.{slice_get};
ghost use Rattle.expression_typing.specs.Entities.{tag_in};
ghost use Rattle.file_typing.specs.FileScope.{incomplete, struct_number, with_tag, with_structs};
ghost use Rattle.file_typing.specs.Structs.{is_complete, may_have_body, begins_body, tagged_with, of_struct, struct_declared, struct_named};
ghost use Rattle.typing_base.specs.Follows.{Gives};
ghost use Rattle.typing_base.specs.Views.{qualified_view, tagged_view};
ghost use Rattle.file_state.specs.Indexes.{IsIndexed};
ghost use Rattle.file_state.specs.Views.{file_state_view, struct_entry_view};

use crate::names::declared_twice;
use crate::numbers::number_tag;
use crate::states::FileState;
use c_syntax::Word;
use rvt_tree::{CType, Name};
use std::alloc::{AllocError, Global};
use typing_base::{Fault, NamedType, QualifiedType, Scope, Structure, Tagged, wrong_type};

/// One more tag.
pub fn with_tag(state: &mut FileState, tag: &Name, tagged: Tagged) -> Result<(), AllocError>
    requires indexed { IsIndexed state.old }
    ensures tagged { OnOk result (file_state_view state.new ≡ with_tag (record { name = tag.now; tagged = tagged_view tagged }) (file_state_view state.old)) }
    ensures indexed { OnOk result (IsIndexed state.new) }
{
    state.environment.tags.declare(tag.bytes(), tagged)?;
    Ok(())
}

/// A struct of this number is named by its tag.
pub fn tagged_with(state: &mut FileState, tag: &Option<Word>, number: u32) -> Result<(), AllocError>
    requires indexed { IsIndexed state.old }
    ensures tagged { OnOk result (file_state_view state.new ≡ tagged_with tag.now number (file_state_view state.old)) }
    ensures indexed { OnOk result (IsIndexed state.new) }
{
    match tag {
        Some(tag) => {
            with_tag(state, &tag.name, Tagged::Struct(number))?;
            Ok(())
        }
        None => Ok(()),
    }
}

/// What a tag stands for.
pub fn tagged_in(state: &FileState, tag: &[u8]) -> Option<Tagged>
    ensures { option_map tagged_view result ≡ tag_in (file_state_view state.now).tags tag.now }
{
    let scope = Scope {
        environment: &state.environment,
        evaluated: true,
    };
    scope.tagged(tag)
}

pub fn at(structs: &[Structure], number: usize) -> Option<&Structure>
    ensures { option_copied result ≡ slice_get structs.now number }
{
    structs.get(number)
}

fn is_complete(structs: &[Structure], number: u32) -> bool
    ensures { result ≡ is_complete (map struct_entry_view structs.now) number }
{
    match at(structs, number as usize) {
        Some(structure) => structure.cells.is_some(),
        None => true,
    }
}

fn may_have_body(
    alloc: Global,
    structs: &[Structure],
    tag: &Word,
    tagged: Option<Tagged>,
) -> Result<(), Fault>
    ensures { Gives (λ x. x) (may_have_body (map struct_entry_view structs.now) tag.now (option_map tagged_view tagged)) result }
{
    match tagged {
        None => Ok(()),
        Some(Tagged::Struct(number)) => {
            if !is_complete(structs, number) {
                return Ok(());
            }
            let fault = declared_twice(alloc, tag)?;
            Err(fault)
        }
        Some(Tagged::Enum) => {
            let fault = declared_twice(alloc, tag)?;
            Err(fault)
        }
    }
}

/// A tag has one body, and is that of a struct or of an enum.
pub fn begins_body(alloc: Global, state: &FileState, tag: &Option<Word>) -> Result<(), Fault>
    ensures { Gives (λ x. x) (begins_body (file_state_view state.now) tag.now) result }
{
    match tag {
        None => Ok(()),
        Some(tag) => {
            let tagged = tagged_in(state, tag.name.bytes());
            may_have_body(alloc, &state.environment.structs, tag, tagged)
        }
    }
}

/// One more struct, which is incomplete; its number.
#[tactic(auto, using(crate::proofs::Numbered::struct_numbered, crate::proofs::Numbered::structs_pushed))]
pub fn add_struct(
    alloc: Global,
    state: &mut FileState,
    tag: &[u8],
    tagged: bool,
) -> Result<u32, AllocError>
    requires indexed { IsIndexed state.old }
    ensures number { IfOk result (λ number. number ≡ length (file_state_view state.old).structs) }
    ensures added { OnOk result (file_state_view state.new ≡ with_structs ((file_state_view state.old).structs ++ incomplete tag.now tagged ∷ []) (file_state_view state.old)) }
    ensures indexed { OnOk result (IsIndexed state.new) }
{
    let number = state.environment.structs.len();
    if number > 4_294_967_295 {
        return Err(AllocError);
    }
    let number = number as u32;
    let name = Name::new(alloc, tag)?;
    number_tag(&mut state.struct_numbers, tag, tagged, number)?;
    state.environment.structs.push(Structure {
        tag: name,
        tagged,
        fields: Vec::new(alloc),
        cells: None,
        contents: Vec::new(alloc),
    })?;
    Ok(number)
}

/// The type of a struct.
pub fn of_struct(number: u32, constant: bool) -> QualifiedType
    ensures { qualified_view result ≡ of_struct number constant }
{
    QualifiedType {
        named: NamedType::Type(CType::Struct(number)),
        constant,
    }
}

fn declare_struct(
    alloc: Global,
    state: &mut FileState,
    tag: &Word,
    constant: bool,
) -> Result<QualifiedType, AllocError>
    requires indexed { IsIndexed state.old }
    ensures declared { IfOk result (λ type. record { file = file_state_view state.new; type = qualified_view type } ≡ struct_declared (file_state_view state.old) tag.now constant (struct_number (file_state_view state.old).structs tag.now.name)) }
    ensures indexed { OnOk result (IsIndexed state.new) }
{
    match state.struct_number(tag.name.bytes()) {
        Some(number) => {
            with_tag(state, &tag.name, Tagged::Struct(number))?;
            Ok(of_struct(number, constant))
        }
        None => {
            let number = add_struct(alloc, state, tag.name.bytes(), true)?;
            with_tag(state, &tag.name, Tagged::Struct(number))?;
            Ok(of_struct(number, constant))
        }
    }
}

/// A struct that is named; a tag that no struct has yet declares one.
pub fn struct_named(
    alloc: Global,
    state: &mut FileState,
    tag: &Word,
    constant: bool,
) -> Result<QualifiedType, Fault>
    requires indexed { IsIndexed state.old }
    ensures named { Gives (λ type. record { file = file_state_view state.new; type = qualified_view type }) (struct_named (file_state_view state.old) tag.now constant) result }
    ensures indexed { OnOk result (IsIndexed state.new) }
{
    match tagged_in(state, tag.name.bytes()) {
        None => {
            let ty = declare_struct(alloc, state, tag, constant)?;
            Ok(ty)
        }
        Some(Tagged::Struct(number)) => Ok(of_struct(number, constant)),
        Some(Tagged::Enum) => Err(wrong_type(tag.place)),
    }
}
