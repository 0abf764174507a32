//! The base of an item, which alone declares structs and enums (C 6.7.2).

ghost use Rattle.std.specs.Prelude.{◌≡◌, Some, option_map, OnOk};
ghost use Rattle.c_syntax.specs.declared.bases.Specifier.TheVariants as S;
ghost use Rattle.c_syntax.specs.Views.{body_view, item_base_view};
ghost use Rattle.file_typing.specs.Items.{based_on, item_base, other_base};
ghost use Rattle.typing_base.specs.Follows.{Becomes, Gives};
ghost use Rattle.typing_base.specs.Views.{notes_view, qualified_view};
ghost use Rattle.file_state.specs.Indexes.{IsIndexed};
ghost use Rattle.file_state.specs.Views.{file_state_view};

use c_syntax::{Base, Body, ItemBase, Specifier, Word};
use expression_elaboration::base_type;
use file_declarations::{enum_defined, struct_defined};
use file_state::{FileState, struct_named};
use std::alloc::Global;
use typing_base::{Fault, Notes, QualifiedType};

/// A base that declares nothing.
fn other_base(alloc: Global, state: &FileState, base: &Base) -> Result<QualifiedType, Fault>
    ensures { Gives (λ type. record { file = file_state_view state.now; type = qualified_view type }) (other_base (file_state_view state.now) base.now) result }
{
    base_type(alloc, state.scope(), base)
}

/// A struct with its body.
fn struct_with_body(
    alloc: Global,
    state: &mut FileState,
    base: &Base,
    tag: &Option<Word>,
    body: &Body,
    notes: &mut Notes,
) -> Result<QualifiedType, Fault>
    requires indexed { IsIndexed state.old }
    ensures based { Becomes (λ type. record { file = file_state_view state.new; type = qualified_view type }) (based_on (file_state_view state.old) base.now (S.Struct tag.now) (Some (body_view body.now)) (notes_view notes.old)) result notes.new }
    ensures indexed { OnOk result (IsIndexed state.new) }
{
    match body {
        Body::Fields(lines) => {
            struct_defined(alloc, state, tag, base.constant, lines.as_slice(), notes)
        }
        Body::Enumerators(_) => other_base(alloc, state, base),
    }
}

/// An enum with its body.
fn enum_with_body(
    alloc: Global,
    state: &mut FileState,
    base: &Base,
    tag: &Option<Word>,
    body: &Body,
    notes: &mut Notes,
) -> Result<QualifiedType, Fault>
    requires indexed { IsIndexed state.old }
    ensures based { Becomes (λ type. record { file = file_state_view state.new; type = qualified_view type }) (based_on (file_state_view state.old) base.now (S.Enum tag.now) (Some (body_view body.now)) (notes_view notes.old)) result notes.new }
    ensures indexed { OnOk result (IsIndexed state.new) }
{
    match body {
        Body::Enumerators(ones) => {
            enum_defined(alloc, state, tag, base.constant, ones.as_slice(), notes)
        }
        Body::Fields(_) => other_base(alloc, state, base),
    }
}

/// The base by its specifier and its body.
fn based_on(
    alloc: Global,
    state: &mut FileState,
    base: &Base,
    specifier: &Specifier,
    body: &Option<Body>,
    notes: &mut Notes,
) -> Result<QualifiedType, Fault>
    requires indexed { IsIndexed state.old }
    ensures based { Becomes (λ type. record { file = file_state_view state.new; type = qualified_view type }) (based_on (file_state_view state.old) base.now specifier.now (option_map body_view body.now) (notes_view notes.old)) result notes.new }
    ensures indexed { OnOk result (IsIndexed state.new) }
{
    match specifier {
        Specifier::Struct(tag) => match body {
            Some(body) => struct_with_body(alloc, state, base, tag, body, notes),
            None => match tag {
                Some(tag) => struct_named(alloc, state, tag, base.constant),
                None => other_base(alloc, state, base),
            },
        },
        Specifier::Enum(tag) => match body {
            Some(body) => enum_with_body(alloc, state, base, tag, body, notes),
            None => other_base(alloc, state, base),
        },
        Specifier::Words(_) => other_base(alloc, state, base),
        Specifier::Named(_) => other_base(alloc, state, base),
    }
}

/// The type of an item's base, with what it declares.
pub fn item_base(
    alloc: Global,
    state: &mut FileState,
    item: &ItemBase,
    notes: &mut Notes,
) -> Result<QualifiedType, Fault>
    requires indexed { IsIndexed state.old }
    ensures based { Becomes (λ type. record { file = file_state_view state.new; type = qualified_view type }) (item_base (file_state_view state.old) (item_base_view item.now) (notes_view notes.old)) result notes.new }
    ensures indexed { OnOk result (IsIndexed state.new) }
{
    based_on(
        alloc,
        state,
        &item.base,
        &item.base.specifier,
        &item.body,
        notes,
    )
}
