//! The items of a file, in order (C 6.9).

ghost use Rattle.std.specs.Prelude.{◌≡◌, map, IfOk, OnOk};
ghost use Rattle.c_syntax.specs.Views.{item_view};
ghost use Rattle.file_typing.specs.Items.{all_items, typed_item, typed_items};
ghost use Rattle.typing_base.specs.Follows.{Becomes};
ghost use Rattle.typing_base.specs.Views.{notes_view};
ghost use Rattle.file_state.specs.Indexes.{IsIndexed};
ghost use Rattle.file_state.specs.Views.{file_state_view};

use crate::bases::item_base;
use crate::definitions::{typed_definition, typed_prototype};
use c_syntax::Item;
use file_declarations::{typed_objects, typed_typedefs};
use file_state::{FileState, beginning};
use std::alloc::Global;
use typing_base::{Fault, Notes};

/// The base, and then what is declared with it, from left to right.
pub fn typed_item(
    alloc: Global,
    state: &mut FileState,
    item: &Item,
    notes: &mut Notes,
) -> Result<(), Fault>
    requires indexed { IsIndexed state.old }
    ensures typed { Becomes (λ _. file_state_view state.new) (typed_item (file_state_view state.old) (item_view item.now) (notes_view notes.old)) result notes.new }
    ensures indexed { OnOk result (IsIndexed state.new) }
{
    match item {
        Item::Typedef(base, declarators) => {
            let ty = item_base(alloc, state, base, notes)?;
            typed_typedefs(alloc, state, &ty, declarators.as_slice(), notes)
        }
        Item::Base(base) => {
            item_base(alloc, state, base, notes)?;
            Ok(())
        }
        Item::Objects(base, inits) => {
            let ty = item_base(alloc, state, base, notes)?;
            typed_objects(alloc, state, &ty, inits.as_slice(), notes)
        }
        Item::Prototype(base, word, params) => {
            let ty = item_base(alloc, state, base, notes)?;
            typed_prototype(alloc, state, &ty, word, params, notes)
        }
        Item::Function(base, word, params, body) => {
            let ty = item_base(alloc, state, base, notes)?;
            typed_definition(alloc, state, &ty, word, params, body, notes)
        }
    }
}

/// The items from the first one on.
pub fn typed_items(
    alloc: Global,
    state: &mut FileState,
    items: &[Item],
    notes: &mut Notes,
) -> Result<(), Fault>
    requires indexed { IsIndexed state.old }
    ensures typed { Becomes (λ _. file_state_view state.new) (typed_items (file_state_view state.old) (map item_view items.now) (notes_view notes.old)) result notes.new }
    ensures indexed { OnOk result (IsIndexed state.new) }
{
    let mut rest = items;
    'items: while let [item, others @ ..] = rest {
        typed_item(alloc, state, item, notes)?;
        rest = others;
    }
    Ok(())
}

/// All items of a file: what it has declared at its end, before what is sought there.
pub fn all_items(alloc: Global, items: &[Item], notes: &mut Notes) -> Result<FileState, Fault>
    ensures typed { Becomes file_state_view (all_items (map item_view items.now) (notes_view notes.old)) result notes.new }
    ensures indexed { IfOk result IsIndexed }
{
    let mut state = beginning(alloc, items)?;
    typed_items(alloc, &mut state, items, notes)?;
    Ok(state)
}
