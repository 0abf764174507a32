//! The outline of a file: the structs whose bodies stand in it, and the functions that it defines.

ghost use Rattle.std.specs.Prelude.{◌≡◌, ◌++◌, map, option_map, IfOk, OnOk};
ghost use Rattle.c_syntax.specs.Views as s;
ghost use Rattle.c_syntax.specs.Views.{declarator_view, item_base_view, item_view};
ghost use Rattle.file_typing.specs.FileScope.{body_of, definition_of, definitions, entry_of_tag, first_name, specifier_of, struct_bodies, typedef_name, with_functions, with_structs};
ghost use Rattle.file_typing.specs.Items.{beginning};
ghost use Rattle.std.specs.Prelude.{◌∷◌, []};
ghost use Rattle.typing_base.specs.Views.{binding_view};
ghost use Rattle.file_state.specs.Indexes.{IsIndexed};
ghost use Rattle.file_state.specs.Views.{file_state_view};

use crate::built_in::built_in_names;
use crate::functions::add_function;
use crate::states::FileState;
use crate::tags::add_struct;
use c_syntax::{Body, Declarator, Item, ItemBase, Specifier, Word};
use name_scopes::Scopes;
use std::alloc::{AllocError, Global};
use typing_base::{Entity, Environment};

fn specifier_of(item: &Item) -> &ItemBase
    ensures { item_base_view result.now ≡ specifier_of (item_view item.now) }
{
    match item {
        Item::Typedef(base, _) => base,
        Item::Base(base) => base,
        Item::Objects(base, _) => base,
        Item::Prototype(base, _, _) => base,
        Item::Function(base, _, _, _) => base,
    }
}

fn first_name(declarators: &[Declarator]) -> &[u8]
    ensures { result.now ≡ first_name (map declarator_view declarators.now) }
{
    match declarators {
        [first, ..] => first.word.name.bytes(),
        [] => &[],
    }
}

fn typedef_name(item: &Item) -> &[u8]
    ensures { result.now ≡ typedef_name (item_view item.now) }
{
    match item {
        Item::Typedef(_, declarators) => first_name(declarators.as_slice()),
        Item::Base(_) => &[],
        Item::Objects(_, _) => &[],
        Item::Prototype(_, _, _) => &[],
        Item::Function(_, _, _, _) => &[],
    }
}

fn add_entry_of_tag(
    alloc: Global,
    state: &mut FileState,
    tag: &Option<Word>,
    typedef: &[u8],
) -> Result<(), AllocError>
    requires indexed { IsIndexed state.old }
    ensures added { OnOk result (file_state_view state.new ≡ with_structs ((file_state_view state.old).structs ++ entry_of_tag tag.now typedef.now ∷ []) (file_state_view state.old)) }
    ensures indexed { OnOk result (IsIndexed state.new) }
{
    match tag {
        Some(tag) => {
            add_struct(alloc, state, tag.name.bytes(), true)?;
            Ok(())
        }
        None => {
            add_struct(alloc, state, typedef, false)?;
            Ok(())
        }
    }
}

#[tactic(auto, using(crate::proofs::OutlineSteps::nothing_more))]
fn add_body(
    alloc: Global,
    state: &mut FileState,
    base: &ItemBase,
    typedef: &[u8],
) -> Result<(), AllocError>
    requires indexed { IsIndexed state.old }
    ensures added { OnOk result (file_state_view state.new ≡ with_structs ((file_state_view state.old).structs ++ body_of (item_base_view base.now).base.specifier (item_base_view base.now).members typedef.now) (file_state_view state.old)) }
    ensures indexed { OnOk result (IsIndexed state.new) }
{
    match &base.body {
        Some(Body::Fields(_)) => match &base.base.specifier {
            Specifier::Struct(tag) => add_entry_of_tag(alloc, state, tag, typedef),
            Specifier::Words(_) => Ok(()),
            Specifier::Named(_) => Ok(()),
            Specifier::Enum(_) => Ok(()),
        },
        Some(Body::Enumerators(_)) => Ok(()),
        None => Ok(()),
    }
}

fn add_bodies(alloc: Global, state: &mut FileState, items: &[Item]) -> Result<(), AllocError>
    requires indexed { IsIndexed state.old }
    ensures added { OnOk result (file_state_view state.new ≡ with_structs ((file_state_view state.old).structs ++ struct_bodies (map item_view items.now)) (file_state_view state.old)) }
    ensures indexed { OnOk result (IsIndexed state.new) }
{
    let mut rest = items;
    'items: while let [item, others @ ..] = rest {
        add_body(alloc, state, specifier_of(item), typedef_name(item))?;
        rest = others;
    }
    Ok(())
}

#[tactic(auto, using(crate::proofs::OutlineSteps::nothing_more))]
fn add_definition(alloc: Global, state: &mut FileState, item: &Item) -> Result<(), AllocError>
    requires indexed { IsIndexed state.old }
    ensures added { OnOk result (file_state_view state.new ≡ with_functions ((file_state_view state.old).functions ++ definition_of (item_view item.now)) (file_state_view state.old)) }
    ensures indexed { OnOk result (IsIndexed state.new) }
{
    match item {
        Item::Function(_, word, _, _) => {
            add_function(alloc, state, word.name.bytes())?;
            Ok(())
        }
        Item::Typedef(_, _) => Ok(()),
        Item::Base(_) => Ok(()),
        Item::Objects(_, _) => Ok(()),
        Item::Prototype(_, _, _) => Ok(()),
    }
}

fn add_definitions(alloc: Global, state: &mut FileState, items: &[Item]) -> Result<(), AllocError>
    requires indexed { IsIndexed state.old }
    ensures added { OnOk result (file_state_view state.new ≡ with_functions ((file_state_view state.old).functions ++ definitions (map item_view items.now)) (file_state_view state.old)) }
    ensures indexed { OnOk result (IsIndexed state.new) }
{
    let mut rest = items;
    'items: while let [item, others @ ..] = rest {
        add_definition(alloc, state, item)?;
        rest = others;
    }
    Ok(())
}

fn nothing_declared(alloc: Global, names: Scopes<Entity>) -> FileState
    ensures state { file_state_view result ≡ record { names = map binding_view names; tags = []; structs = []; bodies = 0; functions = []; objects = [] } }
    ensures indexed { IsIndexed result }
{
    FileState {
        environment: Environment {
            names,
            tags: Scopes::new(alloc),
            structs: Vec::new(alloc),
        },
        bodies: 0,
        functions: Vec::new(alloc),
        objects: Vec::new(alloc),
        struct_numbers: Scopes::new(alloc),
        function_numbers: Scopes::new(alloc),
        declared: 0,
    }
}

/// Before the first item: what is built in, and the numbers of what the file defines.
pub fn beginning(alloc: Global, items: &[Item]) -> Result<FileState, AllocError>
    ensures beginning { IfOk result (λ state. file_state_view state ≡ beginning (map item_view items.now)) }
    ensures indexed { IfOk result IsIndexed }
{
    let names = built_in_names(alloc)?;
    let mut state = nothing_declared(alloc, names);
    add_bodies(alloc, &mut state, items)?;
    add_definitions(alloc, &mut state, items)?;
    Ok(state)
}
