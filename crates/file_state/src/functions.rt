//! Functions and their declarations (C 6.7.6.3, 6.9.1).

ghost use Rattle.std.specs.Prelude.{◌≡◌, ◌++◌, ◌∷◌, [], length, option_map, IfOk, OnOk};
ghost use Rattle.expression_typing.specs.Entities.{in_scope};
ghost use Rattle.file_typing.specs.FileScope.{undeclared, with_functions};
ghost use Rattle.file_typing.specs.FunctionDeclarators.{unless_other, unless_too_many, may_name_function, unless_unlike, with_function, number_of_function, named_function};
ghost use Rattle.typing_base.specs.Follows.{Gives};
ghost use Rattle.typing_base.specs.Views.{entity_view};
ghost use Rattle.file_state.specs.Indexes.{IsIndexed};
ghost use Rattle.file_state.specs.Views.{file_state_view, interface_view};

use crate::comparisons::{same_results, same_types};
use crate::copies::copied_types;
use crate::entries::{FunctionEntry, Interface};
use crate::names::{declared_twice, with_name};
use crate::numbers::number_first;
use crate::states::FileState;
use c_syntax::Word;
use rvt_tree::Name;
use std::alloc::{AllocError, Global};
use typing_base::{Cause, Entity, Fault, Scope, broken, wrong_type};

/// What a name stands for at file scope.
pub fn entity_in<'t>(state: &'t FileState, name: &[u8]) -> Option<&'t Entity>
    ensures { option_map (λ entity. entity_view entity.now) result ≡ in_scope (file_state_view state.now).names name.now }
{
    let scope = Scope {
        environment: &state.environment,
        evaluated: true,
    };
    scope.entity(name)
}

fn unless_other(alloc: Global, word: &Word, entity: Option<&Entity>) -> Result<(), Fault>
    ensures { Gives (λ x. x) (unless_other word.now (option_map (λ entity. entity_view entity.now) entity.entry)) result }
{
    match entity {
        None => return Ok(()),
        Some(Entity::Function(_, _, _)) => return Ok(()),
        Some(Entity::Local(_, _, _)) => {}
        Some(Entity::Object(_, _, _)) => {}
        Some(Entity::Constant(_)) => {}
        Some(Entity::Null) => {}
        Some(Entity::Typedef(_)) => {}
    }
    let fault = declared_twice(alloc, word)?;
    Err(fault)
}

fn unless_too_many(state: &FileState, word: &Word, entity: Option<&Entity>) -> Result<(), Fault>
    requires indexed { IsIndexed state.now }
    ensures { Gives (λ x. x) (unless_too_many (file_state_view state.now) word.now (option_map (λ entity. entity_view entity.now) entity.entry)) result }
{
    match entity {
        None => {
            if state.declared >= 1000 {
                return Err(broken(Cause::BeyondLimit, word.place));
            }
            Ok(())
        }
        Some(_) => Ok(()),
    }
}

/// A name at file scope is that of a function, or is not declared yet and one of the first 1,000 functions.
pub fn may_name_function(alloc: Global, state: &FileState, word: &Word) -> Result<(), Fault>
    requires indexed { IsIndexed state.now }
    ensures { Gives (λ x. x) (may_name_function (file_state_view state.now) word.now) result }
{
    unless_other(alloc, word, entity_in(state, word.name.bytes()))?;
    unless_too_many(state, word, entity_in(state, word.name.bytes()))
}

/// All declarations of a function have one type.
pub fn unless_unlike(
    word: &Word,
    interface: &Interface,
    entity: Option<&Entity>,
) -> Result<(), Fault>
    ensures { Gives (λ x. x) (unless_unlike word.now (interface_view interface.now) (option_map (λ entity. entity_view entity.now) entity.entry)) result }
{
    match entity {
        Some(Entity::Function(_, params, found)) => {
            if same_types(params, &interface.params) && same_results(*found, interface.result) {
                return Ok(());
            }
            Err(wrong_type(word.place))
        }
        Some(Entity::Local(_, _, _)) => Ok(()),
        Some(Entity::Object(_, _, _)) => Ok(()),
        Some(Entity::Constant(_)) => Ok(()),
        Some(Entity::Null) => Ok(()),
        Some(Entity::Typedef(_)) => Ok(()),
        None => Ok(()),
    }
}

/// One more function, which is not declared; its number.
#[tactic(auto, using(crate::proofs::Numbered::functions_pushed, crate::proofs::Numbered::function_numbered, crate::proofs::Numbered::still_declared))]
pub fn add_function(alloc: Global, state: &mut FileState, name: &[u8]) -> Result<u32, AllocError>
    requires indexed { IsIndexed state.old }
    ensures number { IfOk result (λ number. number ≡ length (file_state_view state.old).functions) }
    ensures added { OnOk result (file_state_view state.new ≡ with_functions ((file_state_view state.old).functions ++ undeclared name.now ∷ []) (file_state_view state.old)) }
    ensures indexed { OnOk result (IsIndexed state.new) }
{
    let number = state.functions.len();
    if number > 4_294_967_295 {
        return Err(AllocError);
    }
    let number = number as u32;
    let copy = Name::new(alloc, name)?;
    number_first(&mut state.function_numbers, name, number)?;
    state.functions.push(FunctionEntry {
        name: copy,
        interface: None,
        body: None,
    })?;
    Ok(number)
}

/// A function of this name gets its number, if it has none yet.
pub fn with_function(alloc: Global, state: &mut FileState, word: &Word) -> Result<u32, AllocError>
    requires indexed { IsIndexed state.old }
    ensures number { IfOk result (λ number. number ≡ number_of_function (file_state_view state.new) word.now) }
    ensures added { OnOk result (file_state_view state.new ≡ with_function word.now (file_state_view state.old)) }
    ensures indexed { OnOk result (IsIndexed state.new) }
{
    match state.function_number(word.name.bytes()) {
        Some(number) => return Ok(number),
        None => {}
    }
    add_function(alloc, state, word.name.bytes())?;
    match state.function_number(word.name.bytes()) {
        Some(number) => Ok(number),
        None => Err(AllocError),
    }
}

/// A name that is not declared yet stands for the function.
pub fn named_function(
    alloc: Global,
    state: &mut FileState,
    word: &Word,
    number: u32,
    interface: &Interface,
) -> Result<(), AllocError>
    requires indexed { IsIndexed state.old }
    ensures named { OnOk result (file_state_view state.new ≡ named_function word.now number (interface_view interface.now) (in_scope (file_state_view state.old).names word.now.name) (file_state_view state.old)) }
    ensures indexed { OnOk result (IsIndexed state.new) }
{
    if entity_in(state, word.name.bytes()).is_some() {
        return Ok(());
    }
    let params = copied_types(alloc, &interface.params)?;
    let entity = Entity::Function(number, params, interface.result);
    with_name(state, &word.name, entity)?;
    Ok(())
}
