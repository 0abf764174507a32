//! Names at file scope and in blocks (C 6.2.1, 6.7).

ghost use Rattle.std.specs.Prelude.{◌≡◌, ◌-◌, take, length, map, IfOk, OnOk};
ghost use Rattle.file_typing.specs.Blocks.{unless_declared};
ghost use Rattle.file_typing.specs.FileScope.{with_name};
ghost use Rattle.typing_base.specs.declared.faults.Cause.TheVariants as C;
ghost use Rattle.typing_base.specs.declared.faults.Fault.TheVariants.{Broken};
ghost use Rattle.typing_base.specs.Follows.{Gives};
ghost use Rattle.typing_base.specs.Views.{binding_view, entity_view};
ghost use Rattle.file_state.specs.Indexes.{IsIndexed};
ghost use Rattle.file_state.specs.Views.{file_state_view};

use crate::states::FileState;
use c_syntax::Word;
use name_scopes::Scopes;
use rvt_tree::Name;
use std::alloc::{AllocError, Global};
use typing_base::{Cause, Entity, Fault, broken, copied_name};

/// The word is declared once more.
pub fn declared_twice(alloc: Global, word: &Word) -> Result<Fault, AllocError>
    ensures { IfOk result (λ fault. fault ≡ Broken (record { cause = C.DeclaredTwice word.now.name; place = word.now.place })) }
{
    let name = copied_name(alloc, &word.name)?;
    Ok(broken(Cause::DeclaredTwice(name), word.place))
}

/// A name is declared once in its scope, which begins at a height.
#[tactic(auto, using(crate::proofs::ScopeNames::any_of))]
pub fn unless_declared(
    alloc: Global,
    names: &Scopes<Entity>,
    height: usize,
    word: &Word,
) -> Result<(), Fault>
    ensures { Gives (λ x. x) (unless_declared (map binding_view (take (length names.now - height) names.now)) word.now.name word.now.place) result }
{
    if names.is_declared_since(height, word.name.bytes()) {
        let fault = declared_twice(alloc, word)?;
        return Err(fault);
    }
    Ok(())
}

/// A name is declared once at file scope.
#[tactic(auto, using(crate::proofs::ScopeNames::all_of))]
pub fn unless_declared_in_file(alloc: Global, state: &FileState, word: &Word) -> Result<(), Fault>
    ensures { Gives (λ x. x) (unless_declared (file_state_view state.now).names word.now.name word.now.place) result }
{
    unless_declared(alloc, &state.environment.names, 0, word)
}

/// One more name.
pub fn with_name(state: &mut FileState, name: &Name, entity: Entity) -> Result<(), AllocError>
    requires indexed { IsIndexed state.old }
    ensures named { OnOk result (file_state_view state.new ≡ with_name (record { name = name.now; entity = entity_view entity }) (file_state_view state.old)) }
    ensures indexed { OnOk result (IsIndexed state.new) }
{
    state.environment.names.declare(name.bytes(), entity)?;
    Ok(())
}
