//! How a broken rule is told.

ghost use Rattle.std.specs.Prelude.{◌≡◌, IfOk};
ghost use Rattle.c_elab.specs.Typed.{break_view};
ghost use Rattle.expression_typing.specs.Outcomes.{number_of, word_of};
ghost use Rattle.file_typing.specs.Elaboration.{IsRefusalOf};
ghost use Rattle.typing_base.specs.Views.{cause_view};

use rvt_tree::{Name, Refusal};
use std::alloc::{AllocError, Global};
use typing_base::{Break, Cause};

fn number_of(cause: &Cause) -> u16
    ensures { result ≡ number_of (cause_view cause.now) }
{
    match cause {
        Cause::IncompleteType => 21,
        Cause::TooManyCells => 22,
        Cause::UnknownName(_) => 31,
        Cause::DeclaredTwice(_) => 32,
        Cause::WrongType => 33,
        Cause::WrongNumberOfArguments => 34,
        Cause::WriteToConstant => 35,
        Cause::AddressOnCallCycle => 36,
        Cause::NoBody(_) => 37,
        Cause::BeyondLimit => 38,
        Cause::ConstantWanted => 39,
        Cause::NotInProfile => 40,
    }
}

fn word_of(alloc: Global, cause: Cause) -> Result<Name, AllocError>
    ensures { IfOk result (λ word. word ≡ word_of (cause_view cause)) }
{
    match cause {
        Cause::UnknownName(name) => Ok(name),
        Cause::DeclaredTwice(name) => Ok(name),
        Cause::NoBody(name) => Ok(name),
        Cause::IncompleteType => Name::new(alloc, &[]),
        Cause::TooManyCells => Name::new(alloc, &[]),
        Cause::WrongType => Name::new(alloc, &[]),
        Cause::WrongNumberOfArguments => Name::new(alloc, &[]),
        Cause::WriteToConstant => Name::new(alloc, &[]),
        Cause::AddressOnCallCycle => Name::new(alloc, &[]),
        Cause::BeyondLimit => Name::new(alloc, &[]),
        Cause::ConstantWanted => Name::new(alloc, &[]),
        Cause::NotInProfile => Name::new(alloc, &[]),
    }
}

/// The refusal that names the rule, its place and its word.
pub fn refusal_of(alloc: Global, broken: Break) -> Result<Refusal, AllocError>
    ensures { IfOk result (IsRefusalOf (break_view broken)) }
{
    let place = broken.place;
    let cause = number_of(&broken.cause);
    let word = word_of(alloc, broken.cause)?;
    Ok(Refusal { place, cause, word })
}
