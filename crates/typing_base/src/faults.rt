//! Why a file has no typed program.

ghost use Rattle.std.specs.Prelude.{◌≡◌, IfOk};
ghost use Rattle.typing_base.specs.declared.faults.Cause.TheVariants as C;
ghost use Rattle.typing_base.specs.declared.faults.Fault.TheVariants.{Broken};

use rvt_tree::{Name, Place};
use std::alloc::{AllocError, AllocFailed, Global};

/// Which rule is broken.
#[derive(Debug, Drop)]
pub enum Cause {
    IncompleteType,
    TooManyCells,
    UnknownName(Name),
    /// Of two labels of a `switch`, the word of the second.
    DeclaredTwice(Name),
    WrongType,
    WrongNumberOfArguments,
    WriteToConstant,
    AddressOnCallCycle,
    NoBody(Name),
    BeyondLimit,
    ConstantWanted,
    NotInProfile,
}

/// A rule that is broken, and where.
#[derive(Debug, Drop)]
pub struct Break {
    pub cause: Cause,
    pub place: Place,
}

#[derive(Debug, Drop)]
pub enum Fault {
    Broken(Break),
    Memory,
}

impl From<AllocError> for Fault {
    ghost use Rattle.std.specs.Prelude.{◌≡◌};
    ghost use Rattle.typing_base.specs.declared.faults.Fault.TheVariants as F;

    ghost from_gives = { λ _ e. e ≡ F.Memory };

    fn from(_: AllocError) -> Self {
        Fault::Memory
    }
}

impl<T: Drop> From<AllocFailed<T>> for Fault {
    ghost use Rattle.std.specs.Prelude.{◌≡◌};
    ghost use Rattle.typing_base.specs.declared.faults.Fault.TheVariants as F;

    ghost from_gives = { λ _ e. e ≡ F.Memory };

    fn from(_: AllocFailed<T>) -> Self {
        Fault::Memory
    }
}

/// A rule is broken at a place.
pub fn broken(cause: Cause, place: Place) -> Fault
    ensures { result ≡ Broken (record { cause = cause; place = place }) }
{
    Fault::Broken(Break { cause, place })
}

pub fn wrong_type(place: Place) -> Fault
    ensures { result ≡ Broken (record { cause = C.WrongType; place = place }) }
{
    broken(Cause::WrongType, place)
}

pub fn not_in_profile(place: Place) -> Fault
    ensures { result ≡ Broken (record { cause = C.NotInProfile; place = place }) }
{
    broken(Cause::NotInProfile, place)
}

/// The name once more.
pub fn copied_name(alloc: Global, name: &Name) -> Result<Name, AllocError>
    ensures { IfOk result (λ copy. copy ≡ name.now) }
{
    Name::new(alloc, name.bytes())
}
