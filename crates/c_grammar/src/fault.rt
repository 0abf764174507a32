//! Why tokens are no file.

use c_lexer::Place;
use rvt_tree::Name;
use std::alloc::{AllocError, AllocFailed};

/// What is wrong at a token, or at the end.
#[derive(Clone, Copy, Debug, PartialEq, Eq)]
pub enum Cause {
    /// The token can't stand there.
    Unexpected,
    /// The file can't end there.
    UnexpectedEnd,
    /// The token opens a level too many.
    TooDeep,
    /// The token can't stand there, and is one of those that the profile leaves out.
    NotInProfile,
}

/// Why there are no steps.
#[derive(Debug, Drop)]
pub enum Fault {
    /// The place of the token, the cause, and the token's text. At the end it is the place there, and no text.
    Refused(Place, Cause, Name),
    /// There was no memory.
    Memory,
}

impl From<AllocError> for Fault {
    ghost use Rattle.std.specs.Prelude.{◌≡◌};
    ghost use Rattle.c_grammar.specs.declared.fault.Fault.TheVariants.{Memory};

    ghost from_gives = { λ _ fault. fault ≡ Memory };

    fn from(_: AllocError) -> Self {
        Fault::Memory
    }
}

impl<T: Drop> From<AllocFailed<T>> for Fault {
    ghost use Rattle.std.specs.Prelude.{◌≡◌};
    ghost use Rattle.c_grammar.specs.declared.fault.Fault.TheVariants.{Memory};

    ghost from_gives = { λ _ fault. fault ≡ Memory };

    fn from(_: AllocFailed<T>) -> Self {
        Fault::Memory
    }
}
