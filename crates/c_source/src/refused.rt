//! Why bytes are no C file.

use c_lexer::Place;
use rvt_tree::Name;
use std::alloc::{AllocError, AllocFailed};

/// What is wrong, and where.
#[derive(Debug, Drop)]
pub struct Refusal {
    pub place: Place,
    /// 1 to 7 for what is no token, 11 for a token that can't stand there, 12 for one that opens a level too many, 13 for
    /// one that the profile leaves out.
    pub cause: u16,
    /// The text of the token, from 11 on; none at the end of the file.
    pub word: Name,
}

/// The file is refused, or there was no memory.
#[derive(Debug, Drop)]
pub enum Refused {
    Source(Refusal),
    Memory,
}

impl From<AllocError> for Refused {
    ghost use Rattle.std.specs.Prelude.{◌≡◌};
    ghost use Rattle.c_source.specs.declared.refused.Refused.TheVariants.{Memory};

    ghost from_gives = { λ _ refused. refused ≡ Memory };

    fn from(_: AllocError) -> Self {
        Refused::Memory
    }
}

impl<T: Drop> From<AllocFailed<T>> for Refused {
    ghost use Rattle.std.specs.Prelude.{◌≡◌};
    ghost use Rattle.c_source.specs.declared.refused.Refused.TheVariants.{Memory};

    ghost from_gives = { λ _ refused. refused ≡ Memory };

    fn from(_: AllocFailed<T>) -> Self {
        Refused::Memory
    }
}
