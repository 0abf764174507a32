ghost use Rattle.std.specs.Prelude.{◌≡◌};
ghost use Rattle.c_layout.specs.declared.faults.TypeFault.TheVariants.{Memory};
ghost use Rattle.c_layout.specs.Causes.{cause_of};

use std::alloc::{AllocError, AllocFailed};

/// Why a type has no layout.
#[derive(Clone, Copy, Debug, PartialEq, Eq)]
pub enum TypeFault {
    /// A struct in it isn't complete, contains itself, or doesn't exist.
    Incomplete,
    /// It has more than 4,096 cells.
    TooManyCells,
    Memory,
}

impl TypeFault {
    /// The number of the cause that the program prints, and `None` for want of memory.
    pub fn cause(self) -> Option<u16>
        ensures { result ≡ cause_of self }
    {
        match self {
            TypeFault::Incomplete => Some(21),
            TypeFault::TooManyCells => Some(22),
            TypeFault::Memory => None,
        }
    }
}

impl From<AllocError> for TypeFault {
    ghost from_gives = { λ _ e. e ≡ Memory };

    fn from(_: AllocError) -> Self {
        TypeFault::Memory
    }
}

impl<T: Drop> From<AllocFailed<T>> for TypeFault {
    ghost from_gives = { λ _ e. e ≡ Memory };

    fn from(_: AllocFailed<T>) -> Self {
        TypeFault::Memory
    }
}
