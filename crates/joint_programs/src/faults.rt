ghost use Rattle.std.specs.Prelude.{◌≡◌};
ghost use Rattle.joint_programs.specs.Faults.{cause_of};

use std::alloc::{AllocError, AllocFailed};

/// Why there are no joint programs.
#[derive(Clone, Copy, Debug, PartialEq, Eq)]
pub enum JointFault {
    /// The joint table has more than 65,536 cells.
    TooLarge,
    Memory,
}

impl JointFault {
    /// The number of the cause that the program prints, and `None` for want of memory.
    pub fn cause(self) -> Option<u16>
        ensures { result ≡ cause_of self }
    {
        match self {
            JointFault::TooLarge => Some(45),
            JointFault::Memory => None,
        }
    }
}

impl From<AllocError> for JointFault {
    ghost use Rattle.std.specs.Prelude.{◌≡◌};
    ghost use Rattle.joint_programs.specs.declared.faults.JointFault.TheVariants.{Memory};

    ghost from_gives = { λ _ fault. fault ≡ Memory };

    fn from(_: AllocError) -> Self {
        JointFault::Memory
    }
}

impl<T: Drop> From<AllocFailed<T>> for JointFault {
    ghost use Rattle.std.specs.Prelude.{◌≡◌};
    ghost use Rattle.joint_programs.specs.declared.faults.JointFault.TheVariants.{Memory};

    ghost from_gives = { λ _ fault. fault ≡ Memory };

    fn from(_: AllocFailed<T>) -> Self {
        JointFault::Memory
    }
}
