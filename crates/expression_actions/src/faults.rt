//! Why an action fails.

ghost use Rattle.std.specs.Prelude.{◌≡◌, [], ◌∷◌, IfOk, OnErr};

use value_stack::Stack;

/// A value that it needs is not there.
#[derive(Clone, Copy, Debug, PartialEq, Eq)]
pub struct Missing;

/// A value that it needs is not there, or there was no memory.
#[derive(Clone, Copy, Debug, PartialEq, Eq)]
pub enum Fault {
    Missing,
    Memory,
}

impl From<Missing> for Fault {
    ghost use Rattle.std.specs.Prelude.{◌≡◌};
    ghost use Rattle.expression_actions.specs.declared.faults.Fault.TheVariants as F;

    ghost from_gives = { λ _ e. e ≡ F.Missing };

    fn from(_: Missing) -> Self {
        Fault::Missing
    }
}

impl From<std::alloc::AllocError> for Fault {
    ghost use Rattle.std.specs.Prelude.{◌≡◌};
    ghost use Rattle.expression_actions.specs.declared.faults.Fault.TheVariants as F;

    ghost from_gives = { λ _ e. e ≡ F.Memory };

    fn from(_: std::alloc::AllocError) -> Self {
        Fault::Memory
    }
}

impl<T: Drop> From<std::alloc::AllocFailed<T>> for Fault {
    ghost use Rattle.std.specs.Prelude.{◌≡◌};
    ghost use Rattle.expression_actions.specs.declared.faults.Fault.TheVariants as F;

    ghost from_gives = { λ _ e. e ≡ F.Memory };

    fn from(_: std::alloc::AllocFailed<T>) -> Self {
        Fault::Memory
    }
}

/// Takes the top of a stack, if there is one.
pub fn take<T>(stack: &mut Stack<T>) -> Result<T, Missing>
    ensures top { IfOk result (λ top. stack.old ≡ top ∷ stack.new) }
    ensures missing { OnErr result (stack.old ≡ []) }
{
    match stack.pop() {
        Some(top) => Ok(top),
        None => Err(Missing),
    }
}
