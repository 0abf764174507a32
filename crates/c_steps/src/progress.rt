ghost use Rattle.std.specs.Prelude.{◌≡◌};
ghost use Rattle.c_steps.specs.Steps.{onward};

use rvt_num::{Num, Trap};
use rvt_tree::{Init, Stmt, Variable};
use std::alloc::AllocError;

/// What a task that was done says of its activation.
#[derive(Clone, Copy)]
pub enum Progress<'a> {
    GoesOn,
    Traps(Trap),
    Returns(Option<Num>),
    /// A call with the values above a height is next.
    Calls(u32, usize),
    /// The test of a loop is next.
    Tests(&'a Stmt),
    /// A declaration with its initializer is next.
    Initializes(Variable, &'a Init),
}

/// The activation goes on where something could be done.
pub fn goes_on<'a>(done: Result<(), AllocError>) -> Result<Progress<'a>, AllocError>
    ensures { result ≡ onward done }
{
    done?;
    Ok(Progress::GoesOn)
}
