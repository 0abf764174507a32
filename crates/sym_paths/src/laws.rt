//! How a run so far goes on with each form of code, as laws: functions without a body.

ghost use Rattle.sym_paths.specs.Going.{BeginLaw, CallLaw, ChoiceLaw, FailLaw, MoreLaw, StepLaw, StopLaw};

/// With a step, whose traps may end it.
pub fn step()
    ensures { StepLaw }
{}

/// With a call and its answer.
pub fn call()
    ensures { CallLaw }
{}

/// With two branches, which are joined.
pub fn either()
    ensures { ChoiceLaw }
{}

/// With a return.
pub fn stop()
    ensures { StopLaw }
{}

/// With a trap.
pub fn fail()
    ensures { FailLaw }
{}

/// With no code at all.
pub fn begin()
    ensures { BeginLaw }
{}

/// With some pieces of code, and then one more.
pub fn more()
    ensures { MoreLaw }
{}
