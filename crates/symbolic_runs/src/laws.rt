//! How symbolic runs are put together, and what they are worth, as laws: functions without a body.

ghost use Rattle.symbolic_runs.specs.Ending.{EndLaw, UnitRule};
ghost use Rattle.symbolic_runs.specs.Rules.{BranchesRule, CallRule, ChoiceRule, FailRule, NothingRule, SequenceRule, StepRule, StopRule};

/// Nothing at all leaves everything as it was.
pub fn nothing()
    ensures { NothingRule }
{}

/// One stretch of code after another.
pub fn sequence()
    ensures { SequenceRule }
{}

/// A step: the first trap whose literal is true ends the run.
pub fn step()
    ensures { StepRule }
{}

/// A call, and its answer.
pub fn call()
    ensures { CallRule }
{}

/// The beginnings of two branches are kept.
pub fn branches()
    ensures { BranchesRule }
{}

/// Two branches, which are joined.
pub fn either()
    ensures { ChoiceRule }
{}

/// A return.
pub fn stop()
    ensures { StopRule }
{}

/// A trap.
pub fn fail()
    ensures { FailRule }
{}

/// The end that exits make together is that of the exit which is taken.
pub fn ending()
    ensures { EndLaw }
{}

/// A unit, from its entry to its return: its end and its calls are those of the unit's run.
pub fn unit()
    ensures { UnitRule }
{}
