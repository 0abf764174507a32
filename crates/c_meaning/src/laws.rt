//! Laws of runs. The functions do nothing: each carries a law as its contract.

ghost use Rattle.c_meaning.specs.Laws.{MoreKeepsEnd, StepsExact, OneEnd, CallUnfolds, LoopUnfolds, TestsSpend, BodiesSpend, RoundsSpend, TableSees, TableSeesTurn, TwinsRunAlike, TwinsAreFull, TwinLoopsAreFull, PlainTwinsAreFull};

use rvt_tree::{Pairing, Program};

/// More steps and more nested calls keep an end, and how many steps it took.
pub fn more_keeps_end(_program: &Program)
    ensures { MoreKeepsEnd _program.now }
{}

/// An end is reached with exactly the steps that it is said to take, and there is none with fewer.
pub fn steps_exact(_program: &Program)
    ensures { StepsExact _program.now }
{}

/// Whatever the steps and the nested calls, two ends are one.
pub fn one_end(_program: &Program)
    ensures { OneEnd _program.now }
{}

/// A call that has its step, and is not too deep, does what the body does with the steps that are left.
pub fn call_unfolds(_program: &Program)
    ensures { CallUnfolds _program.now }
{}

/// A loop does one turn, and then itself.
pub fn loop_unfolds(_program: &Program)
    ensures { LoopUnfolds _program.now }
{}

/// The tests, the bodies and the rounds of loop statements leave no more steps than there were.
pub fn loop_parts_spend(_program: &Program)
    ensures tests { TestsSpend _program.now }
    ensures bodies { BodiesSpend _program.now }
    ensures rounds { RoundsSpend _program.now }
{}

/// A body ends under a table that gives the ends of what it met in a run as it ended in the run.
pub fn table_sees(_program: &Program)
    ensures { TableSees _program.now }
{}

/// One turn of a loop ends under a table that gives the ends of what it met in a run as it ended in the run.
pub fn table_sees_turn(_program: &Program)
    ensures { TableSeesTurn _program.now }
{}

/// The functions of a closed set of twins have the same runs.
pub fn twins_run_alike(_pairing: &Pairing, _old: &Program, _other: &Program)
    ensures { TwinsRunAlike _pairing.now _old.now _other.now }
{}

/// The functions of a closed set of twins are fully equivalent.
pub fn twins_are_full(_pairing: &Pairing, _old: &Program, _other: &Program)
    ensures { TwinsAreFull _pairing.now _old.now _other.now }
{}

/// And so are their loops.
pub fn twin_loops_are_full(_pairing: &Pairing, _old: &Program, _other: &Program)
    ensures { TwinLoopsAreFull _pairing.now _old.now _other.now }
{}

/// The functions of a closed set of twins are fully equivalent, in programs without objects.
pub fn plain_twins_are_full(_pairing: &Pairing, _old: &Program, _other: &Program)
    ensures { PlainTwinsAreFull _pairing.now _old.now _other.now }
{}
