//! Laws of twins. The functions do nothing: each carries a law as its contract.

ghost use Rattle.twin_laws.specs.Laws.{TwinsRunAlike, TwinsAreFull, TwinLoopsAreFull};

use c_meaning::laws::one_end;
use rvt_tree::{Pairing, Program};

/// The functions of a closed set of twins have the same runs.
pub fn twins_run_alike(_pairing: &Pairing, _old: &Program, _other: &Program)
    ensures { TwinsRunAlike _pairing.now _old.now _other.now }
{}

/// The functions of a closed set of twins are fully equivalent.
pub fn twins_are_full(_pairing: &Pairing, _old: &Program, _other: &Program)
    ensures { TwinsAreFull _pairing.now _old.now _other.now }
{
    one_end(_other);
}

/// And so are their loops.
pub fn twin_loops_are_full(_pairing: &Pairing, _old: &Program, _other: &Program)
    ensures { TwinLoopsAreFull _pairing.now _old.now _other.now }
{
    one_end(_other);
}
