//! Laws of what is kept. The functions do nothing: each carries a law as its contract.

ghost use Rattle.c_places.specs.Kept.{KeptIsClosed};

use rvt_tree::Program;

/// The cells that were kept at the entry of a function are put back as its return does it.
pub fn kept_is_closed(_program: &Program)
    ensures { KeptIsClosed _program.now }
{}
