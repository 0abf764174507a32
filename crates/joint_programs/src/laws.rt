//! Laws of the definition. The functions do nothing: each carries a law as its contract.

ghost use Rattle.joint_programs.specs.Examples.{AreWorked};

/// The joint programs of some small files.
pub fn small_programs()
    ensures { AreWorked }
{}
