//! Laws of the definition. The functions do nothing: each carries a law as its contract.

ghost use Rattle.joint_objects.specs.Examples.{AreWorked};

/// The tables of some small files.
pub fn small_tables()
    ensures { AreWorked }
{}
