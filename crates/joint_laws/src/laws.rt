//! Laws of the definitions. The functions do nothing: each carries a law as its contract.

ghost use Rattle.joint_laws.specs.JointStand.{JointProgramsStand};

/// The joint programs of two files stand over one table.
pub fn joint_programs_stand()
    ensures { JointProgramsStand }
{}
