//! What applications and their congruence give, as laws: functions without a body.

ghost use Rattle.uf_abstraction.specs.Applying.{ApplyLaw, KeptLaw};
ghost use Rattle.uf_abstraction.specs.Congruence.{FunctionsLaw, TableLaw};
ghost use Rattle.uf_abstraction.specs.Testing.{CongruenceLaw};

/// What an application adds.
pub fn applying()
    ensures { ApplyLaw }
{}

/// Applications stay laid out, and their literals in the circuit.
pub fn kept()
    ensures { KeptLaw }
{}

/// Congruent applications are functions.
pub fn congruence()
    ensures { FunctionsLaw }
{}

/// Where the applications are functions, the table that they make answers each call as they do.
pub fn table()
    ensures { TableLaw }
{}

/// The literal of the test is true exactly where the applications are congruent.
pub fn congruence_test()
    ensures { CongruenceLaw }
{}
