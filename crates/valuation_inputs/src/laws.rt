//! What valuations have to do with assignments, as laws: functions without a body.

ghost use Rattle.valuation_inputs.specs.Inputs.{AssignedLaw, GrownLaw, NumberLaw};

/// A valuation of a circuit is an assignment of its inputs.
pub fn assigned()
    ensures { AssignedLaw }
{}

/// A valuation of a circuit is one of each circuit that it grew out of.
pub fn grown()
    ensures { GrownLaw }
{}

/// The number of a word under the assignment is that of its bits under the valuation.
pub fn number()
    ensures { NumberLaw }
{}
