//! What values made of literals are worth, as laws: functions without a body.

ghost use Rattle.sym_values.specs.Gates.{ChoiceLaw, EqualityLaw};
ghost use Rattle.sym_values.specs.Valuations.{AssignmentLaw, ConjunctionLaw};
ghost use Rattle.sym_values.specs.Values.{BitsLaw};

/// Where the literals have the values of a circuit, a conjunction has the value of one.
pub fn conjunction()
    ensures { ConjunctionLaw }
{}

/// Under an assignment the literals have the values of the circuit.
pub fn assignment()
    ensures { AssignmentLaw }
{}

/// Values of one layout are equal exactly where their bits are.
pub fn same_bits()
    ensures { BitsLaw }
{}

/// The test of two lists of literals of one length is true exactly where their values are equal.
pub fn equality()
    ensures { EqualityLaw }
{}

/// A choice between two lists of literals of one length has the values of the chosen one.
pub fn choice()
    ensures { ChoiceLaw }
{}
