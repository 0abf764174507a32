//! Laws.

ghost use Rattle.call_arguments.specs.Laws.{OneValue};

/// A word means one value at most.
pub fn one_value()
    ensures { OneValue }
{}
