//! What holds of every core that fits: a function without a body each, whose contract is the law.

ghost use Rattle.core_ir.specs.Examples.{both};
ghost use Rattle.core_ir.specs.Fits.{Fits};
ghost use Rattle.core_ir.specs.Laws.{ProperLaw, StepsLaw};

/// Proper calls make proper calls and have proper ends, however their calls are answered.
pub fn proper_runs()
    ensures { ProperLaw }
{}

/// A call that ends does so within some number of steps.
pub fn ends_within_steps()
    ensures { StepsLaw }
{}

/// There is a joint core that fits.
pub fn small_core_fits()
    ensures { Fits both }
{}
