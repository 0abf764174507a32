//! What holds of the worked core: a function without a body each, whose contract is the law.

ghost use Rattle.core_examples.specs.Factorials.{both_factorials};
ghost use Rattle.core_ir.specs.Fits.{Fits};

/// Two versions of the factorial function, one of which names the result of its inner call, fit.
pub fn factorials_fit()
    ensures { Fits both_factorials }
{}
