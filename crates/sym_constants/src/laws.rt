//! What constants and tests are worth, as laws: functions without a body.

ghost use Rattle.sym_constants.specs.Constants.{ConstantLaidLaw, ConstantLaw, ZeroLaw};
ghost use Rattle.sym_constants.specs.Tests.{TestLaw};

/// A constant stands for its value.
pub fn constant()
    ensures { ConstantLaw }
{}

/// A constant has the layout of its shape.
pub fn constant_laid()
    ensures { ConstantLaidLaw }
{}

/// The zero of a shape stands for zero or null.
pub fn zero()
    ensures { ZeroLaw }
{}

/// A test is true exactly where the other literal is and the number is the constant.
pub fn test()
    ensures { TestLaw }
{}
