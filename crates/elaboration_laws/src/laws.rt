//! Laws of typing. The functions do nothing: each carries a law as its contract.

ghost use Rattle.file_typing.specs.Elaboration.{OneAnswer};
ghost use Rattle.elaboration_laws.specs.FirstFailures.{FirstItem, FirstPart, FirstDeclarator, OperandsFirst, ArgumentsFirst};

/// A file becomes one program, or breaks one rule first.
pub fn one_answer()
    ensures { OneAnswer }
{}

/// A file breaks the rule that its first wrong item breaks.
pub fn first_item()
    ensures { FirstItem }
{}

/// A block breaks the rule that its first wrong declaration or statement breaks.
pub fn first_part()
    ensures { FirstPart }
{}

/// A declaration breaks the rule that its first wrong declarator breaks.
pub fn first_declarator()
    ensures { FirstDeclarator }
{}

/// Operands come before their operator, from left to right.
pub fn operands_first()
    ensures { OperandsFirst }
{}

/// Arguments come behind the name that is called, from left to right, and before their number.
pub fn arguments_first()
    ensures { ArgumentsFirst }
{}
