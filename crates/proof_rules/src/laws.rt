//! The rules as laws: a function without a body each, whose contract is the rule.

ghost use Rattle.proof_rules.specs.Rules.{PartialRule, TerminationRule, SharingLaw, CallsSharingLaw, DropLaw, CallsDropLaw};

/// Equal ends under every table give partial equivalence.
pub fn partial_rule()
    ensures { PartialRule }
{}

/// Equal ends and equal calls under every table give full equivalence.
pub fn termination_rule()
    ensures { TerminationRule }
{}

/// Equal ends with a set shared are equal ends with a larger one.
pub fn more_shared()
    ensures { SharingLaw }
{}

/// Equal calls within a set of full pairs are equal calls within a larger one.
pub fn more_full()
    ensures { CallsSharingLaw }
{}

/// A drop of a refuted pair leaves every set within that holds itself.
pub fn drop_leaves()
    ensures { DropLaw }
{}

/// The same of the full pairs.
pub fn calls_drop_leaves()
    ensures { CallsDropLaw }
{}
