//! Laws of the definition. The functions do nothing: each carries a law as its contract.

ghost use Rattle.function_pairs.specs.Laws.{PairsTurn, PairsStand, PairsAreNamed};

/// A function is the partner of its partner.
pub fn pairs_turn()
    ensures { PairsTurn }
{}

/// Partners are functions of their files.
pub fn pairs_stand()
    ensures { PairsStand }
{}

/// The functions of a pair have bodies, and a line lists their names, or they have one name that no line has.
pub fn pairs_are_named()
    ensures { PairsAreNamed }
{}
