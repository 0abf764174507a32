//! What the aims of a spot say, as a law: a function without a body.

ghost use Rattle.sym_spots.specs.Spots.{SpotLaw};

/// A spot is where its true aim is, or traps as its literals say.
pub fn spot()
    ensures { SpotLaw }
{}
