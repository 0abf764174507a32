//! Laws of the definition. The functions do nothing: each carries a law as its contract.

ghost use Rattle.version_map.specs.Fits.{MapsFit};

/// What a map says fits: lines rise, no name stands twice on its side, and each count is 1 to 4096.
pub fn a_map_fits()
    ensures { MapsFit }
{}
