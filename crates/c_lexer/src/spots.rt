//! Where one is in a file.

ghost use Rattle.std.specs.Prelude.{◌≡◌, ◌<◌, ◌^◌, ◌-◌, ◌+◌, length, fold};
ghost use Rattle.c_lexer.specs.Places as places;

use crate::tokens::Place;
use c_tokens::is_space;

/// A place, and whether only white space stands before it on its line.
#[derive(Clone, Copy)]
pub struct Spot {
    pub place: Place,
    pub blank: bool,
}

/// The spot one byte further on.
fn after_byte(spot: Spot, byte: u8) -> Spot
    requires line { spot.place.line < 2 ^ 64 - 1 }
    requires column { spot.place.column < 2 ^ 64 - 1 }
    ensures { result ≡ places.after_byte spot byte }
{
    let place = spot.place;
    if byte == b'\n' {
        let place = Place {
            line: place.line + 1,
            column: 1,
        };
        return Spot { place, blank: true };
    }
    let place = Place {
        line: place.line,
        column: place.column + 1,
    };
    let blank = spot.blank && is_space(byte);
    Spot { place, blank }
}

/// The spot after a text.
pub fn after(spot: Spot, text: &[u8]) -> Spot
    requires line { spot.place.line + length text.now < 2 ^ 64 }
    requires column { spot.place.column + length text.now < 2 ^ 64 }
    ensures { result ≡ fold places.after_byte spot text.now }
{
    let mut spot = spot;
    'bytes: for byte in text {
        spot = after_byte(spot, *byte);
    }
    spot
}
