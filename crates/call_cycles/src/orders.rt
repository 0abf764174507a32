ghost use Rattle.std.specs.Prelude.{◌≡◌, ◌⊎◌, ◌↔◌, IsTrue};
ghost use Rattle.file_typing.specs.CallCycles.{IsNotBehind};

use rvt_tree::Place;

// Whether a place is not behind another: by the line, and in one line by the column.
fn is_not_behind(a: Place, b: Place) -> bool
    ensures { IsTrue result ↔ IsNotBehind a b }
{
    if a.line != b.line {
        return a.line < b.line;
    }
    a.column <= b.column
}

/// One of two places that is not behind the other.
pub fn earlier(a: Place, b: Place) -> Place
    ensures one { (result ≡ a) ⊎ (result ≡ b) }
    ensures left { IsNotBehind result a }
    ensures right { IsNotBehind result b }
{
    if is_not_behind(a, b) {
        return a;
    }
    b
}
