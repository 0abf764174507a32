//! The locals of a function by their numbers, parameters first.

ghost use Rattle.std.specs.Prelude.{◌≡◌, ◌++◌, slice_get};
ghost use Rattle.std.specs.Option.{option_copied};
ghost use Rattle.c_meaning.specs.Interfaces.{name_of};

use rvt_tree::{Function, Local};
use sqlite_items::at;

/// The local or parameter of a number.
pub fn local_at(function: &Function, number: u32) -> Option<&Local>
    ensures { option_copied result ≡ slice_get (function.now.params ++ function.now.locals) number }
{
    let number = number as usize;
    let count = function.params.len();
    if number < count {
        return at(function.params.as_slice(), number);
    }
    at(function.locals.as_slice(), number - count)
}

/// Its name; none where there is no such local.
pub fn name_at(function: &Function, number: u32) -> &[u8]
    ensures { result.now ≡ name_of function.now number }
{
    match local_at(function, number) {
        Some(local) => local.name.bytes(),
        None => b"",
    }
}
