//! The number of the first of a name.

ghost use Rattle.std.specs.Prelude.{◌≡◌, if◌then◌else◌, OnOk};
ghost use Rattle.file_state.specs.Indexes.{with_first};

use name_scopes::Scopes;
use std::alloc::AllocError;

/// The name gets the number, if it has none.
pub fn number_first(numbers: &mut Scopes<u32>, name: &[u8], number: u32) -> Result<(), AllocError>
    ensures { OnOk result (numbers.new ≡ with_first name.now number numbers.old) }
{
    match numbers.look_up(name) {
        Some(_) => Ok(()),
        None => {
            numbers.declare(name, number)?;
            Ok(())
        }
    }
}

/// The same of a tag; the name of a typedef has no number.
pub fn number_tag(
    numbers: &mut Scopes<u32>,
    tag: &[u8],
    tagged: bool,
    number: u32,
) -> Result<(), AllocError>
    ensures { OnOk result (numbers.new ≡ if tagged then with_first tag.now number numbers.old else numbers.old) }
{
    if !tagged {
        return Ok(());
    }
    number_first(numbers, tag, number)?;
    Ok(())
}
