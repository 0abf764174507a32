//! Lines of a map that name a function that isn't there.

ghost use Rattle.std.specs.Prelude.{◌≡◌, not, option_map, IfOk};
ghost use Rattle.std.specs.List.{find};
ghost use Rattle.function_pairs.specs.Refusals.{first_unknown, known_by};

use crate::defined::{number_of, numbers};
use indexmap::IndexMap;
use rvt_tree::Function;
use std::alloc::{AllocError, Global};
use version_map::Listed;

/// The number of the first line that doesn't name a function with a body of each file.
pub fn unknown_function(
    alloc: Global,
    old: &[Function],
    new: &[Function],
    lines: &[Listed],
) -> Result<Option<u32>, AllocError>
    ensures { IfOk result (λ line. line ≡ first_unknown lines.now old.now new.now) }
{
    let old_numbers = numbers(alloc, old)?;
    let new_numbers = numbers(alloc, new)?;
    Ok(first_unknown_in(&old_numbers, &new_numbers, lines))
}

fn first_unknown_in(
    old: &IndexMap<&[u8], u32>,
    new: &IndexMap<&[u8], u32>,
    lines: &[Listed],
) -> Option<u32>
    ensures { result ≡ option_map (λ line. line.line) (find (λ line. not (known_by old.now new.now line)) lines.now) }
{
    'lines: for line in lines {
        if !is_known(old, new, line) {
            return Some(line.line);
        }
    }
    None
}

fn is_known(old: &IndexMap<&[u8], u32>, new: &IndexMap<&[u8], u32>, line: &Listed) -> bool
    ensures { result ≡ known_by old.now new.now line.now }
{
    number_of(old, line.old.bytes()).is_some() && number_of(new, line.new.bytes()).is_some()
}
