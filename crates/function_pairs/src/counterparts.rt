//! What a name of one file is called in the other.

ghost use Rattle.std.specs.Prelude.{◌≡◌, IfOk};
ghost use Rattle.function_pairs.specs.Counterparts.{name_in, new_name, old_name, AreNames};

use indexmap::IndexMap;
use std::alloc::{AllocError, Global};
use version_map::Listed;

/// The name on the new side under each name on the old side. Of two lines with one name the first counts.
pub fn new_names(alloc: Global, lines: &[Listed]) -> Result<IndexMap<&[u8], &[u8]>, AllocError>
    ensures { IfOk result (λ table. AreNames table (new_name lines.now)) }
{
    let mut table = IndexMap::new(alloc);
    let mut left = lines.len();
    'lines: while left > 0 {
        left -= 1;
        let line = &lines[left];
        table.insert(line.old.bytes(), line.new.bytes())?;
    }
    Ok(table)
}

/// The name on the old side under each name on the new side. Of two lines with one name the first counts.
pub fn old_names(alloc: Global, lines: &[Listed]) -> Result<IndexMap<&[u8], &[u8]>, AllocError>
    ensures { IfOk result (λ table. AreNames table (old_name lines.now)) }
{
    let mut table = IndexMap::new(alloc);
    let mut left = lines.len();
    'lines: while left > 0 {
        left -= 1;
        let line = &lines[left];
        table.insert(line.new.bytes(), line.old.bytes())?;
    }
    Ok(table)
}

/// The name that stands under a name, or this name itself.
pub fn name_in<'a>(table: &IndexMap<&'a [u8], &'a [u8]>, name: &'a [u8]) -> &'a [u8]
    ensures { result.now ≡ name_in name.now table.now }
{
    match table.get(name).copied() {
        Some(text) => text,
        None => name,
    }
}
