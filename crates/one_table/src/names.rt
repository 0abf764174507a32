//! The functions of a file by their names.

ghost use Rattle.std.specs.Prelude.{◌≡◌, IfOk};
ghost use Rattle.std.specs.Option.{option_copied};
ghost use Rattle.one_table.specs.Names.{named, named_number, AreNumbers};

use indexmap::IndexMap;
use rvt_tree::Function;
use sqlite_items::at;
use std::alloc::{AllocError, Global};

/// The number of each function under its name. Of two functions of one name the first counts.
pub fn numbers(alloc: Global, functions: &[Function]) -> Result<IndexMap<&[u8], u32>, AllocError>
    ensures { IfOk result (λ table. AreNumbers table functions.now) }
{
    // There is no memory for more.
    if functions.len() > u32::MAX as usize {
        return Err(AllocError);
    }
    let mut table = IndexMap::new(alloc);
    let mut left = functions.len();
    'functions: while left > 0 {
        left -= 1;
        let name = functions[left].name.bytes();
        table.insert(name, left as u32)?;
    }
    Ok(table)
}

/// The number that stands under a name.
pub fn number_of(table: &IndexMap<&[u8], u32>, name: &[u8]) -> Option<u32>
    ensures { result ≡ named_number name.now table.now }
{
    table.get(name).copied()
}

/// The function of a name, where the table has the numbers of these functions.
pub fn find<'a>(
    table: &IndexMap<&[u8], u32>,
    functions: &'a [Function],
    name: &[u8],
) -> Option<&'a Function>
    requires { AreNumbers table.now functions.now }
    ensures { option_copied result ≡ named functions.now name.now }
{
    match number_of(table, name) {
        Some(number) => at(functions, number as usize),
        None => None,
    }
}
