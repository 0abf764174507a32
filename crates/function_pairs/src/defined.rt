//! The functions of a file that have a body, by their names.

ghost use Rattle.std.specs.Prelude.{◌≡◌, ℕ, List, Some, cond, IfOk};
ghost use Rattle.function_pairs.specs.Defined.{defines, number_in, AreNumbers};

use indexmap::IndexMap;
use rvt_tree::Function;
use std::alloc::{AllocError, Global};

/// The number of each function with a body under its name. Of two functions of one name the first counts.
pub fn numbers(alloc: Global, functions: &[Function]) -> Result<IndexMap<&[u8], u32>, AllocError>
    ensures { IfOk result (λ table. AreNumbers table functions.now) }
{
    // There is no memory for more.
    if functions.len() > u32::MAX as usize {
        return Err(AllocError);
    }
    let mut table = IndexMap::new(alloc);
    let mut left = functions.len();
    'functions: while left > 0 {
        left -= 1;
        put(&mut table, &functions[left], left as u32)?;
    }
    Ok(table)
}

/// Puts the number of a function under its name, if it has a body.
fn put<'a>(
    table: &mut IndexMap<&'a [u8], u32>,
    function: &'a Function,
    number: u32,
) -> Result<(), AllocError>
    ensures { IfOk result (λ _. (name : List ℕ) → number_in name table.new ≡ cond (defines name function.now) (Some number) (number_in name table.old)) }
{
    match &function.body {
        None => Ok(()),
        Some(_) => {
            table.insert(function.name.bytes(), number)?;
            Ok(())
        }
    }
}

/// The number that stands under a name.
pub fn number_of(table: &IndexMap<&[u8], u32>, name: &[u8]) -> Option<u32>
    ensures { result ≡ number_in name.now table.now }
{
    table.get(name).copied()
}
