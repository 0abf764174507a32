//! The partner of each function in the other file.

ghost use Rattle.std.specs.Prelude.{◌≡◌, IfOk};
ghost use Rattle.function_pairs.specs.Counterparts.{new_name, old_name};
ghost use Rattle.function_pairs.specs.FunctionPairs.{pairs_of};
ghost use Rattle.function_pairs.specs.Sides.{IsSide, partner_among, partners_among};

use crate::counterparts::{name_in, new_names, old_names};
use crate::defined::{number_of, numbers};
use crate::pairs::FunctionPairs;
use indexmap::IndexMap;
use rvt_tree::Function;
use sqlite_items::Items;
use std::alloc::{AllocError, Global};
use version_map::Listed;

/// What the names of one file stand for: its functions with a body, and names in the other file.
#[derive(Drop)]
struct Side<'a> {
    numbers: IndexMap<&'a [u8], u32>,
    names: IndexMap<&'a [u8], &'a [u8]>,
}

/// Pairs the functions of two files that have a body: those that a line names as it says, and the others by their names.
pub fn function_pairs(
    alloc: Global,
    old: &[Function],
    new: &[Function],
    lines: &[Listed],
) -> Result<FunctionPairs, AllocError>
    ensures { IfOk result (λ pairs. pairs ≡ pairs_of lines.now old.now new.now) }
{
    let old_side = side_of_old(alloc, old, lines)?;
    let new_side = side_of_new(alloc, new, lines)?;
    let of_old = partners(alloc, old, &old_side, &new_side)?;
    let of_new = partners(alloc, new, &new_side, &old_side)?;
    Ok(FunctionPairs {
        of_old: Items::from_vec(of_old),
        of_new: Items::from_vec(of_new),
    })
}

fn side_of_old<'a>(
    alloc: Global,
    functions: &'a [Function],
    lines: &'a [Listed],
) -> Result<Side<'a>, AllocError>
    ensures { IfOk result (λ side. IsSide side (new_name lines.now) functions.now) }
{
    let numbers = numbers(alloc, functions)?;
    let names = new_names(alloc, lines)?;
    Ok(Side { numbers, names })
}

fn side_of_new<'a>(
    alloc: Global,
    functions: &'a [Function],
    lines: &'a [Listed],
) -> Result<Side<'a>, AllocError>
    ensures { IfOk result (λ side. IsSide side (old_name lines.now) functions.now) }
{
    let numbers = numbers(alloc, functions)?;
    let names = old_names(alloc, lines)?;
    Ok(Side { numbers, names })
}

/// The partner of each function of a file.
fn partners(
    alloc: Global,
    functions: &[Function],
    own: &Side,
    other: &Side,
) -> Result<Vec<Option<u32>>, AllocError>
    ensures { IfOk result (λ partners. partners.items ≡ partners_among own.now other.now 0 functions.now) }
{
    let mut partners = Vec::new(alloc);
    for number in 0..functions.len() {
        let name = functions[number].name.bytes();
        partners.push(partner(own, other, number, name))?;
    }
    Ok(partners)
}

/// The partner of the function of this number and name.
fn partner(own: &Side, other: &Side, number: usize, name: &[u8]) -> Option<u32>
    ensures { result ≡ partner_among own.now other.now number name.now }
{
    match number_of(&own.numbers, name) {
        Some(first) if first as usize == number => {}
        _ => return None,
    }
    let counterpart = name_in(&own.names, name);
    if name_in(&other.names, counterpart) != name {
        return None;
    }
    number_of(&other.numbers, counterpart)
}
