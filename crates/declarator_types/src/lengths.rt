//! Lengths of arrays (C 6.7.6.2), the outermost first, and `None` for `[]`.

ghost use Rattle.std.specs.Prelude.{◌≡◌, ◌*◌, min, is_none, option_map, IfOk};
ghost use Rattle.std.specs.List.{list_any};
ghost use Rattle.c_syntax.specs.Views.{value_view, values_view};
ghost use Rattle.expression_typing.specs.TypeNames.{is_below_1};
ghost use Rattle.file_typing.specs.DeclaratorTypes.{counted, count_of, count_values, values_in, is_above_most};
ghost use Rattle.declarator_types.specs.Products.{product};

use c_syntax::{Value, Values};
use std::alloc::AllocError;

/// `[]` first takes the number of the values in the braces behind it.
pub fn counted(count: Option<u64>, mut lengths: Vec<Option<i128>>) -> Vec<Option<i128>>
    ensures { result.items ≡ counted count lengths.items }
{
    let count = match count {
        Some(count) => count,
        None => return lengths,
    };
    match lengths.as_slice() {
        [None, ..] => {}
        _ => return lengths,
    }
    lengths[0] = Some(count as i128);
    lengths
}

/// How many values stand in the braces, if it is braces.
pub fn values_in(value: &Option<Value>) -> Result<Option<u64>, AllocError>
    ensures { IfOk result (λ count. count ≡ values_in (option_map value_view value.now)) }
{
    match value {
        Some(Value::Braces(_, members)) => {
            let count = count_values(members)?;
            Ok(Some(count))
        }
        _ => Ok(None),
    }
}

fn count_values(members: &Values) -> Result<u64, AllocError>
    ensures { IfOk result (λ count. count ≡ count_values (values_view members.now)) }
{
    let mut count: u64 = 0;
    let mut rest = members;
    while let Values::More(_, more) = rest {
        if count == u64::MAX {
            return Err(AllocError);
        }
        count += 1;
        rest = more;
    }
    Ok(count)
}

/// The elements of an array of this length, as far as 4,097.
pub fn count_up_to(length: Option<i128>) -> u32
    ensures { result ≡ min (count_of length) 4097 }
{
    match length {
        Some(length) => {
            if length < 0 {
                0
            } else if length < 4097 {
                length as u32
            } else {
                4097
            }
        }
        None => 0,
    }
}

/// The cells of an array of these lengths whose elements have so many cells, as far as 4,097.
pub fn cells_up_to(lengths: &[Option<i128>], cells: u32) -> u32
    ensures { result ≡ min (product lengths.now * cells) 4097 }
{
    let mut total = cells.min(4097);
    for length in lengths {
        total = (total * count_up_to(*length)).min(4097);
    }
    total
}

fn is_below_1(length: Option<i128>) -> bool
    ensures { result ≡ is_below_1 length }
{
    match length {
        Some(length) => length < 1,
        None => false,
    }
}

fn is_above_most(length: Option<i128>) -> bool
    ensures { result ≡ is_above_most length }
{
    match length {
        Some(length) => length > 4096,
        None => false,
    }
}

pub fn has_length_below_1(lengths: &[Option<i128>]) -> bool
    ensures { result ≡ list_any is_below_1 lengths.now }
{
    for length in lengths {
        if is_below_1(*length) {
            return true;
        }
    }
    false
}

pub fn has_length_above_most(lengths: &[Option<i128>]) -> bool
    ensures { result ≡ list_any is_above_most lengths.now }
{
    for length in lengths {
        if is_above_most(*length) {
            return true;
        }
    }
    false
}

pub fn has_no_length(lengths: &[Option<i128>]) -> bool
    ensures { result ≡ list_any is_none lengths.now }
{
    for length in lengths {
        if length.is_none() {
            return true;
        }
    }
    false
}
