//! The pairs of functions and the functions in no pair, in order, and how pairs are called.

ghost use Rattle.std.specs.Prelude.{◌≡◌, IfOk};
ghost use Rattle.function_pairs.specs.Units.{pairs_from, is_alone, alone_from, pair_name};

use crate::pairs::Pair;
use rvt_tree::{Function, Name};
use std::alloc::{AllocError, Global};

/// The pairs, by the partner of each function of the old file, in the order of these.
pub fn pair_list(alloc: Global, partners: &[Option<u32>]) -> Result<Vec<Pair>, AllocError>
    ensures { IfOk result (λ pairs. pairs.items ≡ pairs_from 0 partners.now) }
{
    // There is no memory for more.
    if partners.len() > u32::MAX as usize {
        return Err(AllocError);
    }
    let mut pairs = Vec::new(alloc);
    'partners: for number in 0..partners.len() {
        match partners[number] {
            None => continue,
            Some(partner) => pairs.push(Pair {
                old: number as u32,
                new: partner,
            })?,
        }
    }
    Ok(pairs)
}

/// The functions of a file that have a body and no partner, in their order.
pub fn alone(
    alloc: Global,
    functions: &[Function],
    partners: &[Option<u32>],
) -> Result<Vec<u32>, AllocError>
    ensures { IfOk result (λ numbers. numbers.items ≡ alone_from partners.now 0 functions.now) }
{
    // There is no memory for more.
    if functions.len() > u32::MAX as usize {
        return Err(AllocError);
    }
    let mut numbers = Vec::new(alloc);
    'functions: for number in 0..functions.len() {
        if !is_alone(&functions[number], partners, number) {
            continue;
        }
        numbers.push(number as u32)?;
    }
    Ok(numbers)
}

fn is_alone(function: &Function, partners: &[Option<u32>], number: usize) -> bool
    ensures { result ≡ is_alone partners.now number function.now }
{
    if function.body.is_none() {
        return false;
    }
    match partners.get(number) {
        Some(Some(_)) => false,
        _ => true,
    }
}

/// The printed name of a pair of functions of these names: `f`, or `f -> g` where they differ.
pub fn pair_name(alloc: Global, old: &Name, new: &Name) -> Result<Name, AllocError>
    ensures { IfOk result (λ name. name ≡ pair_name old.now new.now) }
{
    let first = old.bytes();
    let second = new.bytes();
    if first == second {
        return Name::new(alloc, first);
    }
    let mut text = Vec::from_slice(alloc, first)?;
    text.extend_from_slice(b" -> ")?;
    text.extend_from_slice(second)?;
    Name::new(alloc, text.as_slice())
}
