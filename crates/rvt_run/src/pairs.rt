//! Pairs of functions and of their loops, and their verdicts.

ghost use Rattle.std.specs.Prelude.{◌≡◌, ◌^◌, ◌<◌, ◌≤◌, ◌↔◌, if◌then◌else◌, [], ◌∷◌, IfOk, IsTrue, Some, None, drop, length, map};
ghost use Rattle.std.specs.Option.{option_copied};
ghost use Rattle.function_pairs.specs.Units.{pair_name};
ghost use Rattle.rvt_run.specs.Pairs.{ArePairs, AreLoops, AreLoopPairs, AreOneLoop, IsLoopVerdict, IsVerdict, partner_at, said};
ghost use Rattle.rvt_run.specs.Pairs as spec;
ghost use Rattle.rvt_run.specs.Report.{full_among, verdict_text};

use crate::interfaces::{same_interface, same_loop_interface};
use loop_interfaces::{LoopInterface, loop_interfaces, loop_numbers};
use rvt_tree::{Function, Name, Pairing};
use std::alloc::{AllocError, Global};

/// The verdict of a pair.
#[derive(Clone, Copy, Debug, PartialEq, Eq)]
pub enum Verdict {
    Twin,
    Interface,
    Bodies,
}

/// What stands behind the name of the pair.
pub fn text_of(verdict: Verdict) -> &'static [u8]
    ensures { result.now ≡ verdict_text verdict }
{
    match verdict {
        Verdict::Twin => b": fully equivalent, twin",
        Verdict::Interface => b": unknown, interface",
        Verdict::Bodies => b": unknown, bodies differ",
    }
}

/// A pair of functions, or of loops of two functions that are a pair, and its verdict.
#[derive(Clone, Copy, Drop)]
pub struct Pair<'a> {
    pub old_name: &'a Name,
    pub new_name: &'a Name,
    pub loop_number: Option<u32>,
    pub verdict: Verdict,
}

/// The pairs, in the order of the old file, the loops of two functions behind them.
pub fn pairs<'a>(
    alloc: Global,
    old: &'a [Function],
    new: &'a [Function],
    partners: &[Option<u32>],
    pairing: &Pairing,
    twins: &Option<Pairing>,
) -> Result<Vec<Pair<'a>>, AllocError>
    ensures { IfOk result (λ pairs. ArePairs pairing.now partners.now new.now twins.now 0 old.now (map said pairs.items)) }
{
    let mut pairs = Vec::new(alloc);
    for (i, function) in old.iter().enumerate() {
        let other = match partner(partners, new, i) {
            Some(other) => other,
            None => continue,
        };
        let are_twins = is_twin(twins, i);
        pairs.push(judged(function, other, pairing, are_twins))?;
        let mut loops = loop_pairs(alloc, function, other, pairing, are_twins)?;
        pairs.append(&mut loops)?;
    }
    Ok(pairs)
}

/// The function of the other file that the function of this number is compared with.
fn partner<'a>(
    partners: &[Option<u32>],
    others: &'a [Function],
    number: usize,
) -> Option<&'a Function>
    ensures { option_copied result ≡ partner_at partners.now others.now number }
{
    match partners.get(number) {
        Some(Some(other)) => others.get(*other as usize),
        _ => None,
    }
}

/// Whether a function has a body and is compared with none.
fn is_alone(partners: &[Option<u32>], function: &Function, number: usize) -> bool
    ensures { result ≡ spec.is_alone partners.now number function.now }
{
    function.body.is_some() && !is_paired(partners, number)
}

fn judged<'a>(old: &'a Function, new: &'a Function, pairing: &Pairing, is_twin: bool) -> Pair<'a>
    ensures name { pair_name result.old_name.now result.new_name.now ≡ pair_name old.now.name new.now.name }
    ensures no_loop { result.loop_number ≡ None }
    ensures verdict { IsVerdict pairing.now old.now new.now is_twin result.verdict }
{
    let verdict = if !same_interface(old, new, pairing) {
        Verdict::Interface
    } else if is_twin {
        Verdict::Twin
    } else {
        Verdict::Bodies
    };
    Pair {
        old_name: &old.name,
        new_name: &new.name,
        loop_number: None,
        verdict,
    }
}

fn is_twin(twins: &Option<Pairing>, number: usize) -> bool
    ensures { result ≡ spec.is_twin twins.now number }
{
    match twins {
        None => false,
        Some(twins) => is_paired(twins.functions.as_slice(), number),
    }
}

fn is_paired(partners: &[Option<u32>], number: usize) -> bool
    ensures { result ≡ spec.is_paired partners.now number }
{
    match partners.get(number) {
        Some(Some(_)) => true,
        _ => false,
    }
}

// ---- loops

/// The pairs of the loops of two functions.
fn loop_pairs<'a>(
    alloc: Global,
    old: &'a Function,
    new: &'a Function,
    pairing: &Pairing,
    are_twins: bool,
) -> Result<Vec<Pair<'a>>, AllocError>
    ensures { IfOk result (λ pairs. AreLoops pairing.now old.now new.now are_twins (map said pairs.items)) }
{
    let loops = loop_interfaces(alloc, old)?;
    let others = loop_interfaces(alloc, new)?;
    let mut pairs = Vec::new(alloc);
    let mut left = loops.as_slice();
    let mut right = others.as_slice();
    'loops: while let Some((a, more)) = left.split_first() {
        match right.split_first() {
            None => return Ok(pairs),
            Some((b, rest)) => {
                pairs.push(judged_loop(old, new, pairing, are_twins, a, b))?;
                left = more;
                right = rest;
            }
        }
    }
    Ok(pairs)
}

fn judged_loop<'a>(
    old: &'a Function,
    new: &'a Function,
    pairing: &Pairing,
    are_twins: bool,
    a: &LoopInterface,
    b: &LoopInterface,
) -> Pair<'a>
    ensures name { pair_name result.old_name.now result.new_name.now ≡ pair_name old.now.name new.now.name }
    ensures number { result.loop_number ≡ Some a.now.number }
    ensures small { a.now.number < 2 ^ 32 }
    ensures verdict { IsLoopVerdict pairing.now old.now new.now are_twins a.now b.now result.verdict }
{
    let locals = a.locals.as_slice();
    let others = b.locals.as_slice();
    let verdict = if !same_loop_interface(old, new, locals, others, pairing) {
        Verdict::Interface
    } else if are_twins && are_one_loop(a, b) {
        Verdict::Twin
    } else {
        Verdict::Bodies
    };
    let number = carried(a.number);
    Pair {
        old_name: &old.name,
        new_name: &new.name,
        loop_number: Some(number),
        verdict,
    }
}

/// The number, which has 32 bits.
fn carried(number: u32) -> u32
    ensures value { result ≡ number }
    ensures small { number < 2 ^ 32 }
{
    number
}

/// Whether two loops carry one number, and their interfaces are the same locals.
fn are_one_loop(a: &LoopInterface, b: &LoopInterface) -> bool
    ensures { IsTrue result ↔ AreOneLoop a.now b.now }
{
    if a.number != b.number {
        return false;
    }
    a.locals.as_slice() == b.locals.as_slice()
}

// ---- units of one file that are compared with none

/// The function itself, where it has a body and no partner, and each loop of it that has none, by its number.
pub fn units_alone(
    alloc: Global,
    partners: &[Option<u32>],
    others: &[Function],
    function: &Function,
    number: usize,
) -> Result<Vec<Option<u32>>, AllocError>
    ensures { IfOk result (λ units. units.items ≡ spec.units_alone partners.now others.now number function.now) }
{
    let mut units = own_unit(alloc, is_alone(partners, function, number))?;
    let loops = loop_numbers(alloc, function)?;
    let beside = loops_beside(alloc, partner(partners, others, number))?;
    'loops: for number in behind(loops.as_slice(), beside) {
        units.push(Some(*number))?;
    }
    Ok(units)
}

/// The function itself, where it is alone.
fn own_unit(alloc: Global, is_alone: bool) -> Result<Vec<Option<u32>>, AllocError>
    ensures { IfOk result (λ units. units.items ≡ (if is_alone then None ∷ [] else [])) }
{
    let mut units = Vec::new(alloc);
    if is_alone {
        units.push(None)?;
    }
    Ok(units)
}

/// How many loops the other function has.
fn loops_beside(alloc: Global, other: Option<&Function>) -> Result<usize, AllocError>
    ensures { IfOk result (λ count. count ≡ spec.loops_beside (option_copied other.entry)) }
{
    match other {
        None => Ok(0),
        Some(other) => {
            let loops = loop_numbers(alloc, other)?;
            Ok(loops.len())
        }
    }
}

/// The numbers behind so many first ones.
fn behind(numbers: &[u32], count: usize) -> &[u32]
    ensures { result.now ≡ drop count numbers.now }
{
    if count < numbers.len() {
        &numbers[count..]
    } else {
        &[]
    }
}

/// How many of the pairs are fully equivalent.
pub fn full_count(pairs: &[Pair<'_>]) -> usize
    ensures value { result ≡ full_among (map said pairs.now) }
    ensures within { result ≤ length pairs.now }
{
    let mut count = 0;
    for pair in pairs {
        if pair.verdict != Verdict::Twin {
            continue;
        }
        count += 1;
    }
    count
}
