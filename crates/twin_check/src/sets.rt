//! Closed sets of twins.

ghost use Rattle.std.specs.Prelude.{◌≡◌};
ghost use Rattle.c_meaning.specs.Twins.{IsClosed};
ghost use Rattle.twin_check.specs.Sets.{IsWithin, HasEveryClosed, Shrinks};

use crate::functions::are_twins;
use rvt_tree::{Pairing, Program};

/// The greatest closed set of twins within a pairing: it without those pairs of functions that are no twins, or that call
/// one that is none. The pairing names at most one partner for each function.
pub fn closed_twins(old: &Program, other: &Program, pairing: Pairing) -> Pairing
    ensures closed { IsClosed result old.now other.now }
    ensures within { IsWithin result pairing }
    ensures greatest { HasEveryClosed old.now other.now pairing result }
{
    let mut twins = pairing;
    'passes: loop {
        if !take_out_others(old, other, &mut twins) {
            return twins;
        }
    }
}

/// Takes out each pair of functions that aren't equal under what is then left of the pairing, and answers whether there
/// was one. Where functions call themselves and earlier ones alone, the first pass takes out all that ever leave.
fn take_out_others(old: &Program, other: &Program, pairing: &mut Pairing) -> bool
    ensures { Shrinks old.now other.now pairing.old pairing.new result }
{
    let mut shrank = false;
    for f in 0..pairing.functions.len() {
        let g = match pairing.functions.get(f) {
            Some(Some(g)) => *g,
            _ => continue,
        };
        if are_twins(old, other, pairing, f, g as usize) {
            continue;
        }
        pairing.functions.set(f, None);
        shrank = true;
    }
    shrank
}
