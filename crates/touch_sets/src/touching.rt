ghost use Rattle.std.specs.Prelude.{◌≡◌, IfOk};
ghost use Rattle.core_ir.specs.Joint.{Pair, pair_from};
ghost use Rattle.touch_sets.specs.Touching.{side_of, node_in, unit_at, effects_of, IsTouchOf};

use crate::flags::Flags;
use crate::pairings::{member_of, pair_at, pair_table};
use core_ir::JointCore;
use graph_marks::Memory;
use rvt_num::Trap;
use std::alloc::Global;
use std::marker::Model;

/// What the units of both versions touch, with which traps they may end, and which of them always end.
#[derive(Drop)]
pub struct Touch {
    pairs: Vec<(u32, u32, bool)>,
    old_pairs: Vec<Option<u32>>,
    new_pairs: Vec<Option<u32>>,
    old: Flags,
    new_side: Flags,
}

impl Model for Touch {
    ghost use Rattle.touch_sets.specs.Touching.{Touching};

    ghost Value = { Touching };

    ghost view = { λ t. record { pairs = t.pairs.items; old = t.old; new_side = t.new_side } };

    ghost use Rattle.std.specs.Prelude.{◌≡◌, ℕ, slice_index_or, None};
    ghost use Rattle.core_ir.specs.Joint.{Old, New, pair_from};

    ghost invariant = { λ t. ((u : ℕ) → slice_index_or t.old_pairs.items u None ≡ pair_from Old u 0 t.pairs.items) × ((u : ℕ) → slice_index_or t.new_pairs.items u None ≡ pair_from New u 0 t.pairs.items) };
}

/// Computes the least sets, by marks that go from units to their callers. More units, or more pairs, than a number of 32 bits tells are too many.
pub fn touched_by(alloc: Global, core: &JointCore) -> Result<Touch, Memory>
    ensures { IfOk result (λ touch. IsTouchOf core.now touch) }
{
    if core.pairs.len() > 4_294_967_296 {
        return Err(Memory);
    }
    let pairs = match Vec::from_slice(alloc, core.pairs.as_slice()) {
        Ok(pairs) => pairs,
        Err(_) => return Err(Memory),
    };
    let old_pairs = pair_table(alloc, pairs.as_slice(), true)?;
    let new_pairs = pair_table(alloc, pairs.as_slice(), false)?;
    let old = Flags::of_version(alloc, core, true)?;
    let new_side = Flags::of_version(alloc, core, false)?;
    Ok(Touch {
        pairs,
        old_pairs,
        new_pairs,
        old,
        new_side,
    })
}

impl Touch {
    /// Whether the pair of a unit, or the unit where it stands in none, touches an object.
    pub fn touches(&self, old_side: bool, unit: u32, object: u32) -> bool
        ensures { result ≡ (effects_of self.now).touched (node_in self.now.pairs (side_of old_side) unit) object }
    {
        let old = self.partner(old_side, unit, true);
        let new_side = self.partner(old_side, unit, false);
        self.old.touches(old, object) || self.new_side.touches(new_side, object)
    }

    /// Whether the pair of a unit, or the unit where it stands in none, may end with a trap.
    pub fn may_trap(&self, old_side: bool, unit: u32, trap: Trap) -> bool
        ensures { result ≡ (effects_of self.now).may_trap (node_in self.now.pairs (side_of old_side) unit) trap }
    {
        let old = self.partner(old_side, unit, true);
        let new_side = self.partner(old_side, unit, false);
        self.old.may_trap(old, trap) || self.new_side.may_trap(new_side, trap)
    }

    /// Whether a unit has an end on every input, since no unit that it reaches reaches itself.
    pub fn always_ends(&self, old_side: bool, unit: u32) -> bool
        ensures { result ≡ (effects_of self.now).always_ends (side_of old_side) unit }
    {
        if old_side {
            return self.old.always_ends(unit);
        }
        self.new_side.always_ends(unit)
    }

    // The unit of a version that stands where this one does: in its pair, or alone.
    fn partner(&self, old_side: bool, unit: u32, of_old: bool) -> Option<u32>
        ensures { result ≡ unit_at self.now.pairs (node_in self.now.pairs (side_of old_side) unit) (side_of of_old) }
    {
        match self.pair(old_side, unit) {
            Some(pair) => self.member(pair, of_old),
            None => {
                if old_side == of_old {
                    return Some(unit);
                }
                None
            }
        }
    }

    // The unit of a pair, unless it stands in an earlier one.
    fn member(&self, pair: u32, old_side: bool) -> Option<u32>
        ensures { result ≡ unit_at self.now.pairs (Pair pair) (side_of old_side) }
    {
        let unit = match self.pairs.get(pair as usize) {
            None => return None,
            Some(units) => member_of(*units, old_side),
        };
        match self.pair(old_side, unit) {
            None => None,
            Some(first) => {
                if first == pair {
                    return Some(unit);
                }
                None
            }
        }
    }

    // The first pair in which a unit stands.
    fn pair(&self, old_side: bool, unit: u32) -> Option<u32>
        ensures { result ≡ pair_from (side_of old_side) unit 0 self.now.pairs }
    {
        if old_side {
            return pair_at(self.old_pairs.as_slice(), unit);
        }
        pair_at(self.new_pairs.as_slice(), unit)
    }
}
