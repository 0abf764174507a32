//! In which pair each unit stands.

ghost use Rattle.std.specs.Prelude.{◌≡◌, ℕ, ◌<◌, ◌≤◌, ◌^◌, length, slice_index_or, None, IfOk, OnOk};
ghost use Rattle.core_ir.specs.Joint.{member, pair_from};
ghost use Rattle.touch_sets.specs.Touching.{entered_at, side_of};

use graph_marks::Memory;
use std::alloc::Global;

/// By unit, the first pair in which it stands.
pub fn pair_table(
    alloc: Global,
    pairs: &[(u32, u32, bool)],
    old_side: bool,
) -> Result<Vec<Option<u32>>, Memory>
    requires { length pairs.now ≤ 2 ^ 32 }
    ensures { IfOk result (λ table. (u : ℕ) → slice_index_or table.items u None ≡ pair_from (side_of old_side) u 0 pairs.now) }
{
    let mut table = Vec::new(alloc);
    'pairs: for (place, pair) in pairs.iter().enumerate() {
        enter(&mut table, member_of(*pair, old_side), place as u32)?;
    }
    Ok(table)
}

/// The unit of a pair.
pub fn member_of(pair: (u32, u32, bool), old_side: bool) -> u32
    ensures { result ≡ member (side_of old_side) pair }
{
    if old_side {
        return pair.0;
    }
    pair.1
}

/// The entry of a unit.
pub fn pair_at(table: &[Option<u32>], unit: u32) -> Option<u32>
    ensures { result ≡ slice_index_or table.now unit None }
{
    let unit = unit as usize;
    if unit < table.len() {
        return table[unit];
    }
    None
}

// Enters the pair of a unit, unless an earlier one is there.
fn enter(table: &mut Vec<Option<u32>>, unit: u32, pair: u32) -> Result<(), Memory>
    ensures { OnOk result ((u : ℕ) → slice_index_or table.new.items u None ≡ entered_at unit pair u (slice_index_or table.old.items u None)) }
{
    let unit = unit as usize;
    make_room(table, unit)?;
    match table[unit] {
        Some(_) => {}
        None => table[unit] = Some(pair),
    }
    Ok(())
}

// Makes the table long enough for a unit.
fn make_room(table: &mut Vec<Option<u32>>, unit: usize) -> Result<(), Memory>
    requires small { unit < 2 ^ 32 }
    ensures room { OnOk result (unit < length table.new.items) }
    ensures kept { OnOk result ((u : ℕ) → slice_index_or table.new.items u None ≡ slice_index_or table.old.items u None) }
{
    if unit < table.len() {
        return Ok(());
    }
    match table.resize(unit + 1, None) {
        Ok(()) => {}
        Err(_) => return Err(Memory),
    }
    Ok(())
}
