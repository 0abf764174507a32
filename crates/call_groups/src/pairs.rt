ghost use Rattle.std.specs.Prelude.{◌≡◌, ℕ, ◌<◌, ◌≤◌, ◌^◌, ◌++◌, length, slice_index_or, option_to_list, None, IfOk, OnOk};
ghost use Rattle.call_graph.specs.Graphs.{rows};
ghost use Rattle.call_groups.specs.Groups.{AreGroups, entered_at, pairs_of, pair_successors, side_of};
ghost use Rattle.core_ir.specs.Calls.{unit_calls};
ghost use Rattle.core_ir.specs.Joint.{member, pair_from};

use call_graph::{Graph, Memory, components};
use core_ir::{Core, JointCore, all_calls};
use std::alloc::Global;

/// The pairs in groups that call one another, a group after those that it calls.
pub fn groups(alloc: Global, core: &JointCore) -> Result<Vec<Vec<u32>>, Memory>
    ensures { IfOk result (λ groups. AreGroups core.now (rows groups.items)) }
{
    let graph = pair_graph(alloc, core)?;
    let groups = components(alloc, &graph)?;
    Ok(groups)
}

// An edge for each call from a pair to a pair. More pairs than a number of 32 bits tells are too many.
fn pair_graph(alloc: Global, core: &JointCore) -> Result<Graph, Memory>
    ensures edges { IfOk result (λ graph. rows graph.successors.items ≡ pair_successors core.now) }
    ensures few { IfOk result (λ graph. length graph.successors.items ≤ 2 ^ 32) }
{
    let pairs = core.pairs.as_slice();
    if pairs.len() > 4_294_967_296 {
        return Err(Memory);
    }
    let old_pairs = pair_table(alloc, pairs, true)?;
    let new_pairs = pair_table(alloc, pairs, false)?;
    let mut successors = Vec::new(alloc);
    'pairs: for pair in pairs {
        let row = callees(
            alloc,
            core,
            *pair,
            old_pairs.as_slice(),
            new_pairs.as_slice(),
        )?;
        match successors.push(row) {
            Ok(()) => {}
            Err(_) => return Err(Memory),
        }
    }
    Ok(Graph { successors })
}

// The pairs that a pair calls, by a table for each version.
fn callees(
    alloc: Global,
    core: &JointCore,
    pair: (u32, u32, bool),
    old_pairs: &[Option<u32>],
    new_pairs: &[Option<u32>],
) -> Result<Vec<u32>, Memory>
    ensures { IfOk result (λ row. row.items ≡ pairs_of (λ u. slice_index_or old_pairs.now u None) (unit_calls core.now.old pair.0) ++ pairs_of (λ u. slice_index_or new_pairs.now u None) (unit_calls core.now.new_side pair.1)) }
{
    let mut row = Vec::new(alloc);
    push_callees(alloc, &core.old, pair.0, old_pairs, &mut row)?;
    push_callees(alloc, &core.new_side, pair.1, new_pairs, &mut row)?;
    Ok(row)
}

// The pairs whose units a unit calls, by a table of the pair of each unit.
fn push_callees(
    alloc: Global,
    core: &Core,
    unit: u32,
    pairs: &[Option<u32>],
    row: &mut Vec<u32>,
) -> Result<(), Memory>
    ensures { OnOk result (row.new.items ≡ row.old.items ++ pairs_of (λ u. slice_index_or pairs.now u None) (unit_calls core.now unit)) }
{
    let calls = match all_calls(alloc, core, unit) {
        Ok(calls) => calls,
        Err(_) => return Err(Memory),
    };
    'calls: for callee in &calls {
        push_pair(row, pair_at(pairs, *callee))?;
    }
    Ok(())
}

fn push_pair(row: &mut Vec<u32>, pair: Option<u32>) -> Result<(), Memory>
    ensures { OnOk result (row.new.items ≡ row.old.items ++ option_to_list pair) }
{
    match pair {
        None => Ok(()),
        Some(pair) => {
            match row.push(pair) {
                Ok(()) => {}
                Err(_) => return Err(Memory),
            }
            Ok(())
        }
    }
}

fn pair_at(pairs: &[Option<u32>], unit: u32) -> Option<u32>
    ensures { result ≡ slice_index_or pairs.now unit None }
{
    let unit = unit as usize;
    if unit < pairs.len() {
        return pairs[unit];
    }
    None
}

// By unit, the first pair in which it stands.
fn pair_table(
    alloc: Global,
    pairs: &[(u32, u32, bool)],
    old_side: bool,
) -> Result<Vec<Option<u32>>, Memory>
    requires { length pairs.now ≤ 2 ^ 32 }
    ensures { IfOk result (λ table. (u : ℕ) → slice_index_or table.items u None ≡ pair_from (side_of old_side) u 0 pairs.now) }
{
    let mut table = Vec::new(alloc);
    'pairs: for (place, pair) in pairs.iter().enumerate() {
        enter(&mut table, member_of(*pair, old_side), place as u32)?;
    }
    Ok(table)
}

fn member_of(pair: (u32, u32, bool), old_side: bool) -> u32
    ensures { result ≡ member (side_of old_side) pair }
{
    if old_side {
        return pair.0;
    }
    pair.1
}

// Enters the pair of a unit, unless an earlier one is there.
fn enter(table: &mut Vec<Option<u32>>, unit: u32, pair: u32) -> Result<(), Memory>
    ensures { OnOk result ((u : ℕ) → slice_index_or table.new.items u None ≡ entered_at unit pair u (slice_index_or table.old.items u None)) }
{
    let unit = unit as usize;
    make_room(table, unit)?;
    match table[unit] {
        Some(_) => {}
        None => table[unit] = Some(pair),
    }
    Ok(())
}

// Makes the table long enough for a unit.
fn make_room(table: &mut Vec<Option<u32>>, unit: usize) -> Result<(), Memory>
    requires small { unit < 2 ^ 32 }
    ensures room { OnOk result (unit < length table.new.items) }
    ensures kept { OnOk result ((u : ℕ) → slice_index_or table.new.items u None ≡ slice_index_or table.old.items u None) }
{
    if unit < table.len() {
        return Ok(());
    }
    match table.resize(unit + 1, None) {
        Ok(()) => {}
        Err(_) => return Err(Memory),
    }
    Ok(())
}
