//! The graph of the joint calls.

ghost use Rattle.std.specs.Prelude.{◌≡◌, ◌+◌, ◌<◌, ◌^◌, ◌++◌, map, filter, nat_lt, length, slice_get, IfOk};
ghost use Rattle.call_graph.specs.Graphs.{rows};
ghost use Rattle.joint_cycles.specs.JointCalls.{called_by, nodes_called, nodes_called_by_partner, old_row, row_alone, new_row, rows_from, joint_calls};

use crate::nodes::new_node;
use body_calls::calls_in;
use function_pairs::FunctionPairs;
use graph_marks::Graph;
use rvt_tree::Function;
use sqlite_items::at;
use std::alloc::{AllocError, Global};

/// Two files and the pairs of their functions.
#[derive(Clone, Copy)]
pub struct Files<'a> {
    pub old: &'a [Function],
    pub new: &'a [Function],
    pub pairs: &'a FunctionPairs,
}

/// For each node those that it calls.
pub fn joint_graph(alloc: Global, files: &Files) -> Result<Graph, AllocError>
    requires { length files.now.old.now + length files.now.new.now < 2 ^ 32 }
    ensures { IfOk result (λ graph. rows graph.successors.items ≡ joint_calls files.now.pairs.now files.now.old.now files.now.new.now) }
{
    let mut successors = Vec::new(alloc);
    push_old_rows(alloc, files, &mut successors)?;
    push_new_rows(alloc, files, &mut successors)?;
    Ok(Graph { successors })
}

fn push_old_rows(
    alloc: Global,
    files: &Files,
    successors: &mut Vec<Vec<u32>>,
) -> Result<(), AllocError>
    requires { length files.now.old.now + length files.now.new.now < 2 ^ 32 }
    ensures { IfOk result (λ _. rows successors.new.items ≡ rows successors.old.items ++ rows_from (old_row files.now.pairs.now files.now.old.now files.now.new.now) 0 files.now.old.now) }
{
    for number in 0..files.old.len() {
        let row = old_row(alloc, files, number, &files.old[number])?;
        successors.push(row)?;
    }
    Ok(())
}

fn push_new_rows(
    alloc: Global,
    files: &Files,
    successors: &mut Vec<Vec<u32>>,
) -> Result<(), AllocError>
    requires { length files.now.old.now + length files.now.new.now < 2 ^ 32 }
    ensures { IfOk result (λ _. rows successors.new.items ≡ rows successors.old.items ++ rows_from (new_row files.now.pairs.now files.now.old.now files.now.new.now) 0 files.now.new.now) }
{
    for number in 0..files.new.len() {
        let row = new_row(alloc, files, number, &files.new[number])?;
        successors.push(row)?;
    }
    Ok(())
}

// ---- rows

/// What a function of the old file or its partner calls.
fn old_row(
    alloc: Global,
    files: &Files,
    number: usize,
    function: &Function,
) -> Result<Vec<u32>, AllocError>
    requires { length files.now.old.now + length files.now.new.now < 2 ^ 32 }
    ensures { IfOk result (λ row. row.items ≡ old_row files.now.pairs.now files.now.old.now files.now.new.now number function.now) }
{
    let mut row = called_by(alloc, files.old.len(), function)?;
    let others = called_by_partner(alloc, files, number)?;
    row.extend_from_slice(others.as_slice())?;
    Ok(row)
}

fn called_by_partner(alloc: Global, files: &Files, number: usize) -> Result<Vec<u32>, AllocError>
    requires { length files.now.old.now + length files.now.new.now < 2 ^ 32 }
    ensures { IfOk result (λ row. row.items ≡ nodes_called_by_partner files.now.pairs.now files.now.old.now files.now.new.now (slice_get files.now.pairs.now.of_old number)) }
{
    let partner = match files.pairs.of_old.get(number) {
        Some(Some(partner)) => *partner,
        _ => return Ok(Vec::new(alloc)),
    };
    match at(files.new, partner as usize) {
        None => Ok(Vec::new(alloc)),
        Some(function) => nodes_called(alloc, files, function),
    }
}

/// What a function of the new file calls that is in no pair.
fn new_row(
    alloc: Global,
    files: &Files,
    number: usize,
    function: &Function,
) -> Result<Vec<u32>, AllocError>
    requires { length files.now.old.now + length files.now.new.now < 2 ^ 32 }
    ensures { IfOk result (λ row. row.items ≡ new_row files.now.pairs.now files.now.old.now files.now.new.now number function.now) }
{
    match files.pairs.of_new.get(number) {
        Some(Some(_)) => Ok(Vec::new(alloc)),
        _ => nodes_called(alloc, files, function),
    }
}

/// The nodes that a function of the new file calls.
fn nodes_called(alloc: Global, files: &Files, function: &Function) -> Result<Vec<u32>, AllocError>
    requires { length files.now.old.now + length files.now.new.now < 2 ^ 32 }
    ensures { IfOk result (λ row. row.items ≡ nodes_called files.now.pairs.now files.now.old.now files.now.new.now function.now) }
{
    let calls = called_by(alloc, files.new.len(), function)?;
    let mut nodes = Vec::new(alloc);
    'calls: for callee in &calls {
        nodes.push(new_node(files.pairs.of_new.as_slice(), files.old.len(), *callee))?;
    }
    Ok(nodes)
}

/// The functions of a file of so many that a function calls.
fn called_by(alloc: Global, count: usize, function: &Function) -> Result<Vec<u32>, AllocError>
    ensures { IfOk result (λ calls. calls.items ≡ called_by count function.now) }
{
    let calls = calls_in(alloc, &function.body)?;
    let mut known = Vec::new(alloc);
    'calls: for callee in &calls {
        if *callee as usize >= count {
            continue;
        }
        known.push(*callee)?;
    }
    Ok(known)
}
