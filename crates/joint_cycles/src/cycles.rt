//! The nodes on cycles of the joint calls.

ghost use Rattle.std.specs.Prelude.{◌≡◌, ℕ, ◌+◌, ◌↔◌, true, length, IfOk};
ghost use Rattle.call_graph.specs.Graphs.{At};
ghost use Rattle.graph_marks.specs.Cycles.{IsOnCycle};
ghost use Rattle.joint_cycles.specs.JointCalls.{joint_calls, ArePartnersOf};

use crate::graphs::{Files, joint_graph};
use function_pairs::FunctionPairs;
use graph_marks::on_cycles;
use rvt_tree::Function;
use std::alloc::{AllocError, Global};

/// For each node of the joint calls, whether it lies on a cycle of them.
pub fn on_joint_cycles(
    alloc: Global,
    old: &[Function],
    new: &[Function],
    pairs: &FunctionPairs,
) -> Result<Vec<bool>, AllocError>
    requires { ArePartnersOf pairs.now.of_new (length old.now) }
    ensures length { IfOk result (λ flags. length flags.items ≡ length old.now + length new.now) }
    ensures cycles { IfOk result (λ flags. (node : ℕ) → At flags.items node true ↔ IsOnCycle (joint_calls pairs.now old.now new.now) node) }
{
    // There is no memory for more.
    if old.len() > u32::MAX as usize / 2 {
        return Err(AllocError);
    }
    if new.len() > u32::MAX as usize / 2 {
        return Err(AllocError);
    }
    let files = Files { old, new, pairs };
    let graph = joint_graph(alloc, &files)?;
    match on_cycles(alloc, &graph) {
        Ok(flags) => Ok(flags),
        Err(_) => Err(AllocError),
    }
}
