//! The first owner of an object on a cycle of calls.

ghost use Rattle.std.specs.Prelude.{◌≡◌, length, IfOk, MatchOption};
ghost use Rattle.joint_cycles.specs.JointCalls.{joint_calls, ArePartnersOf};
ghost use Rattle.joint_cycles.specs.Owners.{HasNoOwnerOnCycle, IsFirstOwnerOnCycle, if_set, first_among};

use crate::cycles::on_joint_cycles;
use function_pairs::FunctionPairs;
use rvt_tree::Function;
use std::alloc::{AllocError, Global};

/// The first owner of an object, in the order of these, that lies on a cycle of the joint calls. Owners are nodes.
pub fn owner_on_cycle(
    alloc: Global,
    old: &[Function],
    new: &[Function],
    pairs: &FunctionPairs,
    owners: &[Option<u32>],
) -> Result<Option<u32>, AllocError>
    requires { ArePartnersOf pairs.now.of_new (length old.now) }
    ensures { let graph = joint_calls pairs.now old.now new.now in IfOk result (λ found. MatchOption found (HasNoOwnerOnCycle graph owners.now) (IsFirstOwnerOnCycle graph owners.now)) }
{
    let flags = on_joint_cycles(alloc, old, new, pairs)?;
    Ok(first_flagged(flags.as_slice(), owners))
}

fn first_flagged(flags: &[bool], owners: &[Option<u32>]) -> Option<u32>
    ensures { result ≡ first_among flags.now owners.now }
{
    'owners: for owner in owners {
        match if_flagged(flags, *owner) {
            Some(node) => return Some(node),
            None => {}
        }
    }
    None
}

fn if_flagged(flags: &[bool], owner: Option<u32>) -> Option<u32>
    ensures { result ≡ if_set flags.now owner }
{
    let node = match owner {
        Some(node) => node,
        None => return None,
    };
    match flags.get(node as usize) {
        Some(true) => Some(node),
        _ => None,
    }
}
