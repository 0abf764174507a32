//! The joint programs of two files, and their twins.

ghost use Rattle.std.specs.Prelude.{IfOk, IfErr, MatchOption};
ghost use Rattle.version_map.specs.Maps.{said_in};
ghost use Rattle.twin_laws.specs.Tables.{StandOverTheTable};
ghost use Rattle.joint_programs.specs.JointPrograms.{partners_in, table_of_old};
ghost use Rattle.joint_programs.specs.Faults.{IsJointFault};
ghost use Rattle.joint_laws.specs.JointStand.{AreJoinable};
ghost use Rattle.joint_twins.specs.Twins.{AreJointPrograms, AreTwinsOver};

use crate::files::are_joinable;
use joint_laws::laws::joint_programs_stand;
use joint_objects::FunctionPartners;
use joint_programs::{JointFault, JointPrograms, joint_programs};
use rvt_tree::{Pairing, Program};
use std::alloc::{AllocError, Global};
use twin_candidates::candidates;
use twin_check::closed_twins;
use twin_laws::laws::{twin_loops_are_full, twins_are_full, twins_run_alike};
use version_map::Map;

/// The programs of two files over their joint table, and the functions that are twins in them: for each function of the
/// old file the one of the new file. There are none where the programs don't stand over one table.
#[derive(Drop)]
pub struct JointTwins {
    pub joint: JointPrograms,
    pub twins: Option<Pairing>,
}

/// The joint programs and the twins of two files, where functions are paired so. The files' programs are used up.
pub fn joint_twins(
    alloc: Global,
    old: Program,
    new: Program,
    functions: &FunctionPartners,
    map: &Map,
) -> Result<JointTwins, JointFault>
    ensures programs { IfOk result (λ found. AreJointPrograms old new (partners_in functions.now) (said_in map.now) found.joint) }
    ensures twins { IfOk result (λ found. MatchOption found.twins (AreJoinable old new (partners_in functions.now) (table_of_old old new (partners_in functions.now) (said_in map.now)) → ⊥) (λ twins. AreTwinsOver found.joint twins)) }
    ensures fault { IfErr result (IsJointFault old new (partners_in functions.now) (said_in map.now)) }
{
    let joinable = are_joinable(alloc, &old, &new, functions, map)?;
    let joint = joint_programs(alloc, old, new, functions, map)?;
    if !joinable {
        return Ok(JointTwins { joint, twins: None });
    }
    joint_programs_stand();
    let twins = twins_over(alloc, &joint)?;
    Ok(JointTwins {
        joint,
        twins: Some(twins),
    })
}

/// The greatest closed set of twins of joint programs that stand over one table.
fn twins_over(alloc: Global, joint: &JointPrograms) -> Result<Pairing, AllocError>
    requires { StandOverTheTable joint.now.pairing joint.now.old joint.now.new_side }
    ensures { IfOk result (λ twins. AreTwinsOver joint.now twins) }
{
    let among = candidates(alloc, &joint.old, &joint.new_side, &joint.pairing)?;
    let twins = closed_twins(&joint.old, &joint.new_side, among);
    twins_run_alike(&twins, &joint.old, &joint.new_side);
    twins_are_full(&twins, &joint.old, &joint.new_side);
    twin_loops_are_full(&twins, &joint.old, &joint.new_side);
    Ok(twins)
}
