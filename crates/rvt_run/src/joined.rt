//! Two files that are compared under a map.

ghost use Rattle.std.specs.Prelude.{◌≡◌, ◌≢◌, ◌≤◌, ◌^◌, None, All, IfOk, IfSome, IsTrue, MatchOption, length};
ghost use Rattle.rvt_tree.specs.declared.programs.Program.{Program as AnyProgram};
ghost use Rattle.version_map.specs.Maps.{said_in};
ghost use Rattle.joint_cycles.specs.JointCalls.{ArePartnersOf};
ghost use Rattle.joint_programs.specs.JointPrograms.{partners_in};
ghost use Rattle.joint_twins.specs.Twins.{AreTwinsOver};
ghost use Rattle.rvt_run.specs.Answer.{IsLine};
ghost use Rattle.rvt_run.specs.Joined.{IsCompared, AreJoint, IsOffCycles, IsOnCycleOf, StandOverOne, functions_of, partners_of};
ghost use Rattle.rvt_run.specs.Joined as spec;
ghost use Rattle.rvt_run.specs.LoopTwins.{AreLoopTwins};
ghost use Rattle.rvt_run.specs.Report.{IsReportAmong};
ghost use Rattle.rvt_run.specs.Texts.{HasNoLineEnd};

use crate::answers::{Answer, is_one_line, one_line, refused_line};
use crate::lines::report;
use crate::loop_twins::loop_twins;
use function_pairs::laws::{pairs_stand, pairs_turn};
use function_pairs::{FunctionPairs, function_pairs, unknown_function};
use joint_cycles::{new_node, node_name, owner_on_cycle};
use joint_objects::{FunctionPartners, line_of_unlike, line_without_global};
use joint_programs::{JointFault, JointPrograms};
use joint_twins::{JointTwins, joint_twins};
use rvt_tree::{Function, Name, Object, Pairing, Program};
use sqlite_items::Items;
use std::alloc::{AllocError, Global};
use version_map::Map;

/// The answer to two files under a map of this name.
pub fn compare_under(
    alloc: Global,
    old: Program,
    new: Program,
    map: &Map,
    map_name: &str,
) -> Result<Answer, AllocError>
    requires { HasNoLineEnd map_name.now }
    ensures compared { IfOk result (λ answer. IsCompared map_name.now old new (said_in map.now) answer.status answer.lines.items) }
    ensures shaped { IfOk result (λ answer. All IsLine answer.lines.items) }
{
    if let Some(line) = unknown_line(alloc, &old, &new, map)? {
        return refused_line(alloc, map_name, line, b"no such name");
    }
    if let Some(line) = line_of_unlike(alloc, &old, &new, map)? {
        return refused_line(alloc, map_name, line, b"types differ");
    }
    compare_joint(alloc, old, new, map, map_name)
}

/// The first line of the map that names what isn't there.
fn unknown_line(
    alloc: Global,
    old: &Program,
    new: &Program,
    map: &Map,
) -> Result<Option<u32>, AllocError>
    ensures { IfOk result (λ line. line ≡ spec.unknown_line old.now new.now (said_in map.now)) }
{
    let function = unknown_function(
        alloc,
        old.functions.as_slice(),
        new.functions.as_slice(),
        map.functions.as_slice(),
    )?;
    let global = line_without_global(alloc, old, new, map)?;
    Ok(earlier(function, global))
}

/// The lesser of two lines.
fn earlier(first: Option<u32>, second: Option<u32>) -> Option<u32>
    ensures { result ≡ spec.earlier first second }
{
    match (first, second) {
        (Some(a), Some(b)) => Some(if a <= b { a } else { b }),
        (Some(a), None) => Some(a),
        (None, other) => other,
    }
}

/// The answer to two files over their joint table, where no line of the map is refused.
fn compare_joint(
    alloc: Global,
    old: Program,
    new: Program,
    map: &Map,
    map_name: &str,
) -> Result<Answer, AllocError>
    requires known { spec.unknown_line old new (said_in map.now) ≡ None }
    requires alike { spec.unlike_line old new (said_in map.now) ≡ None }
    ensures compared { IfOk result (λ answer. IsCompared map_name.now old new (said_in map.now) answer.status answer.lines.items) }
    ensures shaped { IfOk result (λ answer. All IsLine answer.lines.items) }
{
    pairs_stand();
    pairs_turn();
    let functions = function_pairs(
        alloc,
        old.functions.as_slice(),
        new.functions.as_slice(),
        map.functions.as_slice(),
    )?;
    let partners = partners(alloc, &functions)?;
    let found = match joint_twins(alloc, old, new, &partners, map) {
        Ok(found) => found,
        Err(JointFault::Memory) => return Err(AllocError),
        Err(JointFault::TooLarge) => {
            return one_line(alloc, 3, b"the table of objects is too large", b"");
        }
    };
    let JointTwins { joint, twins } = found;
    if let Some(name) = name_on_cycle(alloc, &functions, &joint)? {
        return on_cycle(alloc, &name);
    }
    reported(alloc, &functions, &joint, twins)
}

/// The partners of functions as the joint table wants them.
fn partners(alloc: Global, functions: &FunctionPairs) -> Result<FunctionPartners, AllocError>
    ensures { IfOk result (λ partners. partners_in partners ≡ record { of_old = functions.now.of_old; of_new = functions.now.of_new }) }
{
    Ok(FunctionPartners {
        of_old: Items::from_slice(alloc, functions.of_old.as_slice())?,
        of_new: Items::from_slice(alloc, functions.of_new.as_slice())?,
    })
}

// ---- objects of functions that can call themselves

/// The name of the first owner of an object that lies on a cycle of the calls of both files.
fn name_on_cycle(
    alloc: Global,
    functions: &FunctionPairs,
    joint: &JointPrograms,
) -> Result<Option<Name>, AllocError>
    requires { ArePartnersOf functions.now.of_new (length joint.now.old.functions) }
    ensures { IfOk result (λ found. MatchOption found (IsOffCycles functions.now joint.now) (λ name. IsOnCycleOf functions.now joint.now name)) }
{
    let old = joint.old.functions.as_slice();
    let new = joint.new_side.functions.as_slice();
    let owners = owner_nodes(
        alloc,
        functions.of_new.as_slice(),
        old.len(),
        joint.old.table.objects.as_slice(),
        joint.new_side.table.objects.as_slice(),
    )?;
    let node = match owner_on_cycle(alloc, old, new, functions, owners.as_slice())? {
        Some(node) => node,
        None => return Ok(None),
    };
    match node_name(old, new, node) {
        Some(name) => Ok(Some(Name::new(alloc, name.bytes())?)),
        None => Err(AllocError),
    }
}

/// The owner of each object of the joint table, as a node of the calls of both files.
fn owner_nodes(
    alloc: Global,
    of_new: &[Option<u32>],
    old_count: usize,
    old: &[Object],
    new: &[Object],
) -> Result<Vec<Option<u32>>, AllocError>
    ensures { IfOk result (λ nodes. nodes.items ≡ spec.owner_nodes of_new.now old_count old.now new.now) }
{
    let mut nodes = Vec::new(alloc);
    let mut left = old;
    let mut right = new;
    'objects: while let Some((a, more)) = left.split_first() {
        match right.split_first() {
            None => return Ok(nodes),
            Some((b, others)) => {
                let node = owner_node(of_new, old_count, a.owner, b.owner)?;
                nodes.push(node)?;
                left = more;
                right = others;
            }
        }
    }
    Ok(nodes)
}

fn owner_node(
    of_new: &[Option<u32>],
    old_count: usize,
    old: Option<u32>,
    new: Option<u32>,
) -> Result<Option<u32>, AllocError>
    ensures { IfOk result (λ node. node ≡ spec.owner_node of_new.now old_count old new) }
{
    match (old, new) {
        (Some(f), _) => Ok(Some(f)),
        (None, Some(g)) => {
            // There is no memory for more.
            if old_count > (u32::MAX - g) as usize {
                return Err(AllocError);
            }
            Ok(Some(new_node(of_new, old_count, g)))
        }
        (None, None) => Ok(None),
    }
}

/// The answer where a function of this name owns an object and can call itself.
fn on_cycle(alloc: Global, name: &Name) -> Result<Answer, AllocError>
    ensures status { IfOk result (λ answer. answer.status ≡ 3) }
    ensures lines { IfOk result (λ answer. answer.lines.items ≡ spec.cycle_said name.now) }
    ensures shaped { IfOk result (λ answer. All IsLine answer.lines.items) }
{
    if !is_one_line(name.bytes()) {
        return Err(AllocError);
    }
    let text = b": address of a local on a call cycle of the two files";
    one_line(alloc, 3, name.bytes(), text)
}

// ---- the report

/// The report on two joint programs.
fn reported(
    alloc: Global,
    functions: &FunctionPairs,
    joint: &JointPrograms,
    twins: Option<Pairing>,
) -> Result<Answer, AllocError>
    requires own { joint.now.pairing.functions ≡ functions.now.of_old }
    requires twins { IfSome twins (λ found. AreTwinsOver joint.now found) }
    ensures reports { IfOk result (λ answer. IsReportAmong twins functions.now joint.now answer.status answer.lines.items) }
    ensures shaped { IfOk result (λ answer. All IsLine answer.lines.items) }
{
    let (old, new) = (
        joint.old.functions.as_slice(),
        joint.new_side.functions.as_slice(),
    );
    if !are_plain(old) || !are_plain(new) {
        return Err(AllocError);
    }
    let twins = match twins {
        None => None,
        Some(twins) => Some(loop_twins(alloc, joint, twins)?),
    };
    let (lines, status) = report(alloc, functions, joint, &twins)?;
    Ok(Answer { status, lines })
}

/// Whether the functions can be counted, and no name of them has a line end. It is so in each file that is read.
fn are_plain(functions: &[Function]) -> bool
    ensures few { IsTrue result → length functions.now ≤ 2 ^ 32 }
    ensures names { IsTrue result → All (λ function. All (λ byte. byte ≢ 10) function.name) functions.now }
{
    functions.len() <= 1 << 32
        && functions
            .iter()
            .all(|function| is_one_line(function.name.bytes()))
}
