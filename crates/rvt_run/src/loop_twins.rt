//! The twins of two joint programs whose loops are twins too.

ghost use Rattle.std.specs.Prelude.{◌↔◌, IfOk, IsTrue, OnOk, slice_get};
ghost use Rattle.joint_twins.specs.Twins.{AreTwinsOver};
ghost use Rattle.rvt_run.specs.LoopTwins.{AreNamedSo, HaveOneNaming, AreNamedAlike, AreLoopTwins, KeepsNamedAlike};

use joint_programs::JointPrograms;
use loop_interfaces::{loop_interfaces, name_at};
use rvt_tree::{Function, Pairing, Program};
use std::alloc::{AllocError, Global};
use twin_check::closed_twins;

/// The greatest closed set of twins whose loops stand on locals of the same names, by the greatest closed set of twins.
pub fn loop_twins(
    alloc: Global,
    joint: &JointPrograms,
    twins: Pairing,
) -> Result<Pairing, AllocError>
    requires { AreTwinsOver joint.now twins }
    ensures { IfOk result (λ found. AreLoopTwins joint.now found) }
{
    let mut twins = twins;
    take_out_renamed(alloc, &joint.old, &joint.new_side, &mut twins)?;
    Ok(closed_twins(&joint.old, &joint.new_side, twins))
}

/// Takes out each pair of functions in which a local of the interface of a loop has two names.
fn take_out_renamed(
    alloc: Global,
    old: &Program,
    new: &Program,
    pairing: &mut Pairing,
) -> Result<(), AllocError>
    ensures { OnOk result (KeepsNamedAlike old.now new.now pairing.old pairing.new) }
{
    'functions: for f in 0..pairing.functions.len() {
        let g = match pairing.functions.get(f) {
            Some(Some(g)) => *g,
            _ => continue,
        };
        if are_named_alike(alloc, old, new, f, g as usize)? {
            continue;
        }
        pairing.functions.set(f, None);
    }
    Ok(())
}

fn are_named_alike(
    alloc: Global,
    old: &Program,
    new: &Program,
    f: usize,
    g: usize,
) -> Result<bool, AllocError>
    ensures { IfOk result (λ alike. IsTrue alike ↔ AreNamedAlike (slice_get old.now.functions f) (slice_get new.now.functions g)) }
{
    let Some(function) = old.functions.get(f) else {
        return Ok(false)
    };
    let Some(other) = new.functions.get(g) else {
        return Ok(false)
    };
    let alike = have_one_naming(alloc, function, other)?;
    Ok(alike)
}

fn have_one_naming(alloc: Global, f: &Function, g: &Function) -> Result<bool, AllocError>
    ensures { IfOk result (λ alike. IsTrue alike ↔ HaveOneNaming f.now g.now) }
{
    let loops = loop_interfaces(alloc, f)?;
    let mut left = loops.as_slice();
    'loops: while let Some((interface, more)) = left.split_first() {
        if !are_named_so(f, g, interface.locals.as_slice()) {
            return Ok(false);
        }
        left = more;
    }
    Ok(true)
}

/// Whether each of these locals has one name in both functions.
fn are_named_so(f: &Function, g: &Function, locals: &[u32]) -> bool
    ensures { IsTrue result ↔ AreNamedSo f.now g.now locals.now }
{
    let mut left = locals;
    'locals: while let Some((local, more)) = left.split_first() {
        if name_at(f, *local) != name_at(g, *local) {
            return false;
        }
        left = more;
    }
    true
}
