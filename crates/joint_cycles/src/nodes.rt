//! The nodes of the joint calls: the functions of the old file, and behind them those of the new one.

ghost use Rattle.std.specs.Prelude.{◌≡◌, ◌+◌, ◌<◌, ◌^◌};
ghost use Rattle.std.specs.Option.{option_copied};
ghost use Rattle.joint_cycles.specs.JointCalls.{new_node as node_of_new, node_name, name_at};

use rvt_tree::{Function, Name};

/// The node of a function of the new file, by the partners of the functions there.
pub fn new_node(of_new: &[Option<u32>], old_count: usize, number: u32) -> u32
    requires { old_count + number < 2 ^ 32 }
    ensures { result ≡ node_of_new of_new.now old_count number }
{
    match of_new.get(number as usize) {
        Some(Some(partner)) => *partner,
        _ => old_count as u32 + number,
    }
}

/// The name of a node: that of the function of the old file, where it has one there.
pub fn node_name<'a>(old: &'a [Function], new: &'a [Function], node: u32) -> Option<&'a Name>
    ensures { option_copied result ≡ node_name old.now new.now node }
{
    let number = node as usize;
    match old.get(number) {
        Some(f) => Some(&f.name),
        None => name_behind(new, number - old.len()),
    }
}

fn name_behind(functions: &[Function], number: usize) -> Option<&Name>
    ensures { option_copied result ≡ name_at functions.now number }
{
    match functions.get(number) {
        Some(f) => Some(&f.name),
        None => None,
    }
}
