//! Branches, groups and loops: which tasks do them (C 6.8.4, 6.8.5).
#![tactic(auto)]

mod branches;
mod groups;
mod loops;

pub use branches::{begin_if, begin_if_else, branch, rest};
pub use groups::{begin_switch, leave_switch, select};
pub use loops::{after_round, begin_loop, decide, last, test};
