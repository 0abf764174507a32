//! What a run of a program has still to do: tasks, and which tasks do an expression or an act.
#![tactic(auto)]

mod acts;
mod blocks;
mod expressions;
mod manners;
mod tasks;
mod work;

pub use manners::Manner;
pub use tasks::{Binary, Part, Task, Unary};
pub use work::{Work, put};
