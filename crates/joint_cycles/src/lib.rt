//! The calls of two files in which paired functions are one, and owners of objects on their cycles.
#![tactic(auto)]

mod cycles;
mod graphs;
mod nodes;
mod owners;

pub use cycles::on_joint_cycles;
pub use nodes::{new_node, node_name};
pub use owners::owner_on_cycle;
