//! The twins of two files over their joint table.
#![tactic(auto)]

mod checks;
mod files;
mod tables;
mod twins;

pub use files::are_joinable;
pub use twins::{JointTwins, joint_twins};
