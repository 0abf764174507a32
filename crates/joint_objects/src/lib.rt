//! The joint table of two files: which objects stand in it, in which order, and which object of either file each is.
//!
//! What the table is stands in specs/JointObjects.
#![tactic(auto)]

mod arrays;
mod declarations;
mod found;
mod globals;
mod joint;
mod keys;
pub mod laws;
mod locals;
mod names;
mod objects;
mod refusals;
mod sides;
mod structs;
mod tallies;
mod types;

pub use found::Found;
pub use globals::matched_globals;
pub use joint::joint_table;
pub use locals::matched_locals;
pub use names::{NamePair, pairs_from_new, pairs_from_old};
pub use objects::{Element, JointObject, Origin};
pub use refusals::{line_of_unlike, line_without_global};
pub use sides::FunctionPartners;
pub use structs::struct_partners;
