//! The layout of a type: its cells in order, and which values begin where.
#![tactic(auto)]

mod copies;
mod faults;
mod layouts;
mod plans;
mod sizes;

pub use faults::TypeFault;
pub use layouts::layout;
