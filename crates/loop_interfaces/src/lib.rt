//! The loops of a function, and the interface of each: the locals from outside it that it names.
#![tactic(auto)]

mod declared;
mod interfaces;
mod locals;
mod loops;
mod named;

pub use interfaces::{LoopInterface, loop_interfaces, loop_numbers};
pub use locals::{local_at, name_at};
