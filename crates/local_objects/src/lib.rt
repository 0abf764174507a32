//! Locals whose address is taken: which object each is, and a body in which each stands as that.
#![tactic(auto)]

mod actions;
mod expressions;
mod initializers;
mod statements;
mod tables;
mod turned;
mod variables;

pub use statements::resolve;
pub use tables::{has_room, objects_of_locals};
