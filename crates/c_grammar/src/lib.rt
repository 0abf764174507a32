//! The grammar of C, and the only steps by which the tokens of a file are read by it.
#![tactic(auto)]

mod classes;
mod fault;
mod grammar;
pub mod laws;
mod names;
mod reader;
mod terminals;

pub use classes::class_of;
pub use fault::{Cause, Fault};
pub use grammar::{Action, CGrammar, Class, Line};
pub use reader::steps;
pub use terminals::text;
