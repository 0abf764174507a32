//! The arguments of a call that the command line gives: what each word means for its parameter, and the contents with which a file begins.
#![tactic(auto)]

mod arguments;
mod contents;
pub mod laws;
mod numbers;
mod pointers;

pub use arguments::{Arguments, argument_value, argument_values};
pub use contents::first_contents;
