//! The words of the command line: which command they are, or that they are none.
#![tactic(auto)]

mod commands;
pub mod laws;
mod lines;
mod numbers;
mod options;
mod texts;

pub use commands::{Command, Comparison, FunctionRun, read_words};
