//! Reading a C file.
#![tactic(auto)]

mod reader;
mod refused;

pub use reader::read;
pub use refused::{Refusal, Refused};
