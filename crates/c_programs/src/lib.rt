//! From the bytes of a C file to its program, or to the first refusal of it.
#![tactic(auto)]

mod reader;
mod texts;

pub use c_source::{Refusal, Refused};
pub use reader::read_program;
pub use texts::refusal_text;
