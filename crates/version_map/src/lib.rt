//! The map between two versions of a file: which functions and globals belong together under different names, and which arrays are added.
#![tactic(auto)]

mod drafts;
pub mod laws;
mod lines;
mod map;
mod names;
mod reader;
mod texts;
mod words;

pub use map::{Added, Listed, Map, MapFault};
pub use reader::read_map;

#[cfg(test)]
mod tests;
