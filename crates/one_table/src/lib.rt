//! Two files over one table of objects: whether they have one, and the twins among their functions.
#![tactic(auto)]

mod names;
mod pairs;
mod sets;
mod tables;

pub use names::{find, number_of, numbers};
pub use pairs::candidates;
pub use sets::twins;
pub use tables::same_tables;

#[cfg(test)]
mod tests;
