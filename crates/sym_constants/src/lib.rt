//! Values that are the same under every assignment, and tests of numbers against them.
#![tactic(auto)]

mod constants;
pub mod laws;
mod numbers;

pub use constants::{constant, zero};
pub use numbers::test;
