//! Registers and cells made of literals.
#![tactic(auto)]

mod copies;
pub mod laws;
mod merging;
mod store;

pub use copies::copy_value;
pub use merging::{merge, merge_value};
pub use store::SymStore;
