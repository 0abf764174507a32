//! Initializers: which tasks give their cells (C 6.7.9).
#![tactic(auto)]

mod filling;
mod zeros;

pub use filling::{fill, fill_members};
pub use zeros::pad;
