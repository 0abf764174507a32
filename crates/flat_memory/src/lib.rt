//! The cells of a running program in arrays whose lengths are fixed before it runs: its objects, and the locals of all activations.
#![tactic(auto)]

mod entries;
mod extents;
mod locals;
mod objects;
mod ranges;

pub use entries::EntryLocals;
pub use locals::Locals;
pub use objects::Objects;
