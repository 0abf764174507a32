//! What a running program keeps: its locals, its store, and the places in them.
#![tactic(auto)]

mod calls;
mod cells;
mod extents;
mod frames;
pub mod laws;
mod layouts;
mod locals;
mod locations;
mod objects;
mod owners;
mod ranges;
mod rows;
mod saving;
mod starts;

pub use cells::Cells;
pub use layouts::Layouts;
pub use locations::Location;
pub use saving::Saved;
