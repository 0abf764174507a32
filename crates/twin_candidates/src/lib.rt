//! What twins may be among: pairs without constants whose contents changed, and without functions that may touch one through a pointer.
#![tactic(auto)]

mod contents;
mod functions;
mod marks;
mod pairs;
mod types;

pub use pairs::candidates;
