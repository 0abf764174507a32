//! The code of a construct does what the construct means.
#![tactic(auto)]

pub mod laws;
