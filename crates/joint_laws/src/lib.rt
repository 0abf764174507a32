//! Laws of the joint programs of two files.
#![tactic(auto)]

pub mod laws;
