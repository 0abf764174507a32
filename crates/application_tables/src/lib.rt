//! The tables that applications of unknown functions make, and the applications that a table realizes.
#![tactic(auto)]

pub mod laws;
