//! What a C file becomes: a typed program, or the first rule that it breaks (C 6.3 to 6.9).
#![tactic(auto)]

mod addresses;
mod elaborations;
mod flags;
mod functions;
mod last_rules;
mod object_tables;
mod objects;
mod programs;
mod refusals;
mod structs;

pub use elaborations::elaborate;
