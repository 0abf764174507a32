// Chains of resolutions, done on a table of marks: each step reads the cited clause alone.
#![tactic(auto)]

mod listing;
mod marked;
mod table;

pub use marked::MarkedClause;
