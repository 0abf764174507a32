// Clauses over numbered variables, logs of resolutions, and the resolution step itself.
#![tactic(auto)]

mod clause;
mod numbered;
mod replay;
mod resolution;
mod variables;

pub use clause::{Clause, Clauses, Log, LogLine, Memory, variable};
pub use numbered::clause_at;
pub use replay::Replay;
pub use resolution::resolve;
pub use variables::{GREATEST_VARIABLE, is_clause, largest_variable};

#[cfg(test)]
mod tests;
