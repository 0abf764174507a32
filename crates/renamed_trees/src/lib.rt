//! Trees in which each variable stands under another name: the objects that locals are, and other numbers of objects.
#![tactic(auto)]

mod actions;
mod expressions;
mod initializers;
mod statements;
mod turned;
mod variables;

pub use statements::rename;
pub use variables::Renaming;
