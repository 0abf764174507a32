// A parsing machine: it reads tokens by a grammar that is data, one token of look-ahead at a time.
#![tactic(auto)]

mod choose;
mod fault;
mod grammar;
mod machine;
mod names;
mod state;
mod symbol;

pub use fault::{Cause, Fault};
pub use grammar::Grammar;
pub use machine::parse;
pub use symbol::{Effect, Step, Symbol, Token, Turn};
