//! The tokens of a C file (C 6.4), each the longest at its place; comments, includes, line markers and defines are read.
#![tactic(auto)]

mod comments;
mod defines;
mod faults;
mod lexer;
mod lines;
mod pieces;
mod spots;
mod starts;
mod tokens;

pub use faults::{Cause, Fault};
pub use lexer::lex;
pub use tokens::{Place, Token, Tokens};
