// A small grammar of declarations and lists, by which the parsing machine is proved at a type and tested.
#![tactic(auto)]

mod grammar;
mod reading;

pub use grammar::{Action, Class, Line, Lists};
pub use reading::read_lists;

#[cfg(test)]
mod tests;
