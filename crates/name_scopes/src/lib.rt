//! The names in scope, with what each one stands for.
#![tactic(auto)]

mod places;
mod scopes;
mod texts;

pub use scopes::Scopes;

#[cfg(test)]
mod tests;
