//! Examples of applications of unknown functions. There are tests alone.
#![tactic(auto)]

#[cfg(test)]
mod tests;
