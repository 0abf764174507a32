//! Examples of the operations on words. There are tests alone.
#![tactic(auto)]

#[cfg(test)]
mod tests;
