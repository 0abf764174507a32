//! What small C files become when they are typed, or where they are refused.
#![tactic(auto)]

#[cfg(test)]
mod tests;
