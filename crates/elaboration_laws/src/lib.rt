//! What holds of the definition of typing: a file has one answer at most, and breaks the rule that its first wrong phrase breaks.
#![tactic(auto)]

pub mod laws;
