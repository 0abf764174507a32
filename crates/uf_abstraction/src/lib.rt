//! Applications of unknown functions: one for each call whose end is left open.
#![tactic(auto)]

mod answers;
mod applications;
mod congruence;
mod copies;
mod fresh;
pub mod laws;
mod names;
mod pointers;

pub use answers::{Answer, AnswerShape};
pub use applications::Applications;
pub use names::{EntryName, PairSet};
