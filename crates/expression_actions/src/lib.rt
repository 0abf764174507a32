//! What each action on expressions and types makes of what was read before it.
#![tactic(auto)]

mod both_stacks;
mod faults;
mod half_bases;
mod kept_tokens;
mod nodes;
mod operand_stacks;
mod token_words;
mod type_stacks;

pub use both_stacks::Expressions;
pub use faults::{Fault, Missing, take};
pub use half_bases::HalfBase;
pub use kept_tokens::{Kept, word};
pub use operand_stacks::Operands;
pub use token_words::{infix_of, prefix_of, setting_of, step_of, type_word_of};
pub use type_stacks::Types;
