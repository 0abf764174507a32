//! What expressions, type names and actions become when they are typed (C 6.5, 6.6, 6.7.7, 6.8.3).
#![tactic(auto)]

mod acts;
mod chains;
mod conditions;
mod expressions;
mod first_tokens;
mod prefixes;
mod sizes;
mod type_names;

pub use acts::typed_action;
pub use conditions::{condition, constant_of_kind, value_as};
pub use expressions::{constant, lengths, operand, typed};
pub use first_tokens::{array_name, ends_of, first_token};
pub use prefixes::prefixed;
pub use sizes::{size_of_operand, size_of_type};
pub use type_names::{base_type, pointed};
