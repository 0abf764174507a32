//! The types of declarators, and initializers (C 6.7.6, 6.7.9).
#![tactic(auto)]

mod contents;
mod declarators;
mod initializers;
mod lengths;
mod members;
mod shapes;
mod sorts;
mod values;

pub use contents::contents_of;
pub use declarators::{declared_type, type_of_declarator};
pub use initializers::{Asked, typed_initializer};
pub use lengths::{counted, values_in};
pub use members::{member_of, size_of};
pub use sorts::Sort;
pub use values::{ValueType, adjusted, result_kind, value_type};
