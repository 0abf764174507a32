//! The items of a file in order: what they declare, and the functions that they define (C 6.9).
#![tactic(auto)]

mod bases;
mod bodies;
mod definitions;
mod headers;
mod items;
mod locals;
mod parameters;

pub use definitions::{typed_definition, typed_prototype};
pub use headers::{Header, typed_header};
pub use items::{all_items, typed_item, typed_items};
pub use parameters::Parameter;
