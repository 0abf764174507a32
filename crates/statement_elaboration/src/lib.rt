//! What statements and the declarations in blocks become when they are typed (C 6.7, 6.8).
#![tactic(auto)]

mod acts;
mod blocks;
mod copies;
mod declarations;
mod forms;
mod groups;
mod jumps;
mod labels;
mod operands;
mod seen_labels;
mod statements;
mod switches;

pub use blocks::Block;
pub use declarations::typed_declaration;
pub use statements::{typed_items, typed_statement};
