//! Structs (C 6.7.2.1).

use rvt_num::Kind;
use rvt_tree::{CType, Name};

/// A field of a struct: its number, and the cell at which it begins.
#[derive(Debug, Drop)]
pub struct Field {
    pub name: Name,
    pub ty: CType,
    pub number: u32,
    pub cell: u32,
}

/// A struct. Its cells are counted once it is complete.
#[derive(Debug, Drop)]
pub struct Structure {
    /// The tag, or the name of the typedef that stands for it.
    pub tag: Name,
    /// False where the tag is the name of a typedef.
    pub tagged: bool,
    pub fields: Vec<Field>,
    pub cells: Option<u32>,
    /// The kinds of its cells, in order.
    pub contents: Vec<Kind>,
}
