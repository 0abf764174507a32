//! Files (C 6.9).

use crate::bases::Word;
use crate::declarations::{Declarator, Init, ItemBase, Params};
use crate::statements::Stmt;
use sqlite_items::Items;

#[derive(Drop)]
pub enum Item {
    Typedef(ItemBase, Items<Declarator>),
    /// A base alone, for its struct or enum.
    Base(ItemBase),
    Objects(ItemBase, Items<Init>),
    Prototype(ItemBase, Word, Params),
    /// A function with its body, which is a block.
    Function(ItemBase, Word, Params, Stmt),
}

#[derive(Drop)]
pub struct File {
    pub items: Items<Item>,
}
