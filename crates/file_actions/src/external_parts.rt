//! What was read of items.

ghost use Rattle.std.specs.Prelude.{◌≡◌};
ghost use Rattle.file_actions.specs.Stacks.{no_externals};
ghost use Rattle.file_actions.specs.Shown.{externals_shown};

use c_syntax::{Body, Enumerator, Field, Item, Param, Params};
use std::alloc::Global;
use value_stack::Stack;

/// What was read of items and has no place in a tree yet, and the items.
#[derive(Drop)]
pub struct Externals {
    pub fields: Vec<Field>,
    pub enumerators: Vec<Enumerator>,
    /// What stands in the braces of the item's base.
    pub body: Option<Body>,
    pub params: Vec<Param>,
    pub lists: Stack<Params>,
    pub items: Vec<Item>,
}

impl Externals {
    /// Before the first token.
    pub fn new(alloc: Global) -> Externals
        ensures { externals_shown result ≡ no_externals }
    {
        Externals {
            fields: Vec::new(alloc),
            enumerators: Vec::new(alloc),
            body: None,
            params: Vec::new(alloc),
            lists: Stack::new(alloc),
            items: Vec::new(alloc),
        }
    }
}
