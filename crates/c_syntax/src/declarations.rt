//! Declarations (C 6.7).

use crate::bases::{Base, Pointer, Word};
use crate::expressions::{Dims, Expr};
use rvt_tree::Place;
use sqlite_items::Items;

/// What is declared (C 6.7.6).
#[derive(Drop)]
pub struct Declarator {
    pub pointer: Option<Pointer>,
    pub word: Word,
    pub dims: Dims,
}

/// An initializer (C 6.7.9).
#[cycle(initializer)]
#[derive(Drop)]
pub enum Value {
    Expr(Expr),
    /// Those in braces, at the `{`.
    Braces(Place, Box<Values>),
}

#[cycle(initializer)]
pub enum Values {
    End,
    More(Value, Box<Values>),
}

// A loop, so that a long list does not run out of stack.
impl Drop for Values {
    #[cycle(initializer)]
    fn drop(mut self) {
        loop {
            match self {
                Values::End => return,
                Values::More(_, rest) => self = Box::into_inner(rest),
            }
        }
    }
}

/// A declarator, and its initializer if it has one.
#[derive(Drop)]
pub struct Init {
    pub declarator: Declarator,
    pub value: Option<Value>,
}

/// A declaration in a block.
#[derive(Drop)]
pub struct Declaration {
    pub base: Base,
    pub inits: Items<Init>,
}

/// One line of a struct's fields.
#[derive(Drop)]
pub struct Field {
    pub base: Base,
    pub declarators: Items<Declarator>,
}

/// One constant of an enum, and its value if it is given.
#[derive(Drop)]
pub struct Enumerator {
    pub word: Word,
    pub value: Option<Expr>,
}

/// What stands in the braces of a struct or an enum.
#[derive(Drop)]
pub enum Body {
    Fields(Items<Field>),
    Enumerators(Items<Enumerator>),
}

/// The base of an item, which alone may have braces.
#[derive(Drop)]
pub struct ItemBase {
    pub base: Base,
    pub body: Option<Body>,
}

#[derive(Drop)]
pub struct Param {
    pub base: Base,
    pub pointer: Option<Pointer>,
    pub word: Option<Word>,
    pub dims: Dims,
}

/// What stands in the parentheses of a function's declarator.
#[derive(Drop)]
pub enum Params {
    /// `()`
    Nothing,
    /// `(void)`
    Void,
    List(Items<Param>),
}
