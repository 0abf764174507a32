//! Statements (C 6.8).

use crate::declarations::Declaration;
use crate::expressions::Expr;
use crate::operators::{Setting, Step};
use rvt_tree::Place;
use sqlite_items::Items;

/// What an expression statement or a part of a `for` header does (C 6.8.3).
#[derive(Drop)]
pub enum Act {
    Evaluate(Expr),
    /// `(void) e`, at the `(`.
    Discard(Place, Expr),
    /// `a = b`, at the operator.
    Assign(Setting, Place, Expr, Expr),
    /// `a++`, at the operator.
    StepAfter(Step, Place, Expr),
    /// `++a`, at the operator.
    StepBefore(Step, Place, Expr),
}

/// The first part of a `for` header.
#[derive(Drop)]
pub enum Start {
    Nothing,
    Local(Declaration),
    Acts(Items<Act>),
}

/// A label of a `switch`, at its word.
#[derive(Drop)]
pub enum Label {
    Case(Place, Expr),
    Default(Place),
}

/// A statement, at its first token where that is a word, a brace or a semicolon.
#[cycle(statement)]
#[derive(Drop)]
pub enum Stmt {
    Block(Place, Box<Parts>),
    Empty(Place),
    Act(Act),
    Break(Place),
    Continue(Place),
    Return(Place),
    ReturnValue(Place, Expr),
    If(Place, Expr, Box<Stmt>),
    IfElse(Place, Expr, Box<Stmt>, Box<Stmt>),
    While(Place, Expr, Box<Stmt>),
    Do(Place, Box<Stmt>, Expr),
    /// The parts of the header, and the body.
    For(Place, Start, Option<Expr>, Items<Act>, Box<Stmt>),
    Switch(Place, Expr, Box<Groups>),
}

/// A part of a block.
#[cycle(statement)]
#[derive(Drop)]
pub enum Part {
    Local(Declaration),
    Stmt(Stmt),
}

#[cycle(statement)]
pub enum Parts {
    End,
    More(Part, Box<Parts>),
}

// A loop, so that a long list does not run out of stack.
impl Drop for Parts {
    #[cycle(statement)]
    fn drop(mut self) {
        loop {
            match self {
                Parts::End => return,
                Parts::More(_, rest) => self = Box::into_inner(rest),
            }
        }
    }
}

/// Labels of a `switch` and what stands under them, again and again.
#[cycle(statement)]
pub enum Groups {
    End,
    More(Items<Label>, Parts, Box<Groups>),
}

// A loop, so that a long list does not run out of stack.
impl Drop for Groups {
    #[cycle(statement)]
    fn drop(mut self) {
        loop {
            match self {
                Groups::End => return,
                Groups::More(_, _, rest) => self = Box::into_inner(rest),
            }
        }
    }
}

/// Labels of a `switch`, and what stands under them.
#[derive(Drop)]
pub struct Group {
    pub labels: Items<Label>,
    pub parts: Parts,
}
