//! Expressions (C 6.5) and the types that are named in them.

use crate::bases::{Base, Pointer, Word};
use crate::operators::{Infix, Prefix};
use rvt_num::Num;
use rvt_tree::Place;

/// An expression. The place of an operator is that of its token, that of a bracket is where it opens.
#[cycle(expression)]
#[derive(Drop)]
pub enum Expr {
    Name(Word),
    /// An integer constant.
    Constant(Num, Place),
    /// A character constant.
    Character(Num, Place),
    Call(Word, Box<Exprs>),
    /// `(e)`
    Paren(Place, Box<Expr>),
    /// A primary expression, and what follows it, **the last suffix first**, so that a long chain nests nowhere.
    Postfix(Box<Expr>, Box<Suffixes>),
    Unary(Prefix, Place, Box<Expr>),
    /// Casts, the first one first, and the expression after the last one.
    Cast(Box<Casts>, Box<Expr>),
    /// `sizeof e`
    SizeofExpr(Place, Box<Expr>),
    /// `sizeof (T)`: the parts of the type's name.
    SizeofType(Place, Base, Option<Pointer>, Box<Dims>),
    Binary(Infix, Place, Box<Expr>, Box<Expr>),
    /// `a ? b : c`, at its `?`.
    Conditional(Place, Box<Expr>, Box<Expr>, Box<Expr>),
}

/// The arguments of a call, in order.
#[cycle(expression)]
pub enum Exprs {
    End,
    More(Expr, Box<Exprs>),
}

// A loop, so that a long list does not run out of stack.
impl Drop for Exprs {
    #[cycle(expression)]
    fn drop(mut self) {
        loop {
            match self {
                Exprs::End => return,
                Exprs::More(_, rest) => self = Box::into_inner(rest),
            }
        }
    }
}

/// What follows a primary expression (C 6.5.2), the last first.
#[cycle(expression)]
pub enum Suffixes {
    End,
    /// `[i]`, at its `[`.
    Index(Place, Expr, Box<Suffixes>),
    /// `.f`, at its `.`.
    Dot(Place, Word, Box<Suffixes>),
    /// `->f`, at its `->`.
    Arrow(Place, Word, Box<Suffixes>),
}

// A loop, so that a long list does not run out of stack.
impl Drop for Suffixes {
    #[cycle(expression)]
    fn drop(mut self) {
        loop {
            match self {
                Suffixes::End => return,
                Suffixes::Index(_, _, rest) => self = Box::into_inner(rest),
                Suffixes::Dot(_, _, rest) => self = Box::into_inner(rest),
                Suffixes::Arrow(_, _, rest) => self = Box::into_inner(rest),
            }
        }
    }
}

/// Casts that follow one another, each at its `(`, with the parts of the type's name.
#[cycle(expression)]
pub enum Casts {
    End,
    More(Place, Base, Option<Pointer>, Dims, Box<Casts>),
}

// A loop, so that a long list does not run out of stack.
impl Drop for Casts {
    #[cycle(expression)]
    fn drop(mut self) {
        loop {
            match self {
                Casts::End => return,
                Casts::More(_, _, _, _, rest) => self = Box::into_inner(rest),
            }
        }
    }
}

/// One dimension of an array, at its `[`.
#[cycle(expression)]
#[derive(Drop)]
pub enum Dim {
    /// `[]`
    Open(Place),
    /// `[n]`
    Size(Place, Expr),
}

/// The dimensions of an array, in order; of what is no array, none.
#[cycle(expression)]
pub enum Dims {
    End,
    More(Dim, Box<Dims>),
}

// A loop, so that a long list does not run out of stack.
impl Drop for Dims {
    #[cycle(expression)]
    fn drop(mut self) {
        loop {
            match self {
                Dims::End => return,
                Dims::More(_, rest) => self = Box::into_inner(rest),
            }
        }
    }
}

/// A type that is named in an expression (C 6.7.7).
#[derive(Drop)]
pub struct TypeName {
    pub base: Base,
    pub pointer: Option<Pointer>,
    pub dims: Dims,
}
