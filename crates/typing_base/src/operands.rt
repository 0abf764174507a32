//! What an expression is (C 6.3.2.1).

use rvt_num::Kind;
use rvt_tree::{CType, Expr, Exprs, Lvalue, Pointee};

/// The type of a place, where the element type of an array is lent.
#[derive(Clone, Copy, Debug)]
pub enum PlaceType<'t> {
    Word(Kind),
    /// A pointer, and whether it is one to `const`.
    Pointer(Pointee, bool),
    /// The type of the elements, and how many there are.
    Array(&'t CType, u32),
    /// A struct by its number.
    Struct(u32),
}

#[derive(Drop)]
pub enum Operand<'t> {
    /// An lvalue: its type, and whether what it names is `const`.
    Place(PlaceType<'t>, bool, Lvalue),
    /// An integer, and whether it is a constant token of value 0, which may become a null pointer.
    Integer(Kind, Expr, bool),
    /// A pointer, and whether it is one to `const`.
    Pointer(Pointee, bool, Expr),
    /// `NULL`
    Null,
    /// The call of a function without a result.
    Void(u32, Exprs),
}
