//! What names stand for (C 6.2.3).

use rvt_num::{Kind, Num};
use rvt_tree::CType;

/// What a base, a pointer and a typedef name can name.
#[derive(Debug, Drop)]
pub enum NamedType {
    /// `void`
    NoValue,
    /// A type that values have.
    Type(CType),
    /// A pointer to `void`, to a pointer or to an array.
    PointerElsewhere,
}

/// A type, and whether it is `const`.
#[derive(Debug, Drop)]
pub struct QualifiedType {
    pub named: NamedType,
    pub constant: bool,
}

/// What a name stands for.
#[derive(Debug, Drop)]
pub enum Entity {
    /// A local or a parameter by its number in the function, its type, and whether it is `const`.
    Local(u32, CType, bool),
    /// An object at file scope by its number in the table, its type, and whether it is `const`.
    Object(u32, CType, bool),
    /// A function by its number, the types of its parameters, and the kind of its result; no kind for `void`.
    Function(u32, Vec<CType>, Option<Kind>),
    /// A constant of an enum, or one that is built in.
    Constant(Num),
    /// `NULL`
    Null,
    Typedef(QualifiedType),
}

/// What a tag stands for (C 6.7.2.3).
#[derive(Clone, Copy, Debug, PartialEq, Eq)]
pub enum Tagged {
    /// A struct by its number.
    Struct(u32),
    Enum,
}
