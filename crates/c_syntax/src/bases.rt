//! What stands at the front of a declaration: its specifiers and qualifiers (C 6.7).

use rvt_tree::{Name, Place};
use sqlite_items::Items;

/// A name, and where it stands.
#[derive(Debug, Drop)]
pub struct Word {
    pub name: Name,
    pub place: Place,
}

/// A word that names a type or a part of one (C 6.7.2).
#[derive(Clone, Copy, Debug, PartialEq, Eq)]
pub enum TypeWord {
    Void,
    Char,
    Short,
    Int,
    Long,
    Signed,
    Unsigned,
    Bool,
}

/// Which type it is (C 6.7.2).
#[derive(Debug, Drop)]
pub enum Specifier {
    /// Type words, in their order.
    Words(Items<TypeWord>),
    /// The name of a typedef.
    Named(Word),
    /// A struct, with its tag if it has one.
    Struct(Option<Word>),
    /// An enum, with its tag if it has one.
    Enum(Option<Word>),
}

/// A type, whether `const` stands anywhere in it, and the place of its first token.
#[derive(Debug, Drop)]
pub struct Base {
    pub place: Place,
    pub constant: bool,
    pub specifier: Specifier,
}

/// The `*` of a declarator, and whether `const` follows it.
#[derive(Clone, Copy, Debug, PartialEq, Eq)]
pub struct Pointer {
    pub place: Place,
    pub constant: bool,
}
