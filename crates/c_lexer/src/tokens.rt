//! What a file is cut into.

use c_tokens::TokenClass;

/// A place in a file: both numbers count from 1, a column is a byte.
#[derive(Clone, Copy, Debug, PartialEq, Eq)]
pub struct Place {
    pub line: usize,
    pub column: usize,
}

/// A token, whose text stands in the file's bytes from `start` to before `end`, and which is met at the place. Where a
/// define put it there, its text is in the define, and the place is that of the name.
#[derive(Clone, Copy, Debug, PartialEq, Eq)]
pub struct Token {
    pub class: TokenClass,
    pub start: usize,
    pub end: usize,
    pub place: Place,
}

/// The tokens of a file, and the place behind its last byte.
#[derive(Drop)]
pub struct Tokens {
    pub list: Vec<Token>,
    pub end: Place,
}
