//! What the lines of a grammar are made of, and what reading by them gives.

/// What reading a token changes besides the place.
#[derive(Clone, Copy, Debug, PartialEq, Eq)]
pub enum Effect {
    Nothing,
    /// It opens a level.
    Opens,
    /// It is a name that becomes a typedef name at the next `Turn::Learn`.
    Declares,
}

/// What changes between two tokens.
#[derive(Clone, Copy, Debug, PartialEq, Eq)]
pub enum Turn {
    /// The declared names are typedef names from here on.
    Learn,
    /// A part begins, at whose end as many levels are open as here.
    Enter,
    /// The part ends.
    Leave,
}

/// A part of a line's alternative, over a grammar's classes of tokens, lines and actions.
#[derive(Clone, Copy, Debug, PartialEq, Eq)]
pub enum Symbol<C, L, A> {
    /// A token of the class.
    Token(C, Effect),
    /// What the line reads.
    Line(L),
    /// Reads nothing, and is told.
    Make(A),
    Turn(Turn),
    /// The next token isn't of this class.
    NotNext(C),
}

/// A token, as far as a grammar sees it.
#[derive(Clone, Copy, Debug, PartialEq, Eq)]
pub struct Token<C> {
    pub class: C,
    /// The number of the name, where the token is one. Equal names have equal numbers.
    pub name: u32,
}

/// One step of reading.
#[derive(Clone, Copy, Debug, PartialEq, Eq)]
pub enum Step<A> {
    /// The next token is taken: the k-th such step is for the k-th token.
    Token,
    /// An action is met.
    Make(A),
}
