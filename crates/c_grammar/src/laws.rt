//! Laws of tokens as the grammar sees them. The functions do nothing: each carries a law as its contract.

ghost use Rattle.c_grammar.specs.Terminals.{AreNumbered};

use c_lexer::Token;

/// Two words have the same number exactly where they have the same text.
pub fn names_are_numbered(_bytes: &[u8], _tokens: &[Token])
    ensures { AreNumbered _bytes.now _tokens.now }
{}
