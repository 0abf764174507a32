//! Tokens that are kept for a later action.

ghost use Rattle.std.specs.Prelude.{◌≡◌, IfOk};
ghost use Rattle.expression_actions.specs.Stacks as spec;

use c_syntax::Word;
use c_tokens::TokenClass;
use rvt_tree::{Name, Place};
use std::alloc::{AllocError, Global};

/// A token that was read: its name if it is one, and its place.
#[derive(Drop)]
pub struct Kept {
    pub class: TokenClass,
    pub word: Word,
}

/// A name of this text.
pub fn word(alloc: Global, text: &[u8], place: Place) -> Result<Word, AllocError>
    ensures { IfOk result (λ it. it ≡ spec.word_at text.now place) }
{
    Ok(Word {
        name: Name::new(alloc, text)?,
        place,
    })
}

fn is_name(class: TokenClass) -> bool
    ensures { result ≡ spec.is_name class }
{
    match class {
        TokenClass::Word => true,
        TokenClass::Keyword(_) => false,
        TokenClass::Constant(_) => false,
        TokenClass::Character(_) => false,
        TokenClass::Literal => false,
        TokenClass::Punct(_) => false,
    }
}

impl Kept {
    /// A token of this text; only a name's text is kept.
    pub fn new(
        alloc: Global,
        class: TokenClass,
        text: &[u8],
        place: Place,
    ) -> Result<Kept, AllocError>
        ensures { IfOk result (λ it. it ≡ spec.kept_token class text.now place) }
    {
        let name = is_name(class);
        let word = word(alloc, if name { text } else { b"" }, place)?;
        Ok(Kept { class, word })
    }
}
