//! The texts of refusals.

ghost use Rattle.std.specs.Prelude.{◌≡◌, ◌++◌, IfOk};
ghost use Rattle.c_programs.specs.Texts as spec;

use rvt_tree::Name;
use std::alloc::{AllocError, Global};

/// What a refusal says, by the number of its cause and its word.
pub fn refusal_text(alloc: Global, cause: u16, word: &[u8]) -> Result<Name, AllocError>
    ensures { IfOk result (λ text. text ≡ spec.refusal_text cause word.now) }
{
    if cause == 11 {
        return unexpected(alloc, word);
    }
    if cause == 13 {
        return joined(alloc, b"not in the profile: ", word);
    }
    if cause == 31 {
        return joined(alloc, b"unknown name ", word);
    }
    if cause == 32 {
        return joined(alloc, word, b" declared twice");
    }
    if cause == 37 {
        return joined(alloc, word, b" has no body");
    }
    Name::new(alloc, plain_text(cause))
}

/// The token can't stand there, or the file can't end there.
fn unexpected(alloc: Global, word: &[u8]) -> Result<Name, AllocError>
    ensures { IfOk result (λ text. text ≡ spec.unexpected word.now) }
{
    if word.is_empty() {
        return Name::new(alloc, b"unexpected end of file");
    }
    joined(alloc, b"unexpected ", word)
}

/// The text of a cause that has no word.
fn plain_text(cause: u16) -> &'static [u8]
    ensures { result.now ≡ spec.plain_text cause }
{
    match cause {
        1 => b"bad byte",
        2 => b"comment not closed",
        3 => b"bad number",
        4 => b"bad character constant",
        5 => b"directive not in the profile",
        6 => b"bad define",
        7 => b"too many tokens",
        12 => b"nested too deep",
        21 => b"incomplete type",
        22 => b"more than 4096 cells",
        33 => b"wrong type",
        34 => b"wrong number of arguments",
        35 => b"write to const",
        36 => b"address of a local on a call cycle",
        38 => b"limit",
        39 => b"constant expression wanted",
        40 => b"not in the profile",
        _ => b"",
    }
}

/// Two pieces as one text.
fn joined(alloc: Global, first: &[u8], second: &[u8]) -> Result<Name, AllocError>
    ensures { IfOk result (λ text. text ≡ first.now ++ second.now) }
{
    let mut text = Vec::from_slice(alloc, first)?;
    text.extend_from_slice(second)?;
    Name::new(alloc, &text)
}
