//! The words of a line.

ghost use Rattle.std.specs.Prelude.{◌≡◌, Some, map};
ghost use Rattle.c_tokens.specs.Tables.{written_so};
ghost use Rattle.version_map.specs.Words as spec;

use c_tokens::{TokenClass, first_token, is_digit};
use rvt_num::Kind;

/// Whether the text is a name of C and no keyword.
pub fn is_name(text: &[u8]) -> bool
    ensures { result ≡ spec.is_name text.now }
{
    if text.is_empty() {
        return false;
    }
    match first_token(text) {
        Ok(front) => front.length == text.len() && is_word(front.class),
        Err(_) => false,
    }
}

fn is_word(class: TokenClass) -> bool
    ensures { result ≡ spec.is_word (Some class) }
{
    match class {
        TokenClass::Word => true,
        _ => false,
    }
}

const KINDS: [(&[u8], Kind); 9] = [
    (b"bool", Kind::Bool),
    (b"i8", Kind::I8),
    (b"u8", Kind::U8),
    (b"i16", Kind::I16),
    (b"u16", Kind::U16),
    (b"i32", Kind::I32),
    (b"u32", Kind::U32),
    (b"i64", Kind::I64),
    (b"u64", Kind::U64),
];

/// The kind that has this name.
pub fn kind_of(text: &[u8]) -> Option<Kind>
    ensures { result ≡ spec.kind_of text.now }
{
    kind_in(&KINDS, text)
}

fn kind_in(mut table: &[(&[u8], Kind)], text: &[u8]) -> Option<Kind>
    ensures { result ≡ written_so (map (λ entry. (entry.0.now, entry.1)) table.entry.now) text.now }
{
    while let [entry, rest @ ..] = table {
        if entry.0 == text {
            return Some(entry.1);
        }
        table = rest;
    }
    None
}

/// A number from 1 to 4096 without leading zeros.
pub fn count_of(text: &[u8]) -> Option<u32>
    ensures { result ≡ spec.count_of text.now }
{
    match text {
        [] | [b'0', ..] => None,
        _ => count_in(text),
    }
}

#[tactic(auto, using(crate::proofs::WordLemmas::too_large))]
fn count_in(text: &[u8]) -> Option<u32>
    ensures { result ≡ spec.count_from 0 text.now }
{
    let mut value: u32 = 0;
    let mut rest = text;
    'digits: while let [byte, more @ ..] = rest {
        if !is_digit(*byte) || value > 4096 {
            return None;
        }
        value = 10 * value + (*byte - b'0') as u32;
        rest = more;
    }
    if 1 <= value && value <= 4096 {
        Some(value)
    } else {
        None
    }
}
