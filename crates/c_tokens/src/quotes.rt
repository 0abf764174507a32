//! Character constants (C 6.4.4.4) and string literals (C 6.4.5).

ghost use Rattle.std.specs.Prelude.{◌≡◌, ◌<◌, ◌≤◌, false, length, map, IfSome};
ghost use Rattle.std.specs.List.{prefix_len};
ghost use Rattle.c_tokens.specs.Bytes as bytes;
ghost use Rattle.c_tokens.specs.Quotes as quotes;
ghost use Rattle.c_tokens.specs.Tables.{escape_of};

use crate::bytes::is_text_byte;
use crate::digits::{Base, digits_length, digits_value, is_digit_of};
use crate::tables::{ESCAPES, written_so};
use rvt_num::{Kind, Num};

/// How many bytes there are up to the next such quote that no backslash escapes, with it, where it stands on the same
/// line.
pub fn to_quote(quote: u8, text: &[u8]) -> Option<usize>
    ensures found { result ≡ quotes.to_quote quote false text.now }
    ensures some { IfSome result (λ n. 0 < n) }
    ensures within { IfSome result (λ n. n ≤ length text.now) }
{
    let mut is_escaped = false;
    let mut length = 0;
    while length < text.len() {
        let byte = text[length];
        if byte == b'\n' {
            return None;
        }
        if byte == quote && !is_escaped {
            return Some(length + 1);
        }
        is_escaped = byte == b'\\' && !is_escaped;
        length += 1;
    }
    None
}

/// How many bytes at the front may stand outside comments.
pub fn text_length(text: &[u8]) -> usize
    ensures count { result ≡ prefix_len bytes.is_text_byte text.now }
    ensures within { result ≤ length text.now }
{
    let mut length = 0;
    while length < text.len() && is_text_byte(text[length]) {
        length += 1;
    }
    length
}

/// The byte that stands between two quotes.
pub fn one_character(inner: &[u8]) -> Option<u8>
    ensures { result ≡ quotes.one_character inner.now }
{
    match inner {
        [b'\\', escape @ ..] => escaped_value(escape),
        [byte] => { if is_plain(*byte) { Some(*byte) } else { None } }
        _ => None,
    }
}

fn is_plain(byte: u8) -> bool
    ensures { result ≡ quotes.is_plain byte }
{
    is_text_byte(byte) && !(byte == b'\'' || byte == b'\\' || byte == b'\n')
}

/// What the bytes behind a backslash stand for.
fn escaped_value(escape: &[u8]) -> Option<u8>
    ensures { result ≡ quotes.escaped_value escape.now }
{
    match escape {
        [] => None,
        [first, digits @ ..] => {
            if *first == b'x' {
                return byte_value(Base::Hexadecimal, digits);
            }
            if !is_digit_of(Base::Octal, *first) {
                return escape_of(escape);
            }
            if digits.len() > 2 {
                return None;
            }
            byte_value(Base::Octal, escape)
        }
    }
}

fn escape_of(escape: &[u8]) -> Option<u8>
    ensures { result ≡ escape_of escape.now }
{
    written_so(&ESCAPES, escape)
}

/// The number of one digit or more that is at most 255.
fn byte_value(base: Base, digits: &[u8]) -> Option<u8>
    ensures { result ≡ quotes.byte_value base digits.now }
{
    if digits.is_empty() {
        return None;
    }
    if digits_length(base, digits) < digits.len() {
        return None;
    }
    match digits_value(base, digits) {
        Some(value) => {
            if value > 255 {
                return None;
            }
            Some(value as u8)
        }
        None => None,
    }
}

/// The `int` that equals a signed `char` of these bits.
pub fn char_number(value: u8) -> Num
    ensures { result ≡ quotes.char_number value }
{
    let char = Num::wrapped(Kind::I8, i128::from(value));
    Num::wrapped(Kind::I32, char.value())
}
