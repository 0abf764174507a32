//! Integer constants (C 6.4.4.1).

ghost use Rattle.std.specs.Prelude.{◌≡◌, map, pos};
ghost use Rattle.rvt_num.specs.Wrapping.{wrapped};
ghost use Rattle.c_tokens.specs.Constants as constants;
ghost use Rattle.c_tokens.specs.Tables.{suffix_of};

use crate::digits::{Base, digits_length, digits_value};
use crate::tables::{SUFFIXES, written_so};
use rvt_num::{Kind, Num};

/// What stands behind the digits.
#[derive(Clone, Copy, Debug, PartialEq, Eq)]
pub enum Suffix {
    Plain,
    Unsigned,
    Long,
    UnsignedLong,
}

/// The number of an integer constant.
pub fn constant(text: &[u8]) -> Option<Num>
    ensures { result ≡ constants.constant_of text.now }
{
    let base = base_of(text);
    written_in(base, after_prefix(base, text))
}

/// Hexadecimal after `0x` or `0X`, octal after another `0`, else decimal.
fn base_of(text: &[u8]) -> Base
    ensures { result ≡ constants.base_of text.now }
{
    if text.starts_with(b"0x") || text.starts_with(b"0X") {
        return Base::Hexadecimal;
    }
    if text.starts_with(b"0") {
        return Base::Octal;
    }
    Base::Decimal
}

fn after_prefix(base: Base, text: &[u8]) -> &[u8]
    ensures { result.now ≡ constants.after_prefix base text.now }
{
    match base {
        Base::Octal | Base::Decimal => text,
        Base::Hexadecimal => {
            if text.len() < 2 {
                return &[];
            }
            &text[2..]
        }
    }
}

/// The number of digits of the base, and then a suffix.
fn written_in(base: Base, text: &[u8]) -> Option<Num>
    ensures { result ≡ constants.written_in base text.now }
{
    let length = digits_length(base, text);
    if length == 0 {
        return None;
    }
    let Some(suffix) = suffix_of(&text[length..]) else {
        return None;
    };
    let Some(value) = digits_value(base, &text[..length]) else {
        return None;
    };
    match first_holding(kinds_for(base, suffix), value) {
        Some(kind) => Some(number(kind, value)),
        None => None,
    }
}

fn number(kind: Kind, value: u64) -> Num
    ensures { result ≡ wrapped kind (pos value) }
{
    Num::wrapped(kind, i128::from(value))
}

fn suffix_of(text: &[u8]) -> Option<Suffix>
    ensures { result ≡ suffix_of text.now }
{
    written_so(&SUFFIXES, text)
}

const ANY: [Kind; 4] = [Kind::I32, Kind::U32, Kind::I64, Kind::U64];

const ANY_LONG: [Kind; 2] = [Kind::I64, Kind::U64];

const SIGNED: [Kind; 2] = [Kind::I32, Kind::I64];

const SIGNED_LONG: [Kind; 1] = [Kind::I64];

const UNSIGNED: [Kind; 2] = [Kind::U32, Kind::U64];

const UNSIGNED_LONG: [Kind; 1] = [Kind::U64];

/// The kinds that a constant may have, in the order in which they are tried.
fn kinds_for(base: Base, suffix: Suffix) -> &'static [Kind]
    ensures { result.now ≡ constants.kinds_for base suffix }
{
    match (base, suffix) {
        (Base::Decimal, Suffix::Plain) => &SIGNED,
        (Base::Decimal, Suffix::Long) => &SIGNED_LONG,
        (_, Suffix::Plain) => &ANY,
        (_, Suffix::Long) => &ANY_LONG,
        (_, Suffix::Unsigned) => &UNSIGNED,
        (_, Suffix::UnsignedLong) => &UNSIGNED_LONG,
    }
}

/// Whether the number is one of the kind.
fn holds(kind: Kind, value: u64) -> bool
    ensures { result ≡ constants.holds kind value }
{
    let bits = if kind.is_signed() {
        kind.width() - 1
    } else {
        kind.width()
    };
    u128::from(value) < 1 << bits
}

fn first_holding(mut kinds: &[Kind], value: u64) -> Option<Kind>
    ensures { result ≡ constants.first_holding kinds.entry.now value }
{
    while let [kind, rest @ ..] = kinds {
        if holds(*kind, value) {
            return Some(*kind);
        }
        kinds = rest;
    }
    None
}
