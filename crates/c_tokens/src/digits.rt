//! The digits of a base, and the number that they make.

ghost use Rattle.std.specs.Prelude.{◌≡◌, ◌≤◌, length};
ghost use Rattle.std.specs.List.{prefix_len};
ghost use Rattle.c_tokens.specs.Digits as digits;

use crate::bytes::is_digit;

/// How a number is written.
#[derive(Clone, Copy, Debug, PartialEq, Eq)]
pub enum Base {
    Octal,
    Decimal,
    Hexadecimal,
}

pub fn radix(base: Base) -> u8
    ensures { result ≡ digits.radix base }
{
    match base {
        Base::Octal => 8,
        Base::Decimal => 10,
        Base::Hexadecimal => 16,
    }
}

/// `0` to `9`, `a` to `f` or `A` to `F`; 16 for a byte that is no digit.
pub fn digit_value(byte: u8) -> u8
    ensures { result ≡ digits.digit_value byte }
{
    if is_digit(byte) {
        byte - b'0'
    } else if b'a' <= byte && byte <= b'f' {
        byte - b'a' + 10
    } else if b'A' <= byte && byte <= b'F' {
        byte - b'A' + 10
    } else {
        16
    }
}

pub fn is_digit_of(base: Base, byte: u8) -> bool
    ensures { result ≡ digits.is_digit_of base byte }
{
    digit_value(byte) < radix(base)
}

/// How many digits of the base stand at the front.
pub fn digits_length(base: Base, text: &[u8]) -> usize
    ensures count { result ≡ prefix_len (digits.is_digit_of base) text.now }
    ensures within { result ≤ length text.now }
{
    let mut length = 0;
    while length < text.len() && is_digit_of(base, text[length]) {
        length += 1;
    }
    length
}

/// The number that the digits make, where it has at most 64 bits.
pub fn digits_value(base: Base, text: &[u8]) -> Option<u64>
    ensures { result ≡ digits.value_in_64_bits base text.now }
{
    let mut value: u64 = 0;
    'digits: for byte in text {
        let next = u128::from(value) * u128::from(radix(base)) + u128::from(digit_value(*byte));
        if next > 0xffff_ffff_ffff_ffff {
            return None;
        }
        value = next as u64;
    }
    Some(value)
}
