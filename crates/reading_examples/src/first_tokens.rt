use c_tokens::{Keyword, NoToken, Punctuator, TokenClass, first_token};
use rvt_num::{Kind, Num};
use std::test::Fail;

fn begins(text: &[u8], class: TokenClass, length: usize) -> bool {
    if text.is_empty() {
        return false;
    }
    match first_token(text) {
        Ok(front) => front.class == class && front.length == length,
        Err(_) => false,
    }
}

fn begins_none(text: &[u8], why: NoToken) -> bool {
    if text.is_empty() {
        return false;
    }
    match first_token(text) {
        Ok(_) => false,
        Err(other) => other == why,
    }
}

fn is_constant(text: &[u8], kind: Kind, value: i128) -> bool {
    begins(
        text,
        TokenClass::Constant(Num::wrapped(kind, value)),
        text.len(),
    )
}

fn is_character(text: &[u8], value: i128) -> bool {
    begins(
        text,
        TokenClass::Character(Num::wrapped(Kind::I32, value)),
        text.len(),
    )
}

#[test]
fn the_longest_token_counts(rt: HostRuntime) -> Result<(), Fail> {
    assert!(rt; begins(b"int8 x", TokenClass::Word, 4));
    assert!(rt; begins(b"int;", TokenClass::Keyword(Keyword::Int), 3));
    assert!(rt; begins(b"<<==", TokenClass::Punct(Punctuator::ShiftLeftEqual), 3));
    assert!(rt; begins(b"+++", TokenClass::Punct(Punctuator::Increment), 2));
    assert!(rt; begins_none(b"$", NoToken::BadByte(0)));
    Ok(())
}

// The types that gcc gives them on a 64-bit machine (`_Generic`).
#[test]
fn kinds_of_constants(rt: HostRuntime) -> Result<(), Fail> {
    assert!(rt; is_constant(b"2147483647", Kind::I32, 2147483647));
    assert!(rt; is_constant(b"2147483648", Kind::I64, 2147483648));
    assert!(rt; is_constant(b"0x80000000", Kind::U32, 2147483648));
    assert!(rt; is_constant(b"017777777777", Kind::I32, 2147483647));
    assert!(rt; is_constant(b"4294967295u", Kind::U32, 4294967295));
    assert!(rt; is_constant(b"4294967296U", Kind::U64, 4294967296));
    assert!(rt; is_constant(b"0x8000000000000000", Kind::U64, 9223372036854775808));
    assert!(rt; is_constant(b"0xfFfFfFfFfFfFfFfF", Kind::U64, 18446744073709551615));
    assert!(rt; is_constant(b"1l", Kind::I64, 1));
    assert!(rt; is_constant(b"1lu", Kind::U64, 1));
    assert!(rt; is_constant(b"1LLU", Kind::U64, 1));
    Ok(())
}

#[test]
fn bad_numbers(rt: HostRuntime) -> Result<(), Fail> {
    assert!(rt; begins_none(b"9223372036854775808", NoToken::BadNumber));
    assert!(rt; begins_none(b"0x10000000000000000", NoToken::BadNumber));
    assert!(rt; begins_none(b"08", NoToken::BadNumber));
    assert!(rt; begins_none(b"0x", NoToken::BadNumber));
    assert!(rt; begins_none(b"1lul", NoToken::BadNumber));
    assert!(rt; begins_none(b"1lL", NoToken::BadNumber));
    assert!(rt; begins_none(b"1.5", NoToken::BadNumber));
    assert!(rt; begins_none(b"1e5", NoToken::BadNumber));
    Ok(())
}

// The values that gcc gives them on x86-64.
#[test]
fn characters(rt: HostRuntime) -> Result<(), Fail> {
    assert!(rt; is_character(b"'a'", 97));
    assert!(rt; is_character(b"'\\xff'", -1));
    assert!(rt; is_character(b"'\\x000041'", 65));
    assert!(rt; is_character(b"'\\377'", -1));
    assert!(rt; is_character(b"'\\0'", 0));
    assert!(rt; is_character(b"'\\''", 39));
    assert!(rt; is_character(b"'\"'", 34));
    assert!(rt; is_character(b"'\\n'", 10));
    assert!(rt; begins_none(b"'\\400'", NoToken::BadCharacter));
    assert!(rt; begins_none(b"'\\q'", NoToken::BadCharacter));
    assert!(rt; begins_none(b"'ab'", NoToken::BadCharacter));
    assert!(rt; begins_none(b"''", NoToken::BadCharacter));
    assert!(rt; begins_none(b"'''", NoToken::BadCharacter));
    assert!(rt; begins_none(b"'a\n'", NoToken::BadCharacter));
    Ok(())
}

#[test]
fn literals(rt: HostRuntime) -> Result<(), Fail> {
    assert!(rt; begins(b"\"\" x", TokenClass::Literal, 2));
    assert!(rt; begins(b"\"a\\\"b\\\\\" \"", TokenClass::Literal, 8));
    assert!(rt; begins_none(b"\"a\x80\"", NoToken::BadByte(2)));
    assert!(rt; begins_none(b"\"a\x80", NoToken::BadByte(0)));
    assert!(rt; begins_none(b"\"a\n\"", NoToken::BadByte(0)));
    Ok(())
}
