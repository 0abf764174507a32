use c_lexer::{Cause, Fault, Place, Token, lex};
use c_tokens::{Keyword, Punctuator, TokenClass};
use rvt_num::{Kind, Num};
use std::alloc::Global;
use std::test::Fail;

fn token(class: TokenClass, start: usize, end: usize, line: usize, column: usize) -> Token {
    Token {
        class,
        start,
        end,
        place: Place { line, column },
    }
}

fn constant(value: i128) -> TokenClass {
    TokenClass::Constant(Num::wrapped(Kind::I32, value))
}

// Counted by hand.
#[test]
fn tokens_of_a_short_file(rt: HostRuntime) -> Result<(), Fail> {
    let alloc = rt.alloc();
    let wanted = [
        token(TokenClass::Keyword(Keyword::Int), 0, 3, 1, 1),
        token(TokenClass::Word, 4, 5, 1, 5),
        token(TokenClass::Punct(Punctuator::LeftParen), 5, 6, 1, 6),
        token(TokenClass::Keyword(Keyword::Int), 6, 9, 1, 7),
        token(TokenClass::Word, 10, 11, 1, 11),
        token(TokenClass::Punct(Punctuator::RightParen), 11, 12, 1, 12),
        token(TokenClass::Punct(Punctuator::LeftBrace), 13, 14, 1, 14),
        token(TokenClass::Keyword(Keyword::Return), 17, 23, 2, 3),
        token(TokenClass::Word, 24, 25, 2, 10),
        token(TokenClass::Punct(Punctuator::LessEqual), 26, 28, 2, 12),
        token(constant(10), 29, 31, 2, 15),
        token(TokenClass::Punct(Punctuator::Semicolon), 31, 32, 2, 17),
        token(TokenClass::Punct(Punctuator::RightBrace), 33, 34, 3, 1),
    ];
    let Ok(tokens) = lex(alloc, b"int f(int n) {\n  return n <= 10;\n}\n") else {
        return Err(Fail::from("refused"));
    };
    assert_eq!(rt; tokens.list.len(), wanted.len());
    for (got, token) in tokens.list.iter().zip(&wanted) {
        assert!(rt; got == token);
    }
    Ok(())
}

fn is_refused(alloc: Global, bytes: &[u8], line: usize, column: usize, cause: Cause) -> bool {
    match lex(alloc, bytes) {
        Ok(_) => false,
        Err(fault) => fault == Fault::Refused(Place { line, column }, cause),
    }
}

#[test]
fn bad_numbers(rt: HostRuntime) -> Result<(), Fail> {
    let alloc = rt.alloc();
    assert!(rt; is_refused(alloc, b"x = 08;", 1, 5, Cause::BadNumber));
    assert!(rt; is_refused(alloc, b"\n 1.5", 2, 2, Cause::BadNumber));
    assert!(rt; is_refused(alloc, b"f(12ab)", 1, 3, Cause::BadNumber));
    assert!(rt;
        is_refused(
            alloc,
            b"int f(int a) { return 08; }",
            1,
            23,
            Cause::BadNumber
        )
    );
    assert!(rt; is_refused(alloc, b"99999999999999999999999", 1, 1, Cause::BadNumber));
    assert!(rt; is_refused(alloc, b"1...", 1, 1, Cause::BadNumber));
    Ok(())
}

#[test]
fn bad_bytes(rt: HostRuntime) -> Result<(), Fail> {
    let alloc = rt.alloc();
    assert!(rt; is_refused(alloc, b"a$b", 1, 2, Cause::BadByte));
    assert!(rt; is_refused(alloc, b"int\r\n\tx\0", 2, 3, Cause::BadByte));
    assert!(rt; is_refused(alloc, b"a \\\n", 1, 3, Cause::BadByte));
    assert!(rt; is_refused(alloc, b"+\x80", 1, 2, Cause::BadByte));
    Ok(())
}

// The longest token counts (C 6.4): `x+++++y` is `x ++ ++ + y`, and `<<==` is `<<=` and `=`.
#[test]
fn the_longest_token_counts(rt: HostRuntime) -> Result<(), Fail> {
    let alloc = rt.alloc();
    let wanted = [
        token(TokenClass::Word, 0, 1, 1, 1),
        token(TokenClass::Punct(Punctuator::Increment), 1, 3, 1, 2),
        token(TokenClass::Punct(Punctuator::Increment), 3, 5, 1, 4),
        token(TokenClass::Punct(Punctuator::Plus), 5, 6, 1, 6),
        token(TokenClass::Word, 6, 7, 1, 7),
        token(TokenClass::Punct(Punctuator::ShiftLeftEqual), 8, 11, 1, 9),
        token(TokenClass::Punct(Punctuator::Equal), 11, 12, 1, 12),
        token(TokenClass::Punct(Punctuator::Dot), 13, 14, 1, 14),
        token(constant(5), 14, 15, 1, 15),
        token(TokenClass::Word, 16, 20, 1, 17),
        token(constant(2147483647), 21, 31, 1, 22),
    ];
    let Ok(tokens) = lex(alloc, b"x+++++y <<== .5 int8 2147483647") else {
        return Err(Fail::from("refused"));
    };
    assert_eq!(rt; tokens.list.len(), wanted.len());
    for (got, token) in tokens.list.iter().zip(&wanted) {
        assert!(rt; got == token);
    }
    Ok(())
}

/// Whether both files have tokens of the same classes.
fn reads_as(alloc: Global, file: &[u8], other: &[u8]) -> bool {
    let Ok(tokens) = lex(alloc, file) else {
        return false;
    };
    let Ok(wanted) = lex(alloc, other) else {
        return false;
    };
    if tokens.list.len() != wanted.list.len() {
        return false;
    }
    for (got, token) in tokens.list.iter().zip(&wanted.list) {
        if got.class != token.class {
            return false;
        }
    }
    true
}

// A comment counts as a space, and no line of one is a directive.
#[test]
fn comments(rt: HostRuntime) -> Result<(), Fail> {
    let alloc = rt.alloc();
    assert!(rt; reads_as(alloc, b"a/* \xff # \" * / \n#if */b// /* $\nc", b"a b c"));
    assert!(rt; reads_as(alloc, b"/**/a/***/b/*/ */c//", b"a b c"));
    assert!(rt; is_refused(alloc, b"a\n /* b", 2, 2, Cause::CommentNotClosed));
    assert!(rt; is_refused(alloc, b"/*/", 1, 1, Cause::CommentNotClosed));
    assert!(rt; is_refused(alloc, b"/* \n */ #define N 1\n", 2, 5, Cause::BadByte));
    Ok(())
}

#[test]
fn directives_that_are_taken(rt: HostRuntime) -> Result<(), Fail> {
    let alloc = rt.alloc();
    assert!(rt;
        reads_as(
            alloc,
            b"#include <stdint.h>\n \t#\tinclude/**/<stdbool.h>//\n# include <stddef.h>",
            b""
        )
    );
    assert!(rt; reads_as(alloc, b"# 1 \"a/*.c\" \\ \n#12z\na", b"a"));
    assert!(rt;
        reads_as(
            alloc,
            b"#define N ( /*x*/ (-1) ) // y\nN+ N1",
            b"((-1)) + N1"
        )
    );
    assert!(rt; reads_as(alloc, b"#define N 1\n#define/**/N/**/1\nN", b"1"));
    assert!(rt; reads_as(alloc, b"N\n#define N 1\nN // N\n", b"N 1"));
    assert!(rt;
        reads_as(
            alloc,
            b"#define include 1\n#include <stdint.h>\ninclude",
            b"1"
        )
    );
    Ok(())
}

#[test]
fn directives_that_are_refused(rt: HostRuntime) -> Result<(), Fail> {
    let alloc = rt.alloc();
    assert!(rt; is_refused(alloc, b"\n  #if", 2, 3, Cause::BadDirective));
    assert!(rt; is_refused(alloc, b"#", 1, 1, Cause::BadDirective));
    assert!(rt; is_refused(alloc, b"#include <stdio.h>", 1, 1, Cause::BadDirective));
    assert!(rt; is_refused(alloc, b"#include <stdint.h> x", 1, 1, Cause::BadDirective));
    assert!(rt; is_refused(alloc, b"#include < stdint.h>", 1, 1, Cause::BadDirective));
    assert!(rt; is_refused(alloc, b"#include \"stdint.h\"", 1, 1, Cause::BadDirective));
    assert!(rt;
        is_refused(
            alloc,
            b"#include <stdint.h> /* \n */",
            1,
            1,
            Cause::BadDirective
        )
    );
    assert!(rt; is_refused(alloc, b"#/**/1", 1, 1, Cause::BadDirective));
    assert!(rt; is_refused(alloc, b"#define", 1, 1, Cause::BadDirective));
    assert!(rt; is_refused(alloc, b"#define 3 4", 1, 1, Cause::BadDirective));
    assert!(rt; is_refused(alloc, b"#define N 08 /*\n*/", 1, 1, Cause::BadDirective));
    assert!(rt; is_refused(alloc, b"# 1 \x80", 1, 5, Cause::BadByte));
    assert!(rt; is_refused(alloc, b"a #define N 1", 1, 3, Cause::BadByte));
    Ok(())
}

#[test]
fn defines_that_are_refused(rt: HostRuntime) -> Result<(), Fail> {
    let alloc = rt.alloc();
    assert!(rt; is_refused(alloc, b" #define int 1", 1, 2, Cause::BadDefine));
    assert!(rt; is_refused(alloc, b"#define SIZE_MAX 1", 1, 1, Cause::BadDefine));
    assert!(rt; is_refused(alloc, b"#define N", 1, 1, Cause::BadDefine));
    assert!(rt; is_refused(alloc, b"#define N(x) 1", 1, 1, Cause::BadDefine));
    assert!(rt; is_refused(alloc, b"#define N-1", 1, 1, Cause::BadDefine));
    assert!(rt; is_refused(alloc, b"#define N ((1)", 1, 1, Cause::BadDefine));
    assert!(rt; is_refused(alloc, b"#define N -(1)", 1, 1, Cause::BadDefine));
    assert!(rt; is_refused(alloc, b"#define N 1 \\", 1, 1, Cause::BadDefine));
    assert!(rt; is_refused(alloc, b"#define M 1\n#define N M", 2, 1, Cause::BadDefine));
    assert!(rt; is_refused(alloc, b"#define N 1\n#define N (1)", 2, 1, Cause::BadDefine));
    Ok(())
}

#[test]
fn quotes(rt: HostRuntime) -> Result<(), Fail> {
    let alloc = rt.alloc();
    assert!(rt; reads_as(alloc, b"#define N ('/') /* */\nN", b"('/')"));
    assert!(rt; is_refused(alloc, b"a\n 'ab'", 2, 2, Cause::BadCharacter));
    assert!(rt; is_refused(alloc, b"#define N '/*'", 1, 1, Cause::BadDefine));
    assert!(rt; is_refused(alloc, b"#define N \"/*\"", 1, 1, Cause::BadDefine));
    assert!(rt; is_refused(alloc, b"\n \"ab\x01\"", 2, 5, Cause::BadByte));
    assert!(rt; is_refused(alloc, b"\"ab\n\"", 1, 1, Cause::BadByte));
    Ok(())
}

// Each token of a body is met at the place of the name.
#[test]
fn places_of_a_body(rt: HostRuntime) -> Result<(), Fail> {
    let alloc = rt.alloc();
    let wanted = [
        token(TokenClass::Punct(Punctuator::Minus), 10, 11, 2, 3),
        token(constant(7), 12, 13, 2, 3),
        token(TokenClass::Punct(Punctuator::Semicolon), 17, 18, 2, 4),
    ];
    let Ok(tokens) = lex(alloc, b"#define N - 7\n  N;") else {
        return Err(Fail::from("refused"));
    };
    assert_eq!(rt; tokens.list.len(), wanted.len());
    assert!(rt; tokens.end == Place { line: 2, column: 5 });
    for (got, token) in tokens.list.iter().zip(&wanted) {
        assert!(rt; got == token);
    }
    Ok(())
}

/// Adds a byte so many times.
fn push_all(file: &mut Vec<u8>, byte: u8, count: usize) -> Result<(), Fail> {
    for _ in 0..count {
        file.push(byte)?;
    }
    Ok(())
}

// 200,000 tokens are read, and no more: a define of 20,000 tokens, ten times.
#[test]
fn the_most_tokens(rt: HostRuntime) -> Result<(), Fail> {
    let alloc = rt.alloc();
    let mut file = Vec::from_slice(alloc, b"#define N ")?;
    push_all(&mut file, b'(', 9_999)?;
    file.push(b'-')?;
    file.push(b'1')?;
    push_all(&mut file, b')', 9_999)?;
    for _ in 0..10 {
        file.push(b'\n')?;
        file.push(b'N')?;
    }
    assert!(rt; lex(alloc, &file).is_ok());
    file.push(b' ')?;
    file.push(b'$')?;
    assert!(rt; is_refused(alloc, &file, 11, 3, Cause::BadByte));
    file.pop();
    file.push(b';')?;
    assert!(rt; is_refused(alloc, &file, 11, 3, Cause::TooManyTokens));
    Ok(())
}
