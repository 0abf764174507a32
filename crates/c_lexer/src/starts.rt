//! What stands first in a text: white space, a comment or a token.

ghost use Rattle.std.specs.Prelude.{◌≡◌, ◌<◌, ◌≤◌, None, length, IfOk, IfErr, IfSome};
ghost use Rattle.c_lexer.specs.Starts as spec;
ghost use Rattle.c_lexer.specs.declared.starts.Start.TheVariants as start;
ghost use Rattle.c_lexer.specs.Starts.{StandsFirst, IsWrong};

use crate::faults::{Cause, Wrong, no_token};
use c_tokens::{TokenClass, first_token, is_space};

/// What a text begins with.
#[derive(Clone, Copy, Debug, PartialEq, Eq)]
pub enum Start {
    Space,
    LineComment,
    BlockComment,
    /// A token, if anything.
    Token,
}

/// White space or a comment, or a token of this class.
#[derive(Clone, Copy)]
pub struct First {
    pub length: usize,
    pub class: Option<TokenClass>,
}

/// What stands first in the text, or what is wrong.
pub fn first_of(text: &[u8]) -> Result<First, Wrong>
    requires { 0 < length text.now }
    ensures stands { IfOk result (λ first. StandsFirst text.now first.length first.class) }
    ensures some { IfOk result (λ first. 0 < first.length) }
    ensures within { IfOk result (λ first. first.length ≤ length text.now) }
    ensures wrong { IfErr result (IsWrong text.now) }
{
    match start_of(text) {
        Start::Space => Ok(gap(1)),
        Start::LineComment => Ok(gap(line_length(text))),
        Start::BlockComment => match comment_length(text) {
            Some(length) => Ok(gap(length)),
            None => Err(Wrong {
                offset: 0,
                cause: Cause::CommentNotClosed,
            }),
        },
        Start::Token => token(text),
    }
}

/// White space or a comment of this length.
fn gap(length: usize) -> First
    ensures { result ≡ record { length = length; class = None } }
{
    First {
        length,
        class: None,
    }
}

/// The token that stands first, where neither white space nor a comment does.
fn token(text: &[u8]) -> Result<First, Wrong>
    requires some { 0 < length text.now }
    requires start { spec.start_of text.now ≡ start.Token }
    ensures stands { IfOk result (λ first. StandsFirst text.now first.length first.class) }
    ensures some { IfOk result (λ first. 0 < first.length) }
    ensures within { IfOk result (λ first. first.length ≤ length text.now) }
    ensures wrong { IfErr result (IsWrong text.now) }
{
    match first_token(text) {
        Ok(front) => Ok(First {
            length: front.length,
            class: Some(front.class),
        }),
        Err(why) => Err(no_token(why)),
    }
}

pub fn begins_byte(text: &[u8], byte: u8) -> bool
    ensures { result ≡ spec.begins_byte byte text.now }
{
    match text {
        [first, ..] => *first == byte,
        [] => false,
    }
}

fn after_slash(rest: &[u8]) -> Start
    ensures { result ≡ spec.after_slash rest.now }
{
    if begins_byte(rest, b'/') {
        Start::LineComment
    } else if begins_byte(rest, b'*') {
        Start::BlockComment
    } else {
        Start::Token
    }
}

fn start_of(text: &[u8]) -> Start
    ensures { result ≡ spec.start_of text.now }
{
    match text {
        [byte, rest @ ..] => {
            if is_space(*byte) {
                Start::Space
            } else if *byte == b'/' {
                after_slash(rest)
            } else {
                Start::Token
            }
        }
        [] => Start::Token,
    }
}

/// How many bytes there are before the first line end.
pub fn line_length(text: &[u8]) -> usize
    ensures count { result ≡ spec.line_length text.now }
    ensures within { result ≤ length text.now }
{
    let mut length = 0;
    while length < text.len() && text[length] != b'\n' {
        length += 1;
    }
    length
}

/// The length of a comment that begins with `/*`, if it is closed.
fn comment_length(text: &[u8]) -> Option<usize>
    requires { 2 ≤ length text.now }
    ensures length { result ≡ spec.comment_length text.now }
    ensures some { IfSome result (λ length. 0 < length) }
    ensures within { IfSome result (λ n. n ≤ length text.now) }
{
    let mut length = 2;
    let mut rest = &text[2..];
    'bytes: while let [byte, more @ ..] = rest {
        if *byte == b'*' && begins_byte(more, b'/') {
            return Some(length + 2);
        }
        length += 1;
        rest = more;
    }
    None
}
