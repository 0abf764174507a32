//! Directives, each on a line of its own (C 6.10).

ghost use Rattle.std.specs.Prelude.{◌≡◌, ◌<◌, ◌≤◌, ◌+◌, ◌++◌, ◌∷◌, [], drop, length, option_map, All, None, Ok, Err, IfErr, IfSome, OnOk};
ghost use Rattle.std.specs.List.{prefix_len};
ghost use Rattle.c_tokens.specs.Bytes as bytes;
ghost use Rattle.c_lexer.specs.Lines as spec;
ghost use Rattle.c_lexer.specs.Lines.{ReadsLine, TakesLine};
ghost use Rattle.c_lexer.specs.declared.lines.Stop.TheVariants as stop;
ghost use Rattle.c_lexer.specs.Defines.{BodiesStand, defined_as};
ghost use Rattle.c_lexer.specs.Pieces.{PieceStands, piece_text, text_between};
ghost use Rattle.c_lexer.specs.Stops.{IfWrong};

use crate::comments::leaves_comment_open;
use crate::defines::{Defines, is_body, is_built_in, piece_text, same_texts};
use crate::faults::{Cause, Memory, Wrong};
use crate::pieces::{Piece, cut_from};
use c_tokens::{TokenClass, is_digit, is_space};
use std::alloc::{AllocError, Global};

/// A directive is refused, or there was no memory.
#[derive(Clone, Copy, Debug, PartialEq, Eq)]
pub enum Stop {
    Wrong(Wrong),
    Memory,
}

/// How many bytes of white space stand at the front.
fn space_length(text: &[u8]) -> usize
    ensures count { result ≡ prefix_len bytes.is_space text.now }
    ensures within { result ≤ length text.now }
{
    let mut length = 0;
    while length < text.len() && is_space(text[length]) {
        length += 1;
    }
    length
}

fn is_file_byte(byte: u8) -> bool
    ensures { result ≡ spec.is_file_byte byte }
{
    (b'\t' <= byte && byte <= b'\r') || (b' ' <= byte && byte <= b'~')
}

/// How many bytes stand at the front that may stand outside comments.
fn good_length(text: &[u8]) -> usize
    ensures count { result ≡ prefix_len spec.is_file_byte text.now }
    ensures within { result ≤ length text.now }
{
    let mut length = 0;
    while length < text.len() && is_file_byte(text[length]) {
        length += 1;
    }
    length
}

fn begins_digit(text: &[u8]) -> bool
    ensures { result ≡ spec.begins_digit text.now }
{
    match text {
        [byte, ..] => is_digit(*byte),
        [] => false,
    }
}

/// Whether the line, which begins with `#`, is a line marker.
fn is_marker(line: &[u8]) -> bool
    requires { 0 < length line.now }
    ensures { result ≡ spec.is_marker line.now }
{
    let rest = &line[1..];
    begins_digit(&rest[space_length(rest)..])
}

fn is_header(text: &[u8]) -> bool
    ensures { result ≡ spec.is_header text.now }
{
    text == "<stdint.h>".as_bytes()
        || text == "<stdbool.h>".as_bytes()
        || text == "<stddef.h>".as_bytes()
}

/// Where the last of the pieces ends, if there is one.
fn last_end(end: usize, pieces: &[Piece]) -> usize
    ensures { result ≡ spec.last_end end pieces.now }
{
    let mut end = end;
    'pieces: for piece in pieces {
        end = piece.end;
    }
    end
}

/// The bytes between two places, none if they stand the other way round.
fn text_between<'a>(bytes: &'a [u8], start: usize, end: usize) -> &'a [u8]
    requires { end ≤ length bytes.now }
    ensures { result.now ≡ text_between bytes.now start end }
{
    if end < start {
        return b"";
    }
    &bytes[start..end]
}

/// What a directive does whose tokens behind `include` are these.
fn include(bytes: &[u8], whole: bool, pieces: &[Piece]) -> Result<Option<Piece>, Cause>
    requires { All (PieceStands bytes.now) pieces.now }
    ensures { result ≡ spec.include_result bytes.now whole pieces.now }
{
    match pieces {
        [piece, rest @ ..] => {
            let header = text_between(bytes, piece.start, last_end(piece.end, rest));
            if whole && is_header(header) {
                Ok(None)
            } else {
                Err(Cause::BadDirective)
            }
        }
        [] => Err(Cause::BadDirective),
    }
}

fn is_name_class(class: TokenClass) -> bool
    ensures { result ≡ spec.is_name_class class }
{
    match class {
        TokenClass::Word | TokenClass::Keyword(_) => true,
        _ => false,
    }
}

fn is_word_class(class: TokenClass) -> bool
    ensures { result ≡ spec.is_word_class class }
{
    match class {
        TokenClass::Word => true,
        _ => false,
    }
}

fn is_apart(end: usize, pieces: &[Piece]) -> bool
    ensures { result ≡ spec.is_apart end pieces.now }
{
    match pieces {
        [piece, ..] => end < piece.start,
        [] => false,
    }
}

fn may_be_defined(bytes: &[u8], name: &Piece) -> bool
    requires { PieceStands bytes.now name.now }
    ensures { result ≡ spec.may_be_defined bytes.now name.now }
{
    is_word_class(name.class) && !is_built_in(piece_text(bytes, name))
}

/// Whether this is a name that may be defined, apart from the body of a define.
fn is_definition(bytes: &[u8], whole: bool, name: &Piece, body: &[Piece]) -> bool
    requires { PieceStands bytes.now name.now }
    ensures { result ≡ spec.is_definition bytes.now whole name.now body.now }
{
    may_be_defined(bytes, name) && whole && is_apart(name.end, body) && is_body(body)
}

/// A name is defined that wasn't, or again so.
fn define_as(
    bytes: &[u8],
    old: Option<&[Piece]>,
    name: &Piece,
    body: &[Piece],
) -> Result<Option<Piece>, Cause>
    requires old { IfSome old (λ old. All (PieceStands bytes.now) old.now) }
    requires body { All (PieceStands bytes.now) body.now }
    ensures { result ≡ spec.defines bytes.now (option_map (λ old. old.now) old.entry) name.now body.now }
{
    match old {
        Some(old) => {
            if same_texts(bytes, old, body) {
                Ok(None)
            } else {
                Err(Cause::BadDefine)
            }
        }
        None => Ok(Some(*name)),
    }
}

/// What a directive does whose tokens behind `define` are these.
fn define(
    bytes: &[u8],
    defines: &Defines<'_>,
    whole: bool,
    pieces: &[Piece],
) -> Result<Option<Piece>, Cause>
    requires bodies { BodiesStand bytes.now defines.now }
    requires pieces { All (PieceStands bytes.now) pieces.now }
    ensures { result ≡ spec.define_result bytes.now defines.now whole pieces.now }
{
    match pieces {
        [name, body @ ..] => {
            if !is_name_class(name.class) {
                return Err(Cause::BadDirective);
            }
            if !is_definition(bytes, whole, name, body) {
                return Err(Cause::BadDefine);
            }
            define_as(bytes, defines.body(piece_text(bytes, name)), name, body)
        }
        [] => Err(Cause::BadDirective),
    }
}

/// What a directive of these tokens does: the name that it defines newly, if any.
fn directive_result(
    bytes: &[u8],
    defines: &Defines<'_>,
    whole: bool,
    pieces: &[Piece],
) -> Result<Option<Piece>, Cause>
    requires bodies { BodiesStand bytes.now defines.now }
    requires pieces { All (PieceStands bytes.now) pieces.now }
    ensures { result ≡ spec.directive_result bytes.now defines.now whole pieces.now }
{
    match pieces {
        [word, rest @ ..] => {
            let text = piece_text(bytes, word);
            if text == "include".as_bytes() {
                include(bytes, whole, rest)
            } else if text == "define".as_bytes() {
                define(bytes, defines, whole, rest)
            } else {
                Err(Cause::BadDirective)
            }
        }
        [] => Err(Cause::BadDirective),
    }
}

fn at_the_hash(cause: Cause) -> Stop
    ensures { result ≡ stop.Wrong (record { offset = 0; cause = cause }) }
{
    Stop::Wrong(Wrong { offset: 0, cause })
}

/// Takes a line marker, unless a byte of it is wrong.
fn marker(line: &[u8]) -> Result<(), Stop>
    ensures good { OnOk result (spec.marker_result line.now ≡ Ok None) }
    ensures wrong { IfErr result (IfWrong (λ wrong. spec.marker_result line.now ≡ Err wrong)) }
{
    let offset = good_length(line);
    if offset < line.len() {
        return Err(Stop::Wrong(Wrong {
            offset,
            cause: Cause::BadByte,
        }));
    }
    Ok(())
}

/// Takes a directive, whose `#` is the byte at this place, and whose line ends there.
pub fn directive<'a>(
    alloc: Global,
    bytes: &'a [u8],
    at: usize,
    end: usize,
    defines: &mut Defines<'a>,
) -> Result<(), Stop>
    requires some { at < end }
    requires within { end ≤ length bytes.now }
    requires line { end ≡ spec.line_end bytes.now at }
    requires bodies { BodiesStand bytes.now defines.old }
    ensures takes { OnOk result (TakesLine bytes.now at defines.old defines.new) }
    ensures bodies { OnOk result (BodiesStand bytes.now defines.new) }
    ensures wrong { IfErr result (IfWrong (λ wrong. ReadsLine bytes.now defines.old at (Err wrong))) }
{
    let line = &bytes[at..end];
    if is_marker(line) {
        match marker(line) {
            Ok(()) => return Ok(()),
            Err(stop) => return Err(stop),
        }
    }
    if leaves_comment_open(line) {
        return Err(at_the_hash(Cause::BadDirective));
    }
    let pieces = match cut_from(alloc, &bytes[..end], at + 1) {
        Ok(cut) => cut,
        Err(Memory) => return Err(Stop::Memory),
    };
    match directive_result(bytes, defines, pieces.whole, &pieces.pieces) {
        Ok(None) => Ok(()),
        Ok(Some(name)) => {
            add(alloc, bytes, &name, &pieces.pieces, defines)?;
            Ok(())
        }
        Err(cause) => Err(at_the_hash(cause)),
    }
}

/// Defines the name as the tokens behind the first two.
fn add<'a>(
    alloc: Global,
    bytes: &'a [u8],
    name: &Piece,
    pieces: &[Piece],
    defines: &mut Defines<'a>,
) -> Result<(), Stop>
    requires name { PieceStands bytes.now name.now }
    requires two { 2 ≤ length pieces.now }
    requires new { defined_as defines.old (piece_text bytes.now name.now) ≡ None }
    ensures added { OnOk result (defines.new ≡ defines.old ++ record { name = piece_text bytes.now name.now; body = drop 2 pieces.now } ∷ []) }
    ensures memory { IfErr result (λ why. why ≡ stop.Memory) }
{
    let body = match Vec::from_slice(alloc, &pieces[2..]) {
        Ok(body) => body,
        Err(AllocError) => return Err(Stop::Memory),
    };
    match defines.add(piece_text(bytes, name), body) {
        Ok(()) => Ok(()),
        Err(Memory) => Err(Stop::Memory),
    }
}
