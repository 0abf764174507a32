//! A text cut into tokens.

ghost use Rattle.std.specs.Prelude.{◌≡◌, ◌≤◌, ◌++◌, length, IfOk, OnOk};
ghost use Rattle.c_lexer.specs.Pieces.{IsCut, piece_of};

use crate::faults::Memory;
use crate::starts::first_of;
use c_tokens::TokenClass;
use std::alloc::Global;

/// A token's class, and where its text stands: from `start` to before `end`.
#[derive(Clone, Copy, Debug, PartialEq, Eq)]
pub struct Piece {
    pub class: TokenClass,
    pub start: usize,
    pub end: usize,
}

/// The tokens into which a text was cut, as far as it could be.
#[derive(Drop)]
pub struct Cut {
    pub pieces: Vec<Piece>,
    pub whole: bool,
}

/// Cuts the bytes from `at` on.
pub fn cut_from(alloc: Global, bytes: &[u8], at: usize) -> Result<Cut, Memory>
    requires { at ≤ length bytes.now }
    ensures { IfOk result (λ cut. IsCut bytes.now at cut.pieces.items cut.whole) }
{
    let mut pieces = Vec::new(alloc);
    let mut stop = at;
    'pieces: while stop < bytes.len() {
        match first_of(&bytes[stop..]) {
            Ok(first) => {
                let end = stop + first.length;
                put(&mut pieces, first.class, stop, end)?;
                stop = end;
            }
            Err(_) => {
                return Ok(Cut {
                    pieces,
                    whole: false,
                });
            }
        }
    }
    Ok(Cut {
        pieces,
        whole: true,
    })
}

/// Adds a token, if it is one.
fn put(
    pieces: &mut Vec<Piece>,
    class: Option<TokenClass>,
    start: usize,
    end: usize,
) -> Result<(), Memory>
    ensures { OnOk result (pieces.new.items ≡ pieces.old.items ++ piece_of class start end) }
{
    if let Some(class) = class {
        match pieces.push(Piece { class, start, end }) {
            Ok(()) => return Ok(()),
            Err(_) => return Err(Memory),
        }
    }
    Ok(())
}
