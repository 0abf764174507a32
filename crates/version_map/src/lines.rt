//! What a line says.

ghost use Rattle.std.specs.Prelude.{◌≡◌};
ghost use Rattle.std.specs.Option.{option_map};
ghost use Rattle.version_map.specs.Texts.{parts_behind};
ghost use Rattle.version_map.specs.Lines as spec;

use crate::texts::cut;
use crate::words::{count_of, is_name, kind_of};
use rvt_num::Kind;

/// A line of a map.
#[derive(Clone, Copy)]
pub enum Line<'a> {
    Nothing,
    Functions(&'a [u8], &'a [u8]),
    Globals(&'a [u8], &'a [u8]),
    Object(&'a [u8], Kind, u32),
}

/// What a line says, if it is a line of a map.
pub fn line_of(text: &[u8]) -> Option<Line<'_>>
    ensures { option_map spec.line_view result ≡ spec.saying_of text.now }
{
    if is_remark(text) {
        return Some(Line::Nothing);
    }
    let first = cut(text, b' ');
    if first.part == b"function".as_slice() {
        return match two_names(first.rest) {
            Some((old, new)) => Some(Line::Functions(old, new)),
            None => None,
        };
    }
    if first.part == b"global".as_slice() {
        return match two_names(first.rest) {
            Some((old, new)) => Some(Line::Globals(old, new)),
            None => None,
        };
    }
    if first.part == b"object".as_slice() {
        return object(first.rest);
    }
    None
}

fn is_remark(text: &[u8]) -> bool
    ensures { result ≡ spec.is_remark text.now }
{
    match text {
        [] => true,
        [byte, ..] => *byte == b'#',
    }
}

/// `OLD NEW`.
#[tactic(auto, using(crate::proofs::LineLemmas::more_than_two))]
fn two_names(words: Option<&[u8]>) -> Option<(&[u8], &[u8])>
    ensures { option_map (λ names. (names.0.now, names.1.now)) result ≡ spec.two_names (parts_behind 32 words.entry) }
{
    let Some(words) = words else {
        return None;
    };
    let old = cut(words, b' ');
    let Some(words) = old.rest else {
        return None;
    };
    let new = cut(words, b' ');
    match new.rest {
        Some(_) => return None,
        None => {}
    }
    if is_name(old.part) && is_name(new.part) {
        Some((old.part, new.part))
    } else {
        None
    }
}

/// `NAME KIND COUNT`.
#[tactic(auto, using(crate::proofs::LineLemmas::more_than_three))]
fn object(words: Option<&[u8]>) -> Option<Line<'_>>
    ensures { option_map spec.line_view result ≡ spec.object_of (parts_behind 32 words.entry) }
{
    let Some(words) = words else {
        return None;
    };
    let name = cut(words, b' ');
    let Some(words) = name.rest else {
        return None;
    };
    let kind = cut(words, b' ');
    let Some(words) = kind.rest else {
        return None;
    };
    let count = cut(words, b' ');
    match count.rest {
        Some(_) => return None,
        None => {}
    }
    if !is_name(name.part) {
        return None;
    }
    match (kind_of(kind.part), count_of(count.part)) {
        (Some(kind), Some(count)) => Some(Line::Object(name.part, kind, count)),
        _ => None,
    }
}
