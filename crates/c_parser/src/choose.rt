//! Which alternative of a line goes on with a token.

ghost use Rattle.std.specs.Prelude.{◌≡◌};
ghost use Rattle.std.specs.Option.{option_copied};
ghost use Rattle.c_parser.specs.Rules as spec;
ghost use Rattle.c_parser.specs.Rules.{same};
ghost use Rattle.c_parser.specs.LookAhead.{may_begin, may_pass, may_be_empty, may_go_on, first_row};

use crate::grammar::Grammar;
use crate::symbol::{Symbol, Turn};

pub fn is_same<G: Grammar>(a: G::Class, b: G::Class) -> bool
    ensures { result ≡ same G.rules a b }
{
    G::number(a) == G::number(b)
}

fn is_of<G: Grammar>(class: G::Class, mut classes: &[G::Class]) -> bool
    ensures { result ≡ spec.is_of G.rules class classes.entry.now }
{
    while let [one, rest @ ..] = classes {
        if is_same::<G>(*one, class) {
            return true;
        }
        classes = rest;
    }
    false
}

/// Whether a token of the class may come first in the row.
fn may_begin<G: Grammar>(mut row: &[Symbol<G::Class, G::Line, G::Action>], class: G::Class) -> bool
    ensures { result ≡ may_begin G.rules G.table row.entry.now class }
{
    while let [symbol, rest @ ..] = row {
        match *symbol {
            Symbol::Token(other, _) => return is_same::<G>(other, class),
            Symbol::Line(line) => {
                if is_of::<G>(class, G::first(line)) {
                    return true;
                }
                if !G::is_empty(line) {
                    return false;
                }
            }
            Symbol::Make(_) => {}
            Symbol::Turn(Turn::Learn) => return true,
            Symbol::Turn(_) => {}
            Symbol::NotNext(other) => {
                if is_same::<G>(other, class) {
                    return false;
                }
            }
        }
        row = rest;
    }
    false
}

/// Whether the row may read nothing where a token of the class is next.
fn may_pass<G: Grammar>(mut row: &[Symbol<G::Class, G::Line, G::Action>], class: G::Class) -> bool
    ensures { result ≡ may_pass G.rules G.table row.entry.now class }
{
    while let [symbol, rest @ ..] = row {
        match *symbol {
            Symbol::Token(_, _) => return false,
            Symbol::Line(line) => {
                if !G::is_empty(line) {
                    return false;
                }
            }
            Symbol::Make(_) => {}
            Symbol::Turn(_) => {}
            Symbol::NotNext(other) => {
                if is_same::<G>(other, class) {
                    return false;
                }
            }
        }
        row = rest;
    }
    true
}

/// Whether the row may read nothing.
fn may_be_empty<G: Grammar>(mut row: &[Symbol<G::Class, G::Line, G::Action>]) -> bool
    ensures { result ≡ may_be_empty G.rules G.table row.entry.now }
{
    while let [symbol, rest @ ..] = row {
        match *symbol {
            Symbol::Token(_, _) => return false,
            Symbol::Line(line) => {
                if !G::is_empty(line) {
                    return false;
                }
            }
            Symbol::Make(_) => {}
            Symbol::Turn(_) => {}
            Symbol::NotNext(_) => {}
        }
        row = rest;
    }
    true
}

fn may_go_on<G: Grammar>(
    line: G::Line,
    row: &[Symbol<G::Class, G::Line, G::Action>],
    class: G::Class,
) -> bool
    ensures { result ≡ may_go_on G.rules G.table line row.now class }
{
    may_begin::<G>(row, class) || (may_pass::<G>(row, class) && is_of::<G>(class, G::follow(line)))
}

/// The alternative of the line that can be read where a token of the class is next.
pub fn choose<G: Grammar>(
    line: G::Line,
    class: G::Class,
) -> Option<&'static [Symbol<G::Class, G::Line, G::Action>]>
    ensures { option_copied result ≡ first_row (λ row. may_go_on G.rules G.table line row class) (G.rules.lines line) }
{
    let mut rows = G::alternatives(line);
    while let [row, rest @ ..] = rows {
        if may_go_on::<G>(line, row, class) {
            return Some(row);
        }
        rows = rest;
    }
    None
}

/// The alternative of the line that can be read where no token is left.
pub fn choose_at_end<G: Grammar>(
    line: G::Line,
) -> Option<&'static [Symbol<G::Class, G::Line, G::Action>]>
    ensures { option_copied result ≡ first_row (λ row. may_be_empty G.rules G.table row) (G.rules.lines line) }
{
    let mut rows = G::alternatives(line);
    while let [row, rest @ ..] = rows {
        if may_be_empty::<G>(row) {
            return Some(row);
        }
        rows = rest;
    }
    None
}
