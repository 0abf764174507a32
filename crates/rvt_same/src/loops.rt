//! Equality of loop statements as units of their own.

ghost use Rattle.std.specs.Prelude.{◌↔◌, IsTrue};
ghost use Rattle.rvt_tree.specs.Views.{stmt_view};
ghost use Rattle.rvt_tree.specs.Same.{SameLoop};

use crate::same::{same_header, same_tree};
use crate::statement_forms::as_for_loop;
use rvt_tree::{Pairing, Stmt};

/// Whether two statements are the same loop, where what stands first in a `for` is no part of it.
pub fn same_loop(a: &Stmt, b: &Stmt, pairing: &Pairing) -> bool
    ensures { IsTrue result ↔ SameLoop pairing.now (stmt_view a.now) (stmt_view b.now) }
{
    match a {
        Stmt::While(_, _, _) => same_tree(a, b, pairing),
        Stmt::DoWhile(_, _, _) => same_tree(a, b, pairing),
        Stmt::For(number, _, test, last, body) => match as_for_loop(b) {
            Some((other_number, _, other_body)) => {
                *number == other_number
                    && same_tree(body, other_body, pairing)
                    && same_header(pairing, test, last, b)
            }
            None => false,
        },
        Stmt::Block(_) => false,
        Stmt::Empty => false,
        Stmt::Act(_) => false,
        Stmt::Declare(_) => false,
        Stmt::DeclareWith(_, _) => false,
        Stmt::Break => false,
        Stmt::Continue => false,
        Stmt::Return => false,
        Stmt::ReturnValue(_) => false,
        Stmt::If(_, _) => false,
        Stmt::IfElse(_, _, _) => false,
        Stmt::Switch(_, _) => false,
    }
}
