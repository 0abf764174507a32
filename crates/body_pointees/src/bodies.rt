//! What the pointers point to that a body dereferences.

ghost use Rattle.std.specs.Prelude.{◌≡◌, IfOk, option_map};
ghost use Rattle.rvt_tree.specs.Views.{stmt_view};
ghost use Rattle.body_pointees.specs.Pointees.{body_pointees};

use crate::statements::collect_from_statement;
use rvt_tree::{Pointee, Stmt};
use std::alloc::{AllocError, Global};

/// The types to which the pointers point that a body dereferences, in the order of the source: one for each dereference.
pub fn pointees_in(alloc: Global, body: &Option<Stmt>) -> Result<Vec<Pointee>, AllocError>
    ensures { IfOk result (λ pointees. pointees.items ≡ body_pointees (option_map stmt_view body.now)) }
{
    let mut pointees = Vec::new(alloc);
    match body {
        None => {}
        Some(statement) => collect_from_statement(statement, &mut pointees)?,
    }
    Ok(pointees)
}
