//! The functions that a body calls.

ghost use Rattle.std.specs.Prelude.{◌≡◌, IfOk, option_map};
ghost use Rattle.rvt_tree.specs.Views.{stmt_view};
ghost use Rattle.body_calls.specs.Calls.{body_calls};

use crate::statements::collect_from_statement;
use rvt_tree::Stmt;
use std::alloc::{AllocError, Global};

/// The functions that a body calls, in the order of the source: one number for each call.
pub fn calls_in(alloc: Global, body: &Option<Stmt>) -> Result<Vec<u32>, AllocError>
    ensures { IfOk result (λ calls. calls.items ≡ body_calls (option_map stmt_view body.now)) }
{
    let mut calls = Vec::new(alloc);
    match body {
        None => {}
        Some(statement) => collect_from_statement(statement, &mut calls)?,
    }
    Ok(calls)
}
