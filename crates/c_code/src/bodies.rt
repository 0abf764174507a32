//! The code of a function's body.

ghost use Rattle.std.specs.Prelude.{◌≡◌, IfOk};
ghost use Rattle.c_code.specs.Bodies.{body_code};

use crate::emitting::put;
use crate::initializers::CellCounts;
use crate::instructions::{Instruction, Manner};
use crate::statements::statement;
use rvt_tree::Stmt;
use std::alloc::{AllocError, Global};

/// The code of a function's body, if it has one, where its locals and the objects have so many cells.
///
/// Want of memory also where 2^32 values or places would wait for one another.
pub fn compile(
    alloc: Global,
    body: &Option<Stmt>,
    counts: &CellCounts,
) -> Result<Vec<Instruction>, AllocError>
    ensures { IfOk result (λ code. code.items ≡ body_code counts.now body.now) }
{
    let mut code = Vec::new(alloc);
    match body {
        Some(body) => statement(&mut code, body, counts)?,
        None => put(&mut code, Instruction::End(Manner::Normally))?,
    }
    put(&mut code, Instruction::Finish)?;
    Ok(code)
}
