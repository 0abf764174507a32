//! Jumps (C 6.8.6).

ghost use Rattle.std.specs.Prelude.{◌≡◌, ◌||◌, if◌then◌else◌};
ghost use Rattle.rvt_tree.specs.Syntax.{break_statement, continue_statement};
ghost use Rattle.rvt_tree.specs.Views.{stmt_view};
ghost use Rattle.expression_typing.specs.Outcomes as o;
ghost use Rattle.file_typing.specs.Statements.{returned, returned_with};
ghost use Rattle.c_syntax.specs.Views.{expr_view};
ghost use Rattle.typing_base.specs.Follows.{Becomes, Gives};
ghost use Rattle.typing_base.specs.Views.{notes_view, operand_view};
ghost use Rattle.statement_elaboration.specs.Parts.{typed_return};
ghost use Rattle.statement_elaboration.specs.Views.{block_view};

use crate::blocks::Block;
use crate::operands::operand_in;
use c_syntax::Expr;
use expression_elaboration::first_token;
use operator_rules::converted_to;
use rvt_num::Kind;
use rvt_tree::{Place, Stmt};
use std::alloc::Global;
use typing_base::{Environment, Fault, Notes, Operand, PlaceType, wrong_type};

/// `break` stands in a loop or a `switch`.
pub fn broken_off(at: Place, block: Block) -> Result<Stmt, Fault>
    ensures { Gives stmt_view (if block.in_loop || block.in_switch then o.give break_statement else o.broken o.wrong_type at) result }
{
    if block.in_loop || block.in_switch {
        Ok(Stmt::Break)
    } else {
        Err(wrong_type(at))
    }
}

/// `continue` stands in a loop.
pub fn continued(at: Place, block: Block) -> Result<Stmt, Fault>
    ensures { Gives stmt_view (if block.in_loop then o.give continue_statement else o.broken o.wrong_type at) result }
{
    if block.in_loop {
        Ok(Stmt::Continue)
    } else {
        Err(wrong_type(at))
    }
}

/// `return` alone stands in a function without a result.
pub fn returned(at: Place, kind: Option<Kind>) -> Result<Stmt, Fault>
    ensures { Gives stmt_view (returned at kind) result }
{
    match kind {
        None => Ok(Stmt::Return),
        Some(_) => Err(wrong_type(at)),
    }
}

/// `return e` stands in a function with a result (C 6.8.6.4).
pub fn returned_with<'t>(
    alloc: Global,
    at: Place,
    first: Place,
    kind: Option<Kind>,
    value: Operand<'t>,
) -> Result<Stmt, Fault>
    ensures { Gives stmt_view (returned_with at first kind (operand_view value.entry)) result }
{
    match kind {
        None => Err(wrong_type(at)),
        Some(kind) => {
            let value = converted_to(alloc, first, PlaceType::Word(kind), value)?;
            Ok(Stmt::ReturnValue(value))
        }
    }
}

/// `return e` in the block.
pub fn typed_return(
    alloc: Global,
    environment: &Environment,
    block: Block,
    at: Place,
    e: &Expr,
    notes: &mut Notes,
) -> Result<Stmt, Fault>
    ensures { Becomes stmt_view (typed_return at (block_view environment.now block) (expr_view e.now) (notes_view notes.old)) result notes.new }
{
    let value = operand_in(alloc, environment, block, e, notes)?;
    returned_with(alloc, at, first_token(e), block.result, value)
}
