//! What a `switch` is controlled by (C 6.8.4.2).

ghost use Rattle.std.specs.Prelude.{◌≡◌};
ghost use Rattle.c_syntax.specs.Views.{expr_view};
ghost use Rattle.file_typing.specs.Statements.{controlled};
ghost use Rattle.typing_base.specs.Follows.{Becomes, Gives};
ghost use Rattle.typing_base.specs.Views.{notes_view, operand_view};
ghost use Rattle.statement_elaboration.specs.Views.{block_view, control_view};
ghost use Rattle.statement_elaboration.specs.Parts.{typed_control};

use crate::blocks::Block;
use crate::operands::operand_in;
use c_syntax::Expr;
use expression_elaboration::first_token;
use operator_rules::promoted;
use rvt_num::Kind;
use rvt_tree::Place;
use std::alloc::Global;
use typing_base::{Environment, Fault, Notes, Operand, wrong_type};

/// An integer, promoted.
#[derive(Drop)]
pub struct Control {
    pub kind: Kind,
    pub value: rvt_tree::Expr,
}

fn controlled<'t>(alloc: Global, first: Place, x: Operand<'t>) -> Result<Control, Fault>
    ensures { Gives control_view (controlled first (operand_view x.entry)) result }
{
    match x {
        Operand::Integer(kind, value, _) => {
            let value = promoted(alloc, kind, value)?;
            Ok(Control {
                kind: rvt_num::promoted(kind),
                value,
            })
        }
        _ => Err(wrong_type(first)),
    }
}

/// The expression that controls a `switch`.
pub fn typed_control(
    alloc: Global,
    environment: &Environment,
    block: Block,
    e: &Expr,
    notes: &mut Notes,
) -> Result<Control, Fault>
    ensures { Becomes control_view (typed_control (block_view environment.now block) (expr_view e.now) (notes_view notes.old)) result notes.new }
{
    let x = operand_in(alloc, environment, block, e, notes)?;
    controlled(alloc, first_token(e), x)
}
