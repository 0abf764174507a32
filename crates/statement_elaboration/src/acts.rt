//! What statements and the headers of `for` do (C 6.8.3, 6.8.5).

ghost use Rattle.std.specs.Prelude.{◌≡◌, ◌≤◌, ◌++◌, ◌∷◌, [], map, length, option_map, IfOk, OnOk};
ghost use Rattle.rvt_tree.specs.Views.{act_view, acts_view, stmts_view, expr_view as typed_view};
ghost use Rattle.c_syntax.specs.Views as s;
ghost use Rattle.file_typing.specs.Statements.{typed_actions, as_statements, statements_of, for_test};
ghost use Rattle.typing_base.specs.Follows.{Becomes};
ghost use Rattle.typing_base.specs.Views.{notes_view};
ghost use Rattle.statement_elaboration.specs.Views.{block_view, Extends};
ghost use Rattle.statement_elaboration.specs.Headers.{start_view, header_view};
ghost use Rattle.statement_elaboration.specs.Parts.{typed_start, typed_header};

use crate::blocks::Block;
use crate::declarations::typed_declaration;
use crate::operands::{action_in, condition_in};
use c_syntax::{Act, Expr, Start};
use rvt_tree::builders::{actions, statements};
use rvt_tree::{Acts, Stmt, Stmts};
use std::alloc::{AllocError, Global};
use typing_base::{Environment, Fault, Notes};

fn put(made: &mut Vec<rvt_tree::Act>, act: rvt_tree::Act) -> Result<(), AllocError>
    ensures { OnOk result (made.new.items ≡ made.old.items ++ act ∷ []) }
{
    made.push(act)?;
    Ok(())
}

fn typed_actions(
    alloc: Global,
    environment: &Environment,
    block: Block,
    acts: &[Act],
    notes: &mut Notes,
) -> Result<Vec<rvt_tree::Act>, Fault>
    ensures { Becomes (λ made. map act_view made.items) (typed_actions (block_view environment.now block) (map s.act_view acts.now) (notes_view notes.old)) result notes.new }
{
    let mut made = Vec::new(alloc);
    let mut rest = acts;
    'actions: while let [act, others @ ..] = rest {
        let act = action_in(alloc, environment, block, act, notes)?;
        put(&mut made, act)?;
        rest = others;
    }
    Ok(made)
}

/// Actions as statements.
fn as_statements(alloc: Global, mut acts: Vec<rvt_tree::Act>) -> Result<Stmts, AllocError>
    ensures { IfOk result (λ list. stmts_view list ≡ statements_of (as_statements (map act_view acts.items))) }
{
    let mut list = Stmts::End;
    'actions: while let Some(last) = acts.pop() {
        list = Stmts::More(Stmt::Act(last), Box::new(alloc, list)?);
    }
    Ok(list)
}

/// The first part of a `for` header: what it declares is in scope up to the end of the loop.
fn typed_start(
    alloc: Global,
    environment: &mut Environment,
    block: Block,
    start: &Start,
    notes: &mut Notes,
) -> Result<Stmts, Fault>
    requires within { block.height ≤ length environment.old.names }
    ensures typed { Becomes (start_view environment.new block) (typed_start (block_view environment.old block) (s.start_view start.now) (notes_view notes.old)) result notes.new }
    ensures declared { OnOk result (Extends environment.old environment.new) }
{
    match start {
        Start::Nothing => Ok(Stmts::End),
        Start::Local(declaration) => {
            let made = typed_declaration(alloc, environment, block, declaration, notes)?;
            Ok(statements(alloc, made)?)
        }
        Start::Acts(acts) => {
            let made = typed_actions(alloc, environment, block, acts.as_slice(), notes)?;
            Ok(as_statements(alloc, made)?)
        }
    }
}

/// A condition that is left out holds.
fn for_test(
    alloc: Global,
    environment: &Environment,
    block: Block,
    test: &Option<Expr>,
    notes: &mut Notes,
) -> Result<Option<rvt_tree::Expr>, Fault>
    ensures { Becomes (option_map typed_view) (for_test (block_view environment.now block) (option_map s.expr_view test.now) (notes_view notes.old)) result notes.new }
{
    match test {
        None => Ok(None),
        Some(e) => {
            let test = condition_in(alloc, environment, block, e, notes)?;
            Ok(Some(test))
        }
    }
}

/// The last part of a `for` header.
fn typed_last(
    alloc: Global,
    environment: &Environment,
    block: Block,
    acts: &[Act],
    notes: &mut Notes,
) -> Result<Acts, Fault>
    ensures { Becomes acts_view (typed_actions (block_view environment.now block) (map s.act_view acts.now) (notes_view notes.old)) result notes.new }
{
    let made = typed_actions(alloc, environment, block, acts, notes)?;
    Ok(actions(alloc, made)?)
}

/// The header of a `for`.
#[derive(Drop)]
pub struct Header {
    pub first: Stmts,
    pub test: Option<rvt_tree::Expr>,
    pub last: Acts,
}

pub fn typed_header(
    alloc: Global,
    environment: &mut Environment,
    block: Block,
    start: &Start,
    test: &Option<Expr>,
    last: &[Act],
    notes: &mut Notes,
) -> Result<Header, Fault>
    requires within { block.height ≤ length environment.old.names }
    ensures typed { Becomes (header_view environment.new block) (typed_header (block_view environment.old block) (s.start_view start.now) (option_map s.expr_view test.now) (map s.act_view last.now) (notes_view notes.old)) result notes.new }
    ensures declared { OnOk result (Extends environment.old environment.new) }
{
    let first = typed_start(alloc, environment, block, start, notes)?;
    let test = for_test(alloc, environment, block, test, notes)?;
    let last = typed_last(alloc, environment, block, last, notes)?;
    Ok(Header { first, test, last })
}
