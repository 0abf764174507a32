//! Trees made of their parts.

ghost use Rattle.std.specs.Prelude.{◌≡◌, [], IfOk};
ghost use Rattle.rvt_tree.specs.Syntax.{no_arguments, no_initializers, no_statements, no_groups, identifier, value_at, binary, call, compound, if_statement};
ghost use Rattle.rvt_tree.specs.Views.{expr_view, exprs_view, acts_view, inits_view, labels_view, stmt_view, stmts_view, groups_view, exprs_before, stmts_before, acts_before, inits_before, groups_before};

use crate::expressions::{Expr, Exprs, Lvalue, Variable};
use crate::statements::{Act, Acts, Groups, Init, Inits, Label, Labels, Stmt, Stmts};
use rvt_num::BinOp;
use std::alloc::{AllocError, Global};

/// The arguments of a call.
#[tactic(auto, using(crate::proofs::Before::exprs_before_append))]
pub fn arguments(alloc: Global, mut items: Vec<Expr>) -> Result<Exprs, AllocError>
    ensures { IfOk result (λ list. exprs_view list ≡ exprs_before items.items no_arguments) }
{
    let mut list = Exprs::End;
    while let Some(last) = items.pop() {
        list = Exprs::More(last, Box::new(alloc, list)?);
    }
    Ok(list)
}

/// The statements of a block.
#[tactic(auto, using(crate::proofs::Before::stmts_before_append))]
pub fn statements(alloc: Global, mut items: Vec<Stmt>) -> Result<Stmts, AllocError>
    ensures { IfOk result (λ list. stmts_view list ≡ stmts_before items.items no_statements) }
{
    let mut list = Stmts::End;
    while let Some(last) = items.pop() {
        list = Stmts::More(last, Box::new(alloc, list)?);
    }
    Ok(list)
}

/// The last part of a `for` header.
#[tactic(auto, using(crate::proofs::Before::acts_before_append))]
pub fn actions(alloc: Global, mut items: Vec<Act>) -> Result<Acts, AllocError>
    ensures { IfOk result (λ list. acts_view list ≡ acts_before items.items []) }
{
    let mut list = Acts::End;
    while let Some(last) = items.pop() {
        list = Acts::More(last, Box::new(alloc, list)?);
    }
    Ok(list)
}

/// The initializers of the first members of an aggregate, each with the size of its member.
#[tactic(auto, using(crate::proofs::Before::inits_before_append))]
pub fn initializers(alloc: Global, mut items: Vec<(Init, u32)>) -> Result<Inits, AllocError>
    ensures { IfOk result (λ list. inits_view list ≡ inits_before items.items no_initializers) }
{
    let mut list = Inits::End;
    while let Some((last, size)) = items.pop() {
        list = Inits::More(last, size, Box::new(alloc, list)?);
    }
    Ok(list)
}

/// The labels of a group.
pub fn labels(alloc: Global, mut items: Vec<Label>) -> Result<Labels, AllocError>
    ensures { IfOk result (λ list. labels_view list ≡ items.items) }
{
    let mut list = Labels::End;
    while let Some(last) = items.pop() {
        list = Labels::More(last, Box::new(alloc, list)?);
    }
    Ok(list)
}

/// The groups of a `switch`.
#[tactic(auto, using(crate::proofs::Before::groups_before_append))]
pub fn groups(alloc: Global, mut items: Vec<(Labels, Stmts)>) -> Result<Groups, AllocError>
    ensures { IfOk result (λ list. groups_view list ≡ groups_before items.items no_groups) }
{
    let mut list = Groups::End;
    while let Some((labels, body)) = items.pop() {
        list = Groups::More(labels, body, Box::new(alloc, list)?);
    }
    Ok(list)
}

// ---- the forms that most programs have

/// The value of a variable.
pub fn variable(alloc: Global, variable: Variable) -> Result<Expr, AllocError>
    ensures { IfOk result (λ e. expr_view e ≡ value_at (identifier variable)) }
{
    Ok(Expr::Read(Box::new(alloc, Lvalue::Variable(variable))?))
}

/// Two operands with an operator between them.
pub fn operation(alloc: Global, op: BinOp, left: Expr, right: Expr) -> Result<Expr, AllocError>
    ensures { IfOk result (λ e. expr_view e ≡ binary op (expr_view left) (expr_view right)) }
{
    let left = Box::new(alloc, left)?;
    let right = Box::new(alloc, right)?;
    Ok(Expr::Binary(op, left, right))
}

/// A call of a function by its number.
pub fn call_of(alloc: Global, function: u32, arguments: Exprs) -> Result<Expr, AllocError>
    ensures { IfOk result (λ e. expr_view e ≡ call function (exprs_view arguments)) }
{
    Ok(Expr::Call(function, Box::new(alloc, arguments)?))
}

/// A block of statements.
pub fn block(alloc: Global, body: Stmts) -> Result<Stmt, AllocError>
    ensures { IfOk result (λ s. stmt_view s ≡ compound (stmts_view body)) }
{
    Ok(Stmt::Block(Box::new(alloc, body)?))
}

/// An `if` without `else`.
pub fn choice(alloc: Global, test: Expr, first: Stmt) -> Result<Stmt, AllocError>
    ensures { IfOk result (λ s. stmt_view s ≡ if_statement (expr_view test) (stmt_view first)) }
{
    let first = Box::new(alloc, first)?;
    Ok(Stmt::If(test, first))
}
