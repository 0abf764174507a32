//! Statements made of their parts.

ghost use Rattle.std.specs.Prelude.{◌≡◌, ◌++◌, ◌∷◌, [], option_map, IfOk, OnOk};
ghost use Rattle.rvt_tree.specs.Syntax as t;
ghost use Rattle.rvt_tree.specs.Views.{expr_view, acts_view, stmt_view, stmts_view, groups_view};

use crate::acts::Header;
use rvt_tree::{Expr, Groups, Labels, Stmt, Stmts};
use std::alloc::{AllocError, Global};

pub fn one(alloc: Global, s: Stmt) -> Result<Vec<Stmt>, AllocError>
    ensures { IfOk result (λ list. list.items ≡ s ∷ []) }
{
    let mut list = Vec::new(alloc);
    list.push(s)?;
    Ok(list)
}

pub fn put(made: &mut Vec<Stmt>, items: Vec<Stmt>) -> Result<(), AllocError>
    ensures { OnOk result (made.new.items ≡ made.old.items ++ items.items) }
{
    let mut items = items;
    made.append(&mut items)?;
    Ok(())
}

pub fn put_group(made: &mut Vec<(Labels, Stmts)>, group: (Labels, Stmts)) -> Result<(), AllocError>
    ensures { OnOk result (made.new.items ≡ made.old.items ++ group ∷ []) }
{
    made.push(group)?;
    Ok(())
}

pub fn if_else(alloc: Global, test: Expr, first: Stmt, second: Stmt) -> Result<Stmt, AllocError>
    ensures { IfOk result (λ s. stmt_view s ≡ t.if_else (expr_view test) (stmt_view first) (stmt_view second)) }
{
    let first = Box::new(alloc, first)?;
    let second = Box::new(alloc, second)?;
    Ok(Stmt::IfElse(test, first, second))
}

pub fn while_loop(alloc: Global, number: u32, test: Expr, body: Stmt) -> Result<Stmt, AllocError>
    ensures { IfOk result (λ s. stmt_view s ≡ t.while_loop number (expr_view test) (stmt_view body)) }
{
    let body = Box::new(alloc, body)?;
    Ok(Stmt::While(number, test, body))
}

pub fn do_loop(alloc: Global, number: u32, body: Stmt, test: Expr) -> Result<Stmt, AllocError>
    ensures { IfOk result (λ s. stmt_view s ≡ t.do_loop number (stmt_view body) (expr_view test)) }
{
    let body = Box::new(alloc, body)?;
    Ok(Stmt::DoWhile(number, body, test))
}

pub fn for_loop(alloc: Global, number: u32, header: Header, body: Stmt) -> Result<Stmt, AllocError>
    ensures { IfOk result (λ s. stmt_view s ≡ t.for_loop number (stmts_view header.first) (option_map expr_view header.test) (acts_view header.last) (stmt_view body)) }
{
    let Header { first, test, last } = header;
    let first = Box::new(alloc, first)?;
    let body = Box::new(alloc, body)?;
    Ok(Stmt::For(number, first, test, last, body))
}

pub fn switch(alloc: Global, value: Expr, groups: Groups) -> Result<Stmt, AllocError>
    ensures { IfOk result (λ s. stmt_view s ≡ t.switch (expr_view value) (groups_view groups)) }
{
    let groups = Box::new(alloc, groups)?;
    Ok(Stmt::Switch(value, groups))
}
