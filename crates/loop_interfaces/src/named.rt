//! The locals that a part of a program names, in the order of the source.

ghost use Rattle.std.specs.Prelude.{◌≡◌, ◌++◌, OnOk, option_map};
ghost use Rattle.rvt_tree.specs.Views.{lvalue_view, expr_view, exprs_view, act_view, acts_view, init_view, inits_view, stmt_view, stmts_view, groups_view};
ghost use Rattle.c_meaning.specs.Interfaces.{local_in, named_at, named_in, named_in_all, named_by, named_by_all, named_in_initializer, named_in_members, named_in_test, named_in_statement, named_in_block, named_in_groups, named_in_loop};

use rvt_tree::{Act, Acts, Expr, Exprs, Groups, Init, Inits, Lvalue, Stmt, Stmts, Variable};
use std::alloc::AllocError;

/// Adds the number of a local that is no object.
pub fn add_variable(variable: Variable, out: &mut Vec<u32>) -> Result<(), AllocError>
    ensures { OnOk result (out.new.items ≡ out.old.items ++ local_in variable) }
{
    match variable {
        Variable::Local(number) => {
            out.push(number)?;
            Ok(())
        }
        Variable::Object(_) => Ok(()),
    }
}

// ---- expressions

#[cycle(expression)]
fn add_at(place: &Lvalue, out: &mut Vec<u32>) -> Result<(), AllocError>
    ensures { OnOk result (out.new.items ≡ out.old.items ++ named_at (lvalue_view place.now)) }
{
    match place {
        Lvalue::Variable(variable) => add_variable(*variable, out),
        Lvalue::Element(array, index, _, _) => {
            add_at(array, out)?;
            add_in(index, out)?;
            Ok(())
        }
        Lvalue::Member(aggregate, _, _) => add_at(aggregate, out),
        Lvalue::Target(pointer, _) => add_in(pointer, out),
        Lvalue::Indexed(pointer, index, _, _) => {
            add_in(pointer, out)?;
            add_in(index, out)?;
            Ok(())
        }
        Lvalue::Arrow(pointer, _, _, _) => add_in(pointer, out),
    }
}

#[cycle(expression)]
fn add_in(e: &Expr, out: &mut Vec<u32>) -> Result<(), AllocError>
    ensures { OnOk result (out.new.items ≡ out.old.items ++ named_in (expr_view e.now)) }
{
    match e {
        Expr::Constant(_) => Ok(()),
        Expr::Null => Ok(()),
        Expr::Read(place) => add_at(place, out),
        Expr::Address(place) => add_at(place, out),
        Expr::Decay(place) => add_at(place, out),
        Expr::Cast(_, a) => add_in(a, out),
        Expr::Plus(a) => add_in(a, out),
        Expr::Minus(a) => add_in(a, out),
        Expr::Flip(a) => add_in(a, out),
        Expr::Not(a) => add_in(a, out),
        Expr::Binary(_, a, b) => {
            add_in(a, out)?;
            add_in(b, out)?;
            Ok(())
        }
        Expr::SamePointer(a, b) => {
            add_in(a, out)?;
            add_in(b, out)?;
            Ok(())
        }
        Expr::OtherPointer(a, b) => {
            add_in(a, out)?;
            add_in(b, out)?;
            Ok(())
        }
        Expr::Forward(a, b, _) => {
            add_in(a, out)?;
            add_in(b, out)?;
            Ok(())
        }
        Expr::ForwardFrom(a, b, _) => {
            add_in(a, out)?;
            add_in(b, out)?;
            Ok(())
        }
        Expr::Backward(a, b, _) => {
            add_in(a, out)?;
            add_in(b, out)?;
            Ok(())
        }
        Expr::Both(a, b) => {
            add_in(a, out)?;
            add_in(b, out)?;
            Ok(())
        }
        Expr::Either(a, b) => {
            add_in(a, out)?;
            add_in(b, out)?;
            Ok(())
        }
        Expr::Choice(test, a, b) => {
            add_in(test, out)?;
            add_in(a, out)?;
            add_in(b, out)?;
            Ok(())
        }
        Expr::Call(_, arguments) => add_in_all(arguments, out),
    }
}

#[cycle(expression)]
fn add_in_all(arguments: &Exprs, out: &mut Vec<u32>) -> Result<(), AllocError>
    ensures { OnOk result (out.new.items ≡ out.old.items ++ named_in_all (exprs_view arguments.now)) }
{
    let mut rest = arguments;
    while let Exprs::More(e, more) = rest {
        add_in(e, out)?;
        rest = more;
    }
    Ok(())
}

// ---- actions and initializers

fn add_by(act: &Act, out: &mut Vec<u32>) -> Result<(), AllocError>
    ensures { OnOk result (out.new.items ≡ out.old.items ++ named_by (act_view act.now)) }
{
    match act {
        Act::Evaluate(e) => add_in(e, out),
        Act::Call(_, arguments) => add_in_all(arguments, out),
        Act::Discard(e) => add_in(e, out),
        Act::DiscardCall(_, arguments) => add_in_all(arguments, out),
        Act::Assign(place, e) => add_sides(place, e, out),
        Act::Update(_, place, _, e) => add_sides(place, e, out),
        Act::Advance(place, e, _) => add_sides(place, e, out),
        Act::Retreat(place, e, _) => add_sides(place, e, out),
        Act::Bump(_, place) => add_at(place, out),
        Act::BumpPointer(_, place, _) => add_at(place, out),
    }
}

/// Adds those of what is changed, and of the operand at its right.
fn add_sides(place: &Lvalue, e: &Expr, out: &mut Vec<u32>) -> Result<(), AllocError>
    ensures { OnOk result (out.new.items ≡ out.old.items ++ (named_at (lvalue_view place.now) ++ named_in (expr_view e.now))) }
{
    add_at(place, out)?;
    add_in(e, out)?;
    Ok(())
}

fn add_by_all(acts: &Acts, out: &mut Vec<u32>) -> Result<(), AllocError>
    ensures { OnOk result (out.new.items ≡ out.old.items ++ named_by_all (acts_view acts.now)) }
{
    let mut rest = acts;
    while let Acts::More(act, more) = rest {
        add_by(act, out)?;
        rest = more;
    }
    Ok(())
}

#[cycle(initializer)]
fn add_in_initializer(init: &Init, out: &mut Vec<u32>) -> Result<(), AllocError>
    ensures { OnOk result (out.new.items ≡ out.old.items ++ named_in_initializer (init_view init.now)) }
{
    match init {
        Init::Value(e) => add_in(e, out),
        Init::Braces(members) => add_in_members(members, out),
    }
}

#[cycle(initializer)]
fn add_in_members(members: &Inits, out: &mut Vec<u32>) -> Result<(), AllocError>
    ensures { OnOk result (out.new.items ≡ out.old.items ++ named_in_members (inits_view members.now)) }
{
    let mut rest = members;
    while let Inits::More(init, _, more) = rest {
        add_in_initializer(init, out)?;
        rest = more;
    }
    Ok(())
}

fn add_in_test(test: &Option<Expr>, out: &mut Vec<u32>) -> Result<(), AllocError>
    ensures { OnOk result (out.new.items ≡ out.old.items ++ named_in_test (option_map expr_view test.now)) }
{
    match test {
        None => Ok(()),
        Some(test) => add_in(test, out),
    }
}

// ---- statements

#[cycle(statement)]
fn add_in_statement(statement: &Stmt, out: &mut Vec<u32>) -> Result<(), AllocError>
    ensures { OnOk result (out.new.items ≡ out.old.items ++ named_in_statement (stmt_view statement.now)) }
{
    match statement {
        Stmt::Block(body) => add_in_block(body, out),
        Stmt::Act(act) => add_by(act, out),
        Stmt::Declare(variable) => add_variable(*variable, out),
        Stmt::DeclareWith(variable, init) => add_declaration(*variable, init, out),
        Stmt::ReturnValue(e) => add_in(e, out),
        Stmt::If(test, first) => {
            add_in(test, out)?;
            add_in_statement(first, out)?;
            Ok(())
        }
        Stmt::IfElse(test, first, second) => {
            add_in(test, out)?;
            add_in_statement(first, out)?;
            add_in_statement(second, out)?;
            Ok(())
        }
        Stmt::While(_, test, body) => {
            add_in(test, out)?;
            add_in_statement(body, out)?;
            Ok(())
        }
        Stmt::DoWhile(_, body, test) => {
            add_in_statement(body, out)?;
            add_in(test, out)?;
            Ok(())
        }
        Stmt::For(_, first, test, last, body) => {
            add_in_block(first, out)?;
            add_in_test(test, out)?;
            add_by_all(last, out)?;
            add_in_statement(body, out)?;
            Ok(())
        }
        Stmt::Switch(e, groups) => {
            add_in(e, out)?;
            add_in_groups(groups, out)?;
            Ok(())
        }
        Stmt::Empty => Ok(()),
        Stmt::Break => Ok(()),
        Stmt::Continue => Ok(()),
        Stmt::Return => Ok(()),
    }
}

/// Adds a declaration's variable and those of its initializer.
fn add_declaration(variable: Variable, init: &Init, out: &mut Vec<u32>) -> Result<(), AllocError>
    ensures { OnOk result (out.new.items ≡ out.old.items ++ (local_in variable ++ named_in_initializer (init_view init.now))) }
{
    add_variable(variable, out)?;
    add_in_initializer(init, out)?;
    Ok(())
}

#[cycle(statement)]
fn add_in_block(body: &Stmts, out: &mut Vec<u32>) -> Result<(), AllocError>
    ensures { OnOk result (out.new.items ≡ out.old.items ++ named_in_block (stmts_view body.now)) }
{
    let mut rest = body;
    while let Stmts::More(statement, more) = rest {
        add_in_statement(statement, out)?;
        rest = more;
    }
    Ok(())
}

#[cycle(statement)]
fn add_in_groups(groups: &Groups, out: &mut Vec<u32>) -> Result<(), AllocError>
    ensures { OnOk result (out.new.items ≡ out.old.items ++ named_in_groups (groups_view groups.now)) }
{
    let mut rest = groups;
    while let Groups::More(_, body, more) = rest {
        add_in_block(body, out)?;
        rest = more;
    }
    Ok(())
}

/// Adds what a loop names in its condition, its last part and its body.
pub fn add_in_loop(statement: &Stmt, out: &mut Vec<u32>) -> Result<(), AllocError>
    ensures { OnOk result (out.new.items ≡ out.old.items ++ named_in_loop (stmt_view statement.now)) }
{
    match statement {
        Stmt::For(_, _, test, last, body) => {
            add_in_test(test, out)?;
            add_by_all(last, out)?;
            add_in_statement(body, out)?;
            Ok(())
        }
        Stmt::Block(_) => add_in_statement(statement, out),
        Stmt::Empty => add_in_statement(statement, out),
        Stmt::Act(_) => add_in_statement(statement, out),
        Stmt::Declare(_) => add_in_statement(statement, out),
        Stmt::DeclareWith(_, _) => add_in_statement(statement, out),
        Stmt::Break => add_in_statement(statement, out),
        Stmt::Continue => add_in_statement(statement, out),
        Stmt::Return => add_in_statement(statement, out),
        Stmt::ReturnValue(_) => add_in_statement(statement, out),
        Stmt::If(_, _) => add_in_statement(statement, out),
        Stmt::IfElse(_, _, _) => add_in_statement(statement, out),
        Stmt::While(_, _, _) => add_in_statement(statement, out),
        Stmt::DoWhile(_, _, _) => add_in_statement(statement, out),
        Stmt::Switch(_, _) => add_in_statement(statement, out),
    }
}
