//! The code of statements (C 6.8).

ghost use Rattle.std.specs.Prelude.{◌≡◌, ◌<◌, ◌≤◌, List, [], ◌∷◌, ◌++◌, length, option_map, OnOk};
ghost use Rattle.rvt_tree.specs.Views.{expr_view, act_view, acts_view, init_view, labels_view, stmt_view, stmts_view, groups_view};
ghost use Rattle.c_code.specs.Expressions.{passing, choosing, value_code};
ghost use Rattle.c_code.specs.Acts.{act_code, acts_code};
ghost use Rattle.c_code.specs.Initializers.{count_of};
ghost use Rattle.c_code.specs.Statements.{forgetting, left_by, leaving, test_code, looping, group_code, declaring, statement_code, block_code, rest_code, groups_code};
ghost use Rattle.c_code.specs.declared.instructions.Manner.TheVariants as M;
ghost use Rattle.c_code.specs.declared.instructions.When.TheVariants as W;
ghost use Rattle.c_code.specs.declared.instructions.Instruction.{Instruction};
ghost use Rattle.c_code.specs.declared.instructions.Instruction.TheVariants as I;

use crate::acts::{act, acts};
use crate::emitting::{begin_second, jump_over, leave_room, put};
use crate::expressions::{truth, value};
use crate::initializers::{CellCounts, initializer};
use crate::instructions::{Instruction, Manner, When};
use crate::loops::{close_group, close_loop, labels};
use rvt_tree::{Act, Acts, Expr, Groups, Init, Labels, Stmt, Stmts, Variable};
use std::alloc::AllocError;

#[cycle(statement)]
pub fn statement(
    code: &mut Vec<Instruction>,
    s: &Stmt,
    counts: &CellCounts,
) -> Result<(), AllocError>
    ensures { OnOk result (code.new.items ≡ code.old.items ++ statement_code counts.now (stmt_view s.now)) }
{
    match s {
        Stmt::Block(body) => scope(code, body, counts),
        Stmt::Empty => put(code, Instruction::End(Manner::Normally)),
        Stmt::Act(a) => finished_act(code, a),
        Stmt::Declare(variable) => declare(code, *variable),
        Stmt::DeclareWith(variable, init) => declare_with(code, *variable, init, counts),
        Stmt::Break => put(code, Instruction::End(Manner::Broke)),
        Stmt::Continue => put(code, Instruction::End(Manner::Continued)),
        Stmt::Return => put(code, Instruction::ReturnNothing),
        Stmt::ReturnValue(e) => return_value(code, e),
        Stmt::If(test, first) => {
            value(code, test, 0, 0)?;
            guarded(code, first, counts)
        }
        Stmt::IfElse(test, first, second) => {
            value(code, test, 0, 0)?;
            let at = leave_room(code)?;
            statement(code, first, counts)?;
            let behind = begin_second(code, at, 0)?;
            statement(code, second, counts)?;
            jump_over(code, behind, When::Always);
            Ok(())
        }
        Stmt::While(_, test, body) => {
            put(code, Instruction::Spend)?;
            let head = code.len();
            value(code, test, 0, 0)?;
            let exit = leave_room(code)?;
            rounds(code, body, counts, head, exit)?;
            Ok(())
        }
        Stmt::DoWhile(_, body, test) => {
            let start = leave_room(code)?;
            let head = code.len();
            value(code, test, 0, 0)?;
            let exit = leave_room(code)?;
            jump_over(code, start, When::Always);
            rounds(code, body, counts, head, exit)?;
            Ok(())
        }
        Stmt::For(_, first, test, last, body) => {
            block(code, first, counts)?;
            put(code, Instruction::Spend)?;
            let head = code.len();
            test_of(code, test)?;
            let exit = leave_room(code)?;
            rounds_with(code, body, last, counts, head, exit)?;
            leave(code, first)?;
            Ok(())
        }
        Stmt::Switch(e, list) => {
            value(code, e, 0, 0)?;
            put(code, Instruction::Select(0))?;
            groups(code, list, counts)?;
            put(code, Instruction::LeaveSwitch)
        }
    }
}

fn finished_act(code: &mut Vec<Instruction>, a: &Act) -> Result<(), AllocError>
    ensures { OnOk result (code.new.items ≡ code.old.items ++ (act_code (act_view a.now) ++ I.End M.Normally ∷ [])) }
{
    act(code, a)?;
    put(code, Instruction::End(Manner::Normally))
}

fn declare(code: &mut Vec<Instruction>, variable: Variable) -> Result<(), AllocError>
    ensures { OnOk result (code.new.items ≡ code.old.items ++ I.Clear variable ∷ I.End M.Normally ∷ []) }
{
    put(code, Instruction::Clear(variable))?;
    put(code, Instruction::End(Manner::Normally))
}

fn declare_with(
    code: &mut Vec<Instruction>,
    variable: Variable,
    init: &Init,
    counts: &CellCounts,
) -> Result<(), AllocError>
    ensures { OnOk result (code.new.items ≡ code.old.items ++ declaring variable (init_view init.now) (count_of counts.now variable)) }
{
    let count = counts.count(variable);
    put(code, Instruction::Begin(variable, count))?;
    let behind = initializer(code, init, 0, count, count)?;
    put(
        code,
        Instruction::Initialize(variable, count, behind - count),
    )?;
    put(code, Instruction::End(Manner::Normally))
}

fn return_value(code: &mut Vec<Instruction>, e: &Expr) -> Result<(), AllocError>
    ensures { OnOk result (code.new.items ≡ code.old.items ++ (value_code (expr_view e.now) 0 0 ++ I.Return 0 ∷ [])) }
{
    value(code, e, 0, 0)?;
    put(code, Instruction::Return(0))
}

/// The test of a `for`, which may be left out.
fn test_of(code: &mut Vec<Instruction>, test: &Option<Expr>) -> Result<(), AllocError>
    ensures { OnOk result (code.new.items ≡ code.old.items ++ test_code (option_map expr_view test.now)) }
{
    match test {
        None => put(code, truth(1, 0)),
        Some(e) => value(code, e, 0, 0),
    }
}

/// A statement that is done where the value in the first slot holds.
#[cycle(statement)]
fn guarded(code: &mut Vec<Instruction>, first: &Stmt, counts: &CellCounts) -> Result<(), AllocError>
    ensures { OnOk result (code.new.items ≡ code.old.items ++ choosing 0 (statement_code counts.now (stmt_view first.now)) (I.End M.Normally ∷ [])) }
{
    let at = leave_room(code)?;
    statement(code, first, counts)?;
    let behind = begin_second(code, at, 0)?;
    put(code, Instruction::End(Manner::Normally))?;
    jump_over(code, behind, When::Always);
    Ok(())
}

/// The rounds of a loop whose test stands, with room for the way out behind it.
#[cycle(statement)]
fn rounds(
    code: &mut Vec<Instruction>,
    body: &Stmt,
    counts: &CellCounts,
    head: usize,
    exit: usize,
) -> Result<(), AllocError>
    requires head { head ≤ exit }
    requires exit { exit < length code.old.items }
    ensures { OnOk result ((before test : List Instruction) (room : Instruction) → code.old.items ≡ before ++ (test ++ room ∷ []) → head ≡ length before → exit ≡ length (before ++ test) → code.new.items ≡ before ++ looping test (statement_code counts.now (stmt_view body.now))) }
{
    statement(code, body, counts)?;
    close_loop(code, head, exit)?;
    Ok(())
}

/// The same with what comes last in each round.
#[cycle(statement)]
fn rounds_with(
    code: &mut Vec<Instruction>,
    body: &Stmt,
    last: &Acts,
    counts: &CellCounts,
    head: usize,
    exit: usize,
) -> Result<(), AllocError>
    requires head { head ≤ exit }
    requires exit { exit < length code.old.items }
    ensures { OnOk result ((before test : List Instruction) (room : Instruction) → code.old.items ≡ before ++ (test ++ room ∷ []) → head ≡ length before → exit ≡ length (before ++ test) → code.new.items ≡ before ++ looping test (statement_code counts.now (stmt_view body.now) ++ passing W.Broke (acts_code (acts_view last.now)))) }
{
    statement(code, body, counts)?;
    let over = leave_room(code)?;
    acts(code, last)?;
    jump_over(code, over, When::Broke);
    close_loop(code, head, exit)?;
    Ok(())
}

/// Statements with their scope.
#[cycle(statement)]
fn scope(code: &mut Vec<Instruction>, body: &Stmts, counts: &CellCounts) -> Result<(), AllocError>
    ensures { OnOk result (code.new.items ≡ code.old.items ++ (block_code counts.now (stmts_view body.now) ++ leaving (stmts_view body.now))) }
{
    block(code, body, counts)?;
    leave(code, body)
}

/// Statements in order.
#[cycle(statement)]
fn block(code: &mut Vec<Instruction>, body: &Stmts, counts: &CellCounts) -> Result<(), AllocError>
    ensures { OnOk result (code.new.items ≡ code.old.items ++ block_code counts.now (stmts_view body.now)) }
{
    match body {
        Stmts::End => put(code, Instruction::End(Manner::Normally)),
        Stmts::More(first, others) => {
            statement(code, first, counts)?;
            rest(code, others, counts)
        }
    }
}

/// Statements that are done only where those before them ended normally.
#[cycle(statement)]
fn rest(code: &mut Vec<Instruction>, body: &Stmts, counts: &CellCounts) -> Result<(), AllocError>
    ensures { OnOk result (code.new.items ≡ code.old.items ++ rest_code counts.now (stmts_view body.now)) }
{
    let mut left = body;
    'rest: while let Stmts::More(first, others) = left {
        skippable(code, first, counts)?;
        left = others;
    }
    Ok(())
}

#[cycle(statement)]
fn skippable(code: &mut Vec<Instruction>, s: &Stmt, counts: &CellCounts) -> Result<(), AllocError>
    ensures { OnOk result (code.new.items ≡ code.old.items ++ passing W.Abrupt (statement_code counts.now (stmt_view s.now))) }
{
    let at = leave_room(code)?;
    statement(code, s, counts)?;
    jump_over(code, at, When::Abrupt);
    Ok(())
}

/// The scope of the declarations among statements is left.
fn leave(code: &mut Vec<Instruction>, body: &Stmts) -> Result<(), AllocError>
    ensures { OnOk result (code.new.items ≡ code.old.items ++ leaving (stmts_view body.now)) }
{
    let mut left = body;
    'declarations: while let Stmts::More(first, others) = left {
        forget(code, first)?;
        left = others;
    }
    Ok(())
}

fn forget(code: &mut Vec<Instruction>, s: &Stmt) -> Result<(), AllocError>
    ensures { OnOk result (code.new.items ≡ code.old.items ++ left_by (stmt_view s.now)) }
{
    match s {
        Stmt::Declare(variable) => forget_variable(code, *variable),
        Stmt::DeclareWith(variable, _) => forget_variable(code, *variable),
        Stmt::Block(_) => Ok(()),
        Stmt::Empty => Ok(()),
        Stmt::Act(_) => Ok(()),
        Stmt::Break => Ok(()),
        Stmt::Continue => Ok(()),
        Stmt::Return => Ok(()),
        Stmt::ReturnValue(_) => Ok(()),
        Stmt::If(_, _) => Ok(()),
        Stmt::IfElse(_, _, _) => Ok(()),
        Stmt::While(_, _, _) => Ok(()),
        Stmt::DoWhile(_, _, _) => Ok(()),
        Stmt::For(_, _, _, _, _) => Ok(()),
        Stmt::Switch(_, _) => Ok(()),
    }
}

fn forget_variable(code: &mut Vec<Instruction>, variable: Variable) -> Result<(), AllocError>
    ensures { OnOk result (code.new.items ≡ code.old.items ++ forgetting variable) }
{
    match variable {
        Variable::Local(number) => put(code, Instruction::Forget(number)),
        Variable::Object(_) => Ok(()),
    }
}

/// The groups of a `switch`.
#[cycle(statement)]
fn groups(code: &mut Vec<Instruction>, list: &Groups, counts: &CellCounts) -> Result<(), AllocError>
    ensures { OnOk result (code.new.items ≡ code.old.items ++ groups_code counts.now (groups_view list.now)) }
{
    let mut left = list;
    'groups: while let Groups::More(names, body, others) = left {
        group(code, names, body, counts)?;
        left = others;
    }
    Ok(())
}

#[cycle(statement)]
fn group(
    code: &mut Vec<Instruction>,
    names: &Labels,
    body: &Stmts,
    counts: &CellCounts,
) -> Result<(), AllocError>
    ensures { OnOk result (code.new.items ≡ code.old.items ++ group_code (labels_view names.now) (block_code counts.now (stmts_view body.now) ++ leaving (stmts_view body.now))) }
{
    let at = leave_room(code)?;
    let count = labels(code, names)?;
    scope(code, body, counts)?;
    close_group(code, at, count);
    Ok(())
}
