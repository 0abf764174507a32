//! Questions about the form of a tree.

ghost use Rattle.std.specs.Prelude.{◌≡◌, option_map};
ghost use Rattle.rvt_tree.specs.Views.{act_view, acts_view, expr_view, exprs_view, groups_view, init_view, inits_view, lvalue_view, stmt_view, stmts_view};
ghost use Rattle.rvt_tree.specs.Forms.{as_evaluate, as_call_void, as_discard, as_discard_void, as_assign, as_compound_assign, as_advance, as_retreat, as_step, as_step_pointer, as_initial_value, as_braces, as_compound, is_null_statement, as_action, as_declaration, as_declaration_with, is_break_statement, is_continue_statement, is_return_statement, as_return_value, as_if_statement, as_if_else, as_while_loop, as_do_loop, as_for_loop, as_for_header, as_switch};

use rvt_num::{BinOp, Kind};
use rvt_tree::{Act, Acts, Bump, Expr, Exprs, Groups, Init, Inits, Lvalue, Stmt, Stmts, Variable};

pub fn as_evaluate(e: &Act) -> Option<&Expr>
    ensures { option_map (λ a. expr_view a.now) result ≡ as_evaluate (act_view e.now) }
{
    if let Act::Evaluate(e) = e {
        Some(e)
    } else {
        None
    }
}

pub fn as_call_void(e: &Act) -> Option<(u32, &Exprs)>
    ensures { option_map (λ parts. (parts.0, exprs_view parts.1.now)) result ≡ as_call_void (act_view e.now) }
{
    if let Act::Call(function, arguments) = e {
        Some((*function, arguments))
    } else {
        None
    }
}

pub fn as_discard(e: &Act) -> Option<&Expr>
    ensures { option_map (λ a. expr_view a.now) result ≡ as_discard (act_view e.now) }
{
    if let Act::Discard(e) = e {
        Some(e)
    } else {
        None
    }
}

pub fn as_discard_void(e: &Act) -> Option<(u32, &Exprs)>
    ensures { option_map (λ parts. (parts.0, exprs_view parts.1.now)) result ≡ as_discard_void (act_view e.now) }
{
    if let Act::DiscardCall(function, arguments) = e {
        Some((*function, arguments))
    } else {
        None
    }
}

pub fn as_assign(e: &Act) -> Option<(&Lvalue, &Expr)>
    ensures { option_map (λ parts. (lvalue_view parts.0.now, expr_view parts.1.now)) result ≡ as_assign (act_view e.now) }
{
    if let Act::Assign(place, e) = e {
        Some((place, e))
    } else {
        None
    }
}

pub fn as_compound_assign(e: &Act) -> Option<(BinOp, &Lvalue, Kind, &Expr)>
    ensures { option_map (λ parts. (parts.0, lvalue_view parts.1.now, parts.2, expr_view parts.3.now)) result ≡ as_compound_assign (act_view e.now) }
{
    if let Act::Update(op, place, kind, e) = e {
        Some((*op, place, *kind, e))
    } else {
        None
    }
}

pub fn as_advance(e: &Act) -> Option<(&Lvalue, &Expr, u32)>
    ensures { option_map (λ parts. (lvalue_view parts.0.now, expr_view parts.1.now, parts.2)) result ≡ as_advance (act_view e.now) }
{
    if let Act::Advance(place, e, size) = e {
        Some((place, e, *size))
    } else {
        None
    }
}

pub fn as_retreat(e: &Act) -> Option<(&Lvalue, &Expr, u32)>
    ensures { option_map (λ parts. (lvalue_view parts.0.now, expr_view parts.1.now, parts.2)) result ≡ as_retreat (act_view e.now) }
{
    if let Act::Retreat(place, e, size) = e {
        Some((place, e, *size))
    } else {
        None
    }
}

pub fn as_step(e: &Act) -> Option<(Bump, &Lvalue)>
    ensures { option_map (λ parts. (parts.0, lvalue_view parts.1.now)) result ≡ as_step (act_view e.now) }
{
    if let Act::Bump(bump, place) = e {
        Some((*bump, place))
    } else {
        None
    }
}

pub fn as_step_pointer(e: &Act) -> Option<(Bump, &Lvalue, u32)>
    ensures { option_map (λ parts. (parts.0, lvalue_view parts.1.now, parts.2)) result ≡ as_step_pointer (act_view e.now) }
{
    if let Act::BumpPointer(bump, place, size) = e {
        Some((*bump, place, *size))
    } else {
        None
    }
}

pub fn as_initial_value(e: &Init) -> Option<&Expr>
    ensures { option_map (λ a. expr_view a.now) result ≡ as_initial_value (init_view e.now) }
{
    if let Init::Value(e) = e {
        Some(e)
    } else {
        None
    }
}

pub fn as_braces(e: &Init) -> Option<&Inits>
    ensures { option_map (λ a. inits_view a.now) result ≡ as_braces (init_view e.now) }
{
    if let Init::Braces(members) = e {
        Some(&**members)
    } else {
        None
    }
}

pub fn as_compound(e: &Stmt) -> Option<&Stmts>
    ensures { option_map (λ a. stmts_view a.now) result ≡ as_compound (stmt_view e.now) }
{
    if let Stmt::Block(body) = e {
        Some(&**body)
    } else {
        None
    }
}

pub fn is_null_statement(e: &Stmt) -> bool
    ensures { result ≡ is_null_statement (stmt_view e.now) }
{
    if let Stmt::Empty = e { true } else { false }
}

pub fn as_action(e: &Stmt) -> Option<&Act>
    ensures { option_map (λ a. act_view a.now) result ≡ as_action (stmt_view e.now) }
{
    if let Stmt::Act(act) = e {
        Some(act)
    } else {
        None
    }
}

pub fn as_declaration(e: &Stmt) -> Option<Variable>
    ensures { result ≡ as_declaration (stmt_view e.now) }
{
    if let Stmt::Declare(variable) = e {
        Some(*variable)
    } else {
        None
    }
}

pub fn as_declaration_with(e: &Stmt) -> Option<(Variable, &Init)>
    ensures { option_map (λ parts. (parts.0, init_view parts.1.now)) result ≡ as_declaration_with (stmt_view e.now) }
{
    if let Stmt::DeclareWith(variable, init) = e {
        Some((*variable, init))
    } else {
        None
    }
}

pub fn is_break_statement(e: &Stmt) -> bool
    ensures { result ≡ is_break_statement (stmt_view e.now) }
{
    if let Stmt::Break = e { true } else { false }
}

pub fn is_continue_statement(e: &Stmt) -> bool
    ensures { result ≡ is_continue_statement (stmt_view e.now) }
{
    if let Stmt::Continue = e { true } else { false }
}

pub fn is_return_statement(e: &Stmt) -> bool
    ensures { result ≡ is_return_statement (stmt_view e.now) }
{
    if let Stmt::Return = e { true } else { false }
}

pub fn as_return_value(e: &Stmt) -> Option<&Expr>
    ensures { option_map (λ a. expr_view a.now) result ≡ as_return_value (stmt_view e.now) }
{
    if let Stmt::ReturnValue(e) = e {
        Some(e)
    } else {
        None
    }
}

pub fn as_if_statement(e: &Stmt) -> Option<(&Expr, &Stmt)>
    ensures { option_map (λ parts. (expr_view parts.0.now, stmt_view parts.1.now)) result ≡ as_if_statement (stmt_view e.now) }
{
    if let Stmt::If(test, first) = e {
        Some((test, &**first))
    } else {
        None
    }
}

pub fn as_if_else(e: &Stmt) -> Option<(&Expr, &Stmt, &Stmt)>
    ensures { option_map (λ parts. (expr_view parts.0.now, stmt_view parts.1.now, stmt_view parts.2.now)) result ≡ as_if_else (stmt_view e.now) }
{
    if let Stmt::IfElse(test, first, second) = e {
        Some((test, &**first, &**second))
    } else {
        None
    }
}

pub fn as_while_loop(e: &Stmt) -> Option<(u32, &Expr, &Stmt)>
    ensures { option_map (λ parts. (parts.0, expr_view parts.1.now, stmt_view parts.2.now)) result ≡ as_while_loop (stmt_view e.now) }
{
    if let Stmt::While(number, test, body) = e {
        Some((*number, test, &**body))
    } else {
        None
    }
}

pub fn as_do_loop(e: &Stmt) -> Option<(u32, &Stmt, &Expr)>
    ensures { option_map (λ parts. (parts.0, stmt_view parts.1.now, expr_view parts.2.now)) result ≡ as_do_loop (stmt_view e.now) }
{
    if let Stmt::DoWhile(number, body, test) = e {
        Some((*number, &**body, test))
    } else {
        None
    }
}

/// The number, what stands first, and the body.
pub fn as_for_loop(e: &Stmt) -> Option<(u32, &Stmts, &Stmt)>
    ensures { option_map (λ parts. (parts.0, stmts_view parts.1.now, stmt_view parts.2.now)) result ≡ as_for_loop (stmt_view e.now) }
{
    if let Stmt::For(a, b, _, _, c) = e {
        Some((*a, &**b, &**c))
    } else {
        None
    }
}

/// The test and what stands last.
pub fn as_for_header(e: &Stmt) -> Option<(&Option<Expr>, &Acts)>
    ensures { option_map (λ parts. (option_map expr_view parts.0.now, acts_view parts.1.now)) result ≡ as_for_header (stmt_view e.now) }
{
    if let Stmt::For(_, _, a, b, _) = e {
        Some((a, b))
    } else {
        None
    }
}

pub fn as_switch(e: &Stmt) -> Option<(&Expr, &Groups)>
    ensures { option_map (λ parts. (expr_view parts.0.now, groups_view parts.1.now)) result ≡ as_switch (stmt_view e.now) }
{
    if let Stmt::Switch(e, groups) = e {
        Some((e, &**groups))
    } else {
        None
    }
}
