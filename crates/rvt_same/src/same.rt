ghost use Rattle.std.specs.Prelude.{◌≡◌, ◌↔◌, IsTrue, option_map};
ghost use Rattle.rvt_tree.specs.Views.{lvalue_view, expr_view, exprs_view, act_view, acts_view, init_view, inits_view, labels_view, stmt_view, stmts_view, groups_view};
ghost use Rattle.rvt_tree.specs.Same.{ArePaired, SamePointee, SameVariable, SameLvalue, SameExpression, SameArguments, SameAction, SameActions, SameInitializer, SameInitializers, SameTest, SameHeader, SameStatement, SameStatements, SameGroups};

use crate::expression_forms::{
    as_address, as_arrow, as_binary, as_call, as_cast, as_complement, as_conditional, as_constant,
    as_decay, as_dereference, as_element, as_equal_pointers, as_identifier, as_logical_and,
    as_logical_or, as_member, as_minus, as_negation, as_plus, as_plus_pointer, as_pointer_minus,
    as_pointer_plus, as_subscript, as_unequal_pointers, as_value_at, is_null_pointer,
};
use crate::statement_forms::{
    as_action, as_advance, as_assign, as_braces, as_call_void, as_compound, as_compound_assign,
    as_declaration, as_declaration_with, as_discard, as_discard_void, as_do_loop, as_evaluate,
    as_for_header, as_for_loop, as_if_else, as_if_statement, as_initial_value, as_retreat,
    as_return_value, as_step, as_step_pointer, as_switch, as_while_loop, is_break_statement,
    is_continue_statement, is_null_statement, is_return_statement,
};
use rvt_tree::{
    Act, Acts, Expr, Exprs, Groups, Init, Inits, Labels, Lvalue, Pairing, Pointee, Stmt, Stmts,
    Variable,
};
use sqlite_items::Items;

/// Whether the first number is paired with the second.
pub fn are_paired(list: &Items<Option<u32>>, a: u32, b: u32) -> bool
    ensures { IsTrue result ↔ ArePaired list.now a b }
{
    match list.get(a as usize) {
        Some(Some(c)) => *c == b,
        _ => false,
    }
}

/// Whether two pointers point to the same.
pub fn same_pointee(pairing: &Pairing, a: Pointee, b: Pointee) -> bool
    ensures { IsTrue result ↔ SamePointee pairing.now a b }
{
    match (a, b) {
        (Pointee::Word(a), Pointee::Word(b)) => a == b,
        (Pointee::Struct(a), Pointee::Struct(b)) => are_paired(&pairing.structs, a, b),
        _ => false,
    }
}

fn same_variable(pairing: &Pairing, a: Variable, b: Variable) -> bool
    ensures { IsTrue result ↔ SameVariable pairing.now a b }
{
    match (a, b) {
        (Variable::Local(a), Variable::Local(b)) => a == b,
        (Variable::Object(a), Variable::Object(b)) => are_paired(&pairing.objects, a, b),
        _ => false,
    }
}

#[cycle(same_expression)]
fn same_exprs(pairing: &Pairing, a: &Exprs, b: &Exprs) -> bool
    ensures { IsTrue result ↔ SameArguments pairing.now (exprs_view a.now) (exprs_view b.now) }
{
    let mut left = a;
    let mut right = b;
    loop {
        match (left, right) {
            (Exprs::End, Exprs::End) => return true,
            (Exprs::More(x, left_rest), Exprs::More(y, right_rest)) => {
                if !same_expr(pairing, x, y) {
                    return false;
                }
                left = left_rest;
                right = right_rest;
            }
            _ => return false,
        }
    }
}

#[cycle(same_expression)]
fn same_lvalue(pairing: &Pairing, a: &Lvalue, b: &Lvalue) -> bool
    ensures { IsTrue result ↔ SameLvalue pairing.now (lvalue_view a.now) (lvalue_view b.now) }
{
    match a {
        Lvalue::Variable(variable) => match as_identifier(b) {
            Some(other_variable) => same_variable(pairing, *variable, other_variable),
            None => false
        },
        Lvalue::Element(array, index, count, size) => match as_element(b) {
            Some((other_array, other_index, other_count, other_size)) => same_lvalue(
                pairing,
                array,
                other_array,
            ) && same_expr(pairing, index, other_index)
                && *count == other_count
                && *size == other_size,
            None => false
        },
        Lvalue::Member(aggregate, field, cell) => match as_member(b) {
            Some((other_aggregate, other_field, other_cell)) => same_lvalue(
                pairing,
                aggregate,
                other_aggregate,
            ) && *field == other_field
                && *cell == other_cell,
            None => false
        },
        Lvalue::Target(pointer, pointee) => match as_dereference(b) {
            Some((other_pointer, other_pointee)) => same_expr(pairing, pointer, other_pointer)
                && same_pointee(pairing, *pointee, other_pointee),
            None => false
        },
        Lvalue::Indexed(pointer, index, pointee, size) => match as_subscript(b) {
            Some((other_pointer, other_index, other_pointee, other_size)) => same_expr(
                pairing,
                pointer,
                other_pointer,
            ) && same_expr(pairing, index, other_index)
                && same_pointee(pairing, *pointee, other_pointee)
                && *size == other_size,
            None => false
        },
        Lvalue::Arrow(pointer, structure, field, cell) => match as_arrow(b) {
            Some((other_pointer, other_structure, other_field, other_cell)) => same_expr(
                pairing,
                pointer,
                other_pointer,
            ) && are_paired(&pairing.structs, *structure, other_structure)
                && *field == other_field
                && *cell == other_cell,
            None => false
        },
    }
}

#[cycle(same_expression)]
fn same_expr(pairing: &Pairing, a: &Expr, b: &Expr) -> bool
    ensures { IsTrue result ↔ SameExpression pairing.now (expr_view a.now) (expr_view b.now) }
{
    match a {
        Expr::Constant(value) => match as_constant(b) {
            Some(other_value) => *value == other_value,
            None => false
        },
        Expr::Null => is_null_pointer(b),
        Expr::Read(place) => match as_value_at(b) {
            Some(other_place) => same_lvalue(pairing, place, other_place),
            None => false
        },
        Expr::Address(place) => match as_address(b) {
            Some(other_place) => same_lvalue(pairing, place, other_place),
            None => false
        },
        Expr::Decay(place) => match as_decay(b) {
            Some(other_place) => same_lvalue(pairing, place, other_place),
            None => false
        },
        Expr::Cast(kind, operand) => match as_cast(b) {
            Some((other_kind, other_operand)) => *kind == other_kind
                && same_expr(pairing, operand, other_operand),
            None => false
        },
        Expr::Plus(operand) => match as_plus(b) {
            Some(other_operand) => same_expr(pairing, operand, other_operand),
            None => false
        },
        Expr::Minus(operand) => match as_minus(b) {
            Some(other_operand) => same_expr(pairing, operand, other_operand),
            None => false
        },
        Expr::Flip(operand) => match as_complement(b) {
            Some(other_operand) => same_expr(pairing, operand, other_operand),
            None => false
        },
        Expr::Not(operand) => match as_negation(b) {
            Some(other_operand) => same_expr(pairing, operand, other_operand),
            None => false
        },
        Expr::Binary(op, left, right) => match as_binary(b) {
            Some((other_op, other_left, other_right)) => *op == other_op
                && same_expr(pairing, left, other_left)
                && same_expr(pairing, right, other_right),
            None => false
        },
        Expr::SamePointer(left, right) => match as_equal_pointers(b) {
            Some((other_left, other_right)) => same_expr(pairing, left, other_left)
                && same_expr(pairing, right, other_right),
            None => false
        },
        Expr::OtherPointer(left, right) => match as_unequal_pointers(b) {
            Some((other_left, other_right)) => same_expr(pairing, left, other_left)
                && same_expr(pairing, right, other_right),
            None => false
        },
        Expr::Forward(pointer, count, size) => match as_pointer_plus(b) {
            Some((other_pointer, other_count, other_size)) => same_expr(
                pairing,
                pointer,
                other_pointer,
            ) && same_expr(pairing, count, other_count)
                && *size == other_size,
            None => false
        },
        Expr::ForwardFrom(count, pointer, size) => match as_plus_pointer(b) {
            Some((other_count, other_pointer, other_size)) => same_expr(pairing, count, other_count)
                && same_expr(pairing, pointer, other_pointer)
                && *size == other_size,
            None => false
        },
        Expr::Backward(pointer, count, size) => match as_pointer_minus(b) {
            Some((other_pointer, other_count, other_size)) => same_expr(
                pairing,
                pointer,
                other_pointer,
            ) && same_expr(pairing, count, other_count)
                && *size == other_size,
            None => false
        },
        Expr::Both(left, right) => match as_logical_and(b) {
            Some((other_left, other_right)) => same_expr(pairing, left, other_left)
                && same_expr(pairing, right, other_right),
            None => false
        },
        Expr::Either(left, right) => match as_logical_or(b) {
            Some((other_left, other_right)) => same_expr(pairing, left, other_left)
                && same_expr(pairing, right, other_right),
            None => false
        },
        Expr::Choice(test, first, second) => match as_conditional(b) {
            Some((other_test, other_first, other_second)) => same_expr(pairing, test, other_test)
                && same_expr(pairing, first, other_first)
                && same_expr(pairing, second, other_second),
            None => false
        },
        Expr::Call(function, arguments) => match as_call(b) {
            Some((other_function, other_arguments)) => are_paired(
                &pairing.functions,
                *function,
                other_function,
            ) && same_exprs(pairing, arguments, other_arguments),
            None => false
        },
    }
}

fn same_act(pairing: &Pairing, a: &Act, b: &Act) -> bool
    ensures { IsTrue result ↔ SameAction pairing.now (act_view a.now) (act_view b.now) }
{
    match a {
        Act::Evaluate(e) => match as_evaluate(b) {
            Some(other_e) => same_expr(pairing, e, other_e),
            None => false
        },
        Act::Call(function, arguments) => match as_call_void(b) {
            Some((other_function, other_arguments)) => are_paired(
                &pairing.functions,
                *function,
                other_function,
            ) && same_exprs(pairing, arguments, other_arguments),
            None => false
        },
        Act::Discard(e) => match as_discard(b) {
            Some(other_e) => same_expr(pairing, e, other_e),
            None => false
        },
        Act::DiscardCall(function, arguments) => match as_discard_void(b) {
            Some((other_function, other_arguments)) => are_paired(
                &pairing.functions,
                *function,
                other_function,
            ) && same_exprs(pairing, arguments, other_arguments),
            None => false
        },
        Act::Assign(place, e) => match as_assign(b) {
            Some((other_place, other_e)) => same_lvalue(pairing, place, other_place)
                && same_expr(pairing, e, other_e),
            None => false
        },
        Act::Update(op, place, kind, e) => match as_compound_assign(b) {
            Some((other_op, other_place, other_kind, other_e)) => *op == other_op
                && same_lvalue(pairing, place, other_place)
                && *kind == other_kind
                && same_expr(pairing, e, other_e),
            None => false
        },
        Act::Advance(place, e, size) => match as_advance(b) {
            Some((other_place, other_e, other_size)) => same_lvalue(pairing, place, other_place)
                && same_expr(pairing, e, other_e)
                && *size == other_size,
            None => false
        },
        Act::Retreat(place, e, size) => match as_retreat(b) {
            Some((other_place, other_e, other_size)) => same_lvalue(pairing, place, other_place)
                && same_expr(pairing, e, other_e)
                && *size == other_size,
            None => false
        },
        Act::Bump(bump, place) => match as_step(b) {
            Some((other_bump, other_place)) => *bump == other_bump
                && same_lvalue(pairing, place, other_place),
            None => false
        },
        Act::BumpPointer(bump, place, size) => match as_step_pointer(b) {
            Some((other_bump, other_place, other_size)) => *bump == other_bump
                && same_lvalue(pairing, place, other_place)
                && *size == other_size,
            None => false
        },
    }
}

fn same_acts(pairing: &Pairing, a: &Acts, b: &Acts) -> bool
    ensures { IsTrue result ↔ SameActions pairing.now (acts_view a.now) (acts_view b.now) }
{
    let mut left = a;
    let mut right = b;
    loop {
        match (left, right) {
            (Acts::End, Acts::End) => return true,
            (Acts::More(x, left_rest), Acts::More(y, right_rest)) => {
                if !same_act(pairing, x, y) {
                    return false;
                }
                left = left_rest;
                right = right_rest;
            }
            _ => return false,
        }
    }
}

#[cycle(same_initializer)]
fn same_init(pairing: &Pairing, a: &Init, b: &Init) -> bool
    ensures { IsTrue result ↔ SameInitializer pairing.now (init_view a.now) (init_view b.now) }
{
    match a {
        Init::Value(e) => match as_initial_value(b) {
            Some(other_e) => same_expr(pairing, e, other_e),
            None => false
        },
        Init::Braces(members) => match as_braces(b) {
            Some(other_members) => same_inits(pairing, members, other_members),
            None => false
        },
    }
}

#[cycle(same_initializer)]
fn same_inits(pairing: &Pairing, a: &Inits, b: &Inits) -> bool
    ensures { IsTrue result ↔ SameInitializers pairing.now (inits_view a.now) (inits_view b.now) }
{
    let mut left = a;
    let mut right = b;
    loop {
        match (left, right) {
            (Inits::End, Inits::End) => return true,
            (Inits::More(x, size, left_rest), Inits::More(y, size_of_b, right_rest)) => {
                if !(same_init(pairing, x, y) && *size == *size_of_b) {
                    return false;
                }
                left = left_rest;
                right = right_rest;
            }
            _ => return false,
        }
    }
}

fn same_labels(a: &Labels, b: &Labels) -> bool
    ensures { IsTrue result ↔ (labels_view a.now ≡ labels_view b.now) }
{
    let mut left = a;
    let mut right = b;
    loop {
        match (left, right) {
            (Labels::End, Labels::End) => return true,
            (Labels::More(x, left_rest), Labels::More(y, right_rest)) => {
                if *x != *y {
                    return false;
                }
                left = left_rest;
                right = right_rest;
            }
            _ => return false,
        }
    }
}

fn same_test(pairing: &Pairing, a: &Option<Expr>, b: &Option<Expr>) -> bool
    ensures { IsTrue result ↔ SameTest pairing.now (option_map expr_view a.now) (option_map expr_view b.now) }
{
    match (a, b) {
        (None, None) => true,
        (Some(a), Some(b)) => same_expr(pairing, a, b),
        _ => false,
    }
}

pub fn same_header(pairing: &Pairing, test: &Option<Expr>, last: &Acts, b: &Stmt) -> bool
    ensures { IsTrue result ↔ SameHeader pairing.now (option_map expr_view test.now) (acts_view last.now) (stmt_view b.now) }
{
    match as_for_header(b) {
        Some((test_of_b, last_of_b)) => same_test(pairing, test, test_of_b)
            && same_acts(pairing, last, last_of_b),
        None => false,
    }
}

/// Whether two trees are equal where functions, objects and structs are compared through the pairing.
#[cycle(same_statement)]
pub fn same_tree(a: &Stmt, b: &Stmt, pairing: &Pairing) -> bool
    ensures { IsTrue result ↔ SameStatement pairing.now (stmt_view a.now) (stmt_view b.now) }
{
    match a {
        Stmt::Block(body) => match as_compound(b) {
            Some(other_body) => same_stmts(body, other_body, pairing),
            None => false
        },
        Stmt::Empty => is_null_statement(b),
        Stmt::Act(act) => match as_action(b) {
            Some(other_act) => same_act(pairing, act, other_act),
            None => false
        },
        Stmt::Declare(variable) => match as_declaration(b) {
            Some(other_variable) => same_variable(pairing, *variable, other_variable),
            None => false
        },
        Stmt::DeclareWith(variable, init) => match as_declaration_with(b) {
            Some((other_variable, other_init)) => same_variable(pairing, *variable, other_variable)
                && same_init(pairing, init, other_init),
            None => false
        },
        Stmt::Break => is_break_statement(b),
        Stmt::Continue => is_continue_statement(b),
        Stmt::Return => is_return_statement(b),
        Stmt::ReturnValue(e) => match as_return_value(b) {
            Some(other_e) => same_expr(pairing, e, other_e),
            None => false
        },
        Stmt::If(test, first) => match as_if_statement(b) {
            Some((other_test, other_first)) => same_expr(pairing, test, other_test)
                && same_tree(first, other_first, pairing),
            None => false
        },
        Stmt::IfElse(test, first, second) => match as_if_else(b) {
            Some((other_test, other_first, other_second)) => same_expr(pairing, test, other_test)
                && same_tree(first, other_first, pairing)
                && same_tree(second, other_second, pairing),
            None => false
        },
        Stmt::While(number, test, body) => match as_while_loop(b) {
            Some((other_number, other_test, other_body)) => *number == other_number
                && same_expr(pairing, test, other_test)
                && same_tree(body, other_body, pairing),
            None => false
        },
        Stmt::DoWhile(number, body, test) => match as_do_loop(b) {
            Some((other_number, other_body, other_test)) => *number == other_number
                && same_tree(body, other_body, pairing)
                && same_expr(pairing, test, other_test),
            None => false
        },
        Stmt::For(x, y, z, v, w) => match as_for_loop(b) {
            Some((x_of_b, y_of_b, w_of_b)) => *x == x_of_b
                && same_stmts(y, y_of_b, pairing)
                && same_tree(w, w_of_b, pairing)
                && same_header(pairing, z, v, b),
            None => false,
        },
        Stmt::Switch(e, groups) => match as_switch(b) {
            Some((other_e, other_groups)) => same_expr(pairing, e, other_e)
                && same_groups(groups, other_groups, pairing),
            None => false
        },
    }
}

#[cycle(same_statement)]
fn same_stmts(a: &Stmts, b: &Stmts, pairing: &Pairing) -> bool
    ensures { IsTrue result ↔ SameStatements pairing.now (stmts_view a.now) (stmts_view b.now) }
{
    let mut left = a;
    let mut right = b;
    loop {
        match (left, right) {
            (Stmts::End, Stmts::End) => return true,
            (Stmts::More(x, left_rest), Stmts::More(y, right_rest)) => {
                if !same_tree(x, y, pairing) {
                    return false;
                }
                left = left_rest;
                right = right_rest;
            }
            _ => return false,
        }
    }
}

#[cycle(same_statement)]
fn same_groups(a: &Groups, b: &Groups, pairing: &Pairing) -> bool
    ensures { IsTrue result ↔ SameGroups pairing.now (groups_view a.now) (groups_view b.now) }
{
    let mut left = a;
    let mut right = b;
    loop {
        match (left, right) {
            (Groups::End, Groups::End) => return true,
            (Groups::More(labels, x, left_rest), Groups::More(labels_of_b, y, right_rest)) => {
                if !(same_labels(labels, labels_of_b) && same_stmts(x, y, pairing)) {
                    return false;
                }
                left = left_rest;
                right = right_rest;
            }
            _ => return false,
        }
    }
}
