//! What an expression becomes (C 6.5): operands in their order and before their operator.

ghost use Rattle.std.specs.Prelude.{◌≡◌, IfOk, map, length};
ghost use Rattle.c_types.specs.Layout.{shape_of};
ghost use Rattle.rvt_tree.specs.Views.{expr_view as typed_view};
ghost use Rattle.c_syntax.specs.Syntax.{type_name, no_suffixes, call};
ghost use Rattle.c_syntax.specs.Views.{expr_view, exprs_view as arguments_view, suffixes_view, casts_view, dims_view, dim_view};
ghost use Rattle.expression_typing.specs.Outcomes.{and_then, give};
ghost use Rattle.expression_typing.specs.FirstTokens.{first_token, ends_of};
ghost use Rattle.expression_typing.specs.FunctionCalls.{passed_as, count};
ghost use Rattle.expression_typing.specs.Expressions.{typed, operand, passed, followed, written_type, lengths, constant};
ghost use Rattle.typing_base.specs.Views.{operand_view, scope_view, notes_view};
ghost use Rattle.typing_base.specs.Follows.{Becomes, BecomesOperand};
ghost use Rattle.place_rules.specs.Views.{ends_view};
ghost use Rattle.operator_rules.specs.Views.{written_view};
ghost use Rattle.expression_elaboration.specs.Views.{cast_view};
ghost use Rattle.expression_elaboration.specs.Chains.{after, types_in_turn, cast_back, values_of, length_of};

use crate::chains::{CastTo, cast_back, chain_of, put, put_cast, put_length};
use crate::first_tokens::{ends_of, first_token};
use crate::prefixes::prefixed;
use crate::sizes::{size_of_operand, size_of_type};
use crate::type_names::{base_type, pointed};
use c_syntax::{Base, Casts, Dim, Dims, Expr, Exprs, Pointer, Suffixes, Word};
use operator_rules::{WrittenType, choice_of, integer_constant_of, operated, passed_as};
use place_rules::{
    Ends, arrow_of, called, callee, character_constant, converted_operand, element_of,
    integer_constant, later, member_of, named,
};
use rvt_num::Num;
use rvt_tree::{CType, builders};
use std::alloc::Global;
use typing_base::{Fault, Notes, Operand, Scope};

/// An expression, which may be an lvalue.
#[cycle(typed)]
pub fn typed<'t>(
    alloc: Global,
    scope: Scope<'t>,
    e: &Expr,
    notes: &mut Notes,
) -> Result<Operand<'t>, Fault>
    ensures { BecomesOperand (typed (scope_view scope.entry) (expr_view e.now) (notes_view notes.old)) result notes.new }
{
    match e {
        Expr::Name(word) => named(alloc, word, scope.entity(word.name.bytes())),
        Expr::Constant(number, _) => Ok(integer_constant(*number)),
        Expr::Character(number, _) => Ok(character_constant(*number)),
        Expr::Call(function, arguments) => call(alloc, scope, function, arguments, notes),
        Expr::Paren(_, inner) => typed(alloc, scope, inner, notes),
        Expr::Postfix(primary, suffixes) => {
            let x = typed(alloc, scope, primary, notes)?;
            followed(alloc, scope, ends_of(primary), x, suffixes, notes)
        }
        Expr::Unary(op, at, x) => {
            let ends = ends_of(x);
            let x = typed(alloc, scope, x, notes)?;
            prefixed(alloc, scope, *op, *at, ends, x, notes)
        }
        Expr::Cast(casts, x) => {
            let types = types_in_turn(alloc, scope, casts, notes)?;
            let x = operand(alloc, scope, x, notes)?;
            cast_back(alloc, types, x)
        }
        Expr::SizeofExpr(at, x) => {
            let x = typed(alloc, scope.unevaluated(), x, notes)?;
            size_of_operand(scope.structs(), *at, &x)
        }
        Expr::SizeofType(at, base, pointer, dims) => {
            let unevaluated = scope.unevaluated();
            let written = written_type(alloc, unevaluated, base, *pointer, dims, notes)?;
            size_of_type(scope.structs(), *at, &written)
        }
        Expr::Binary(op, at, left, right) => {
            let x = operand(alloc, scope, left, notes)?;
            let y = operand(alloc, scope, right, notes)?;
            operated(alloc, scope.structs(), *op, *at, x, y)
        }
        Expr::Conditional(at, test, first, second) => {
            let condition = operand(alloc, scope, test, notes)?;
            let x = operand(alloc, scope, first, notes)?;
            let y = operand(alloc, scope, second, notes)?;
            choice_of(alloc, *at, condition, x, y)
        }
    }
}

/// An expression as an operand: no lvalue but a struct's, and no array (C 6.3.2.1).
#[cycle(typed)]
pub fn operand<'t>(
    alloc: Global,
    scope: Scope<'t>,
    e: &Expr,
    notes: &mut Notes,
) -> Result<Operand<'t>, Fault>
    ensures { BecomesOperand (operand (scope_view scope.entry) (expr_view e.now) (notes_view notes.old)) result notes.new }
{
    let x = typed(alloc, scope, e, notes)?;
    converted_operand(alloc, scope, ends_of(e), x, notes)
}

/// A call (C 6.5.2.2).
#[cycle(typed)]
fn call<'t>(
    alloc: Global,
    scope: Scope<'t>,
    function: &Word,
    arguments: &Exprs,
    notes: &mut Notes,
) -> Result<Operand<'t>, Fault>
    ensures { BecomesOperand (typed (scope_view scope.entry) (call function.now (arguments_view arguments.now)) (notes_view notes.old)) result notes.new }
{
    let entity = scope.entity(function.name.bytes());
    let to = callee(alloc, scope, function, entity, notes)?;
    let values = passed(alloc, scope, arguments, to.params, notes)?;
    let n = values.len();
    let values = builders::arguments(alloc, values)?;
    called(alloc, function.place, to, n, values)
}

/// The arguments from left to right, each with its conversion (C 6.5.2.2).
#[cycle(typed)]
fn passed(
    alloc: Global,
    scope: Scope,
    arguments: &Exprs,
    params: &[CType],
    notes: &mut Notes,
) -> Result<Vec<rvt_tree::Expr>, Fault>
    ensures values { Becomes (λ values. values_of values.items) (passed (scope_view scope.entry) (map shape_of params.now) (arguments_view arguments.now) (notes_view notes.old)) result notes.new }
    ensures number { IfOk result (λ values. length values.items ≡ count (arguments_view arguments.now)) }
{
    let mut made = Vec::new(alloc);
    let mut params = params;
    let mut rest = arguments;
    'arguments: while let Exprs::More(e, others) = rest {
        let value = argument(alloc, scope, e, params, notes)?;
        put(&mut made, value)?;
        params = later(params);
        rest = others;
    }
    Ok(made)
}

/// An argument for the first of these parameters.
#[cycle(typed)]
fn argument(
    alloc: Global,
    scope: Scope,
    e: &Expr,
    params: &[CType],
    notes: &mut Notes,
) -> Result<rvt_tree::Expr, Fault>
    ensures { Becomes typed_view (and_then (operand (scope_view scope.entry) (expr_view e.now)) (passed_as (first_token (expr_view e.now)) (map shape_of params.now)) (notes_view notes.old)) result notes.new }
{
    let x = operand(alloc, scope, e, notes)?;
    passed_as(alloc, first_token(e), params, x)
}

/// A primary expression with what follows it (C 6.5.2).
#[cycle(typed)]
fn followed<'t>(
    alloc: Global,
    scope: Scope<'t>,
    ends: Ends,
    primary: Operand<'t>,
    suffixes: &Suffixes,
    notes: &mut Notes,
) -> Result<Operand<'t>, Fault>
    ensures { BecomesOperand (followed (scope_view scope.entry) (ends_view ends) (give (operand_view primary.entry)) (suffixes_view suffixes.now) (notes_view notes.old)) result notes.new }
{
    let mut chain = chain_of(alloc, suffixes)?;
    let mut x = primary;
    'suffixes: while let Some(suffix) = chain.pop() {
        match followed_by(alloc, scope, ends, x, suffix, notes) {
            Ok(made) => x = made,
            Err(fault) => return Err(fault),
        }
    }
    Ok(x)
}

/// What one suffix makes of what it follows.
#[cycle(typed)]
fn followed_by<'t>(
    alloc: Global,
    scope: Scope<'t>,
    ends: Ends,
    x: Operand<'t>,
    suffix: &Suffixes,
    notes: &mut Notes,
) -> Result<Operand<'t>, Fault>
    ensures { BecomesOperand (followed (scope_view scope.entry) (ends_view ends) (give (operand_view x.entry)) (after (suffixes_view suffix.now) no_suffixes) (notes_view notes.old)) result notes.new }
{
    match suffix {
        Suffixes::End => Ok(x),
        Suffixes::Index(at, i, _) => {
            let y = operand(alloc, scope, i, notes)?;
            element_of(alloc, scope.structs(), *at, x, y)
        }
        Suffixes::Dot(at, word, _) => member_of(alloc, scope.structs(), *at, word, x),
        Suffixes::Arrow(at, word, _) => {
            let pointer = converted_operand(alloc, scope, ends, x, notes)?;
            arrow_of(alloc, scope.structs(), *at, word, pointer)
        }
    }
}

/// The types of casts, in order (C 6.5.4).
#[cycle(typed)]
fn types_in_turn(
    alloc: Global,
    scope: Scope,
    casts: &Casts,
    notes: &mut Notes,
) -> Result<Vec<CastTo>, Fault>
    ensures { Becomes (λ types. map cast_view types.items) (types_in_turn (scope_view scope.entry) (casts_view casts.now) (notes_view notes.old)) result notes.new }
{
    let mut made = Vec::new(alloc);
    let mut rest = casts;
    'casts: while let Casts::More(at, base, pointer, dims, others) = rest {
        let ty = written_type(alloc, scope, base, *pointer, dims, notes)?;
        put_cast(&mut made, *at, ty)?;
        rest = others;
    }
    Ok(made)
}

/// The name of a type (C 6.7.7).
#[cycle(typed)]
fn written_type(
    alloc: Global,
    scope: Scope,
    base: &Base,
    pointer: Option<Pointer>,
    dims: &Dims,
    notes: &mut Notes,
) -> Result<WrittenType, Fault>
    ensures { Becomes written_view (written_type (scope_view scope.entry) (type_name base.now pointer (dims_view dims.now)) (notes_view notes.old)) result notes.new }
{
    let ty = base_type(alloc, scope, base)?;
    let lengths = lengths(alloc, scope, dims, notes)?;
    Ok(WrittenType {
        place: base.place,
        ty: pointed(pointer, ty),
        lengths,
    })
}

/// The lengths of an array, in order, each a constant expression; `None` for `[]` (C 6.7.6.2).
#[cycle(typed)]
pub fn lengths(
    alloc: Global,
    scope: Scope,
    dims: &Dims,
    notes: &mut Notes,
) -> Result<Vec<Option<i128>>, Fault>
    ensures { Becomes (λ lengths. lengths.items) (lengths (scope_view scope.entry) (dims_view dims.now) (notes_view notes.old)) result notes.new }
{
    let mut made = Vec::new(alloc);
    let mut rest = dims;
    'dimensions: while let Dims::More(dim, others) = rest {
        let length = length_of(alloc, scope, dim, notes)?;
        put_length(&mut made, length)?;
        rest = others;
    }
    Ok(made)
}

/// The length of one dimension.
#[cycle(typed)]
fn length_of(
    alloc: Global,
    scope: Scope,
    dim: &Dim,
    notes: &mut Notes,
) -> Result<Option<i128>, Fault>
    ensures { Becomes (λ length. length) (length_of (scope_view scope.entry) (dim_view dim.now) (notes_view notes.old)) result notes.new }
{
    match dim {
        Dim::Open(_) => Ok(None),
        Dim::Size(_, e) => {
            let number = constant(alloc, scope, e, notes)?;
            Ok(Some(number.value()))
        }
    }
}

/// An integer constant expression (C 6.6).
#[cycle(typed)]
pub fn constant(alloc: Global, scope: Scope, e: &Expr, notes: &mut Notes) -> Result<Num, Fault>
    ensures { Becomes (λ n. n) (constant (scope_view scope.entry) (expr_view e.now) (notes_view notes.old)) result notes.new }
{
    let x = operand(alloc, scope, e, notes)?;
    integer_constant_of(alloc, first_token(e), x)
}
