//! Expressions where a value of some sort is wanted.

ghost use Rattle.c_types.specs.Layout.{shape_of};
ghost use Rattle.rvt_tree.specs.Views.{expr_view as typed_view};
ghost use Rattle.c_syntax.specs.Views.{expr_view};
ghost use Rattle.expression_typing.specs.Expressions.{condition, value_as, constant_of_kind};
ghost use Rattle.typing_base.specs.Views.{scope_view, notes_view};
ghost use Rattle.typing_base.specs.Follows.{Becomes};

use crate::expressions::{constant, operand};
use crate::first_tokens::first_token;
use c_syntax::Expr;
use operator_rules::{converted_to, tested};
use place_rules::place_type;
use rvt_num::{Kind, Num, convert};
use rvt_tree::CType;
use std::alloc::Global;
use typing_base::{Fault, Notes, Scope};

/// A condition (C 6.8.4.1, 6.8.5).
pub fn condition(
    alloc: Global,
    scope: Scope,
    e: &Expr,
    notes: &mut Notes,
) -> Result<rvt_tree::Expr, Fault>
    ensures { Becomes typed_view (condition (scope_view scope.entry) (expr_view e.now) (notes_view notes.old)) result notes.new }
{
    let x = operand(alloc, scope, e, notes)?;
    tested(first_token(e), x)
}

/// An expression as a value of a type, as by assignment (C 6.5.16.1).
pub fn value_as(
    alloc: Global,
    scope: Scope,
    ty: &CType,
    e: &Expr,
    notes: &mut Notes,
) -> Result<rvt_tree::Expr, Fault>
    ensures { Becomes typed_view (value_as (scope_view scope.entry) (shape_of ty.now) (expr_view e.now) (notes_view notes.old)) result notes.new }
{
    let x = operand(alloc, scope, e, notes)?;
    converted_to(alloc, first_token(e), place_type(ty), x)
}

/// An integer constant expression (C 6.6), converted to a kind.
pub fn constant_of_kind(
    alloc: Global,
    kind: Kind,
    scope: Scope,
    e: &Expr,
    notes: &mut Notes,
) -> Result<Num, Fault>
    ensures { Becomes (λ n. n) (constant_of_kind kind (scope_view scope.entry) (expr_view e.now) (notes_view notes.old)) result notes.new }
{
    let number = constant(alloc, scope, e, notes)?;
    Ok(convert(kind, number))
}
