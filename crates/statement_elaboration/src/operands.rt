//! Expressions in a block.

ghost use Rattle.c_syntax.specs.Views.{expr_view, act_view, init_view, value_view};
ghost use Rattle.c_types.specs.Layout.{shape_of};
ghost use Rattle.rvt_tree.specs.Views as t;
ghost use Rattle.expression_typing.specs.Expressions.{operand, condition, constant_of_kind};
ghost use Rattle.expression_typing.specs.Actions.{typed_action};
ghost use Rattle.file_typing.specs.Blocks.{scope_of};
ghost use Rattle.expression_typing.specs.TypeNames.{base_type};
ghost use Rattle.file_typing.specs.DeclaratorTypes.{as_local, type_of_declarator};
ghost use Rattle.file_typing.specs.Initializers.{anything, typed_initializer};
ghost use Rattle.typing_base.specs.Follows.{Becomes, BecomesOperand, Gives};
ghost use Rattle.typing_base.specs.Views.{notes_view, qualified_view};
ghost use Rattle.declarator_types.specs.Views.{value_type_view};
ghost use Rattle.statement_elaboration.specs.Views.{block_view};

use crate::blocks::Block;
use crate::copies::copied_base;
use c_syntax::{Act, Base, Expr, Init, Value};
use declarator_types::{Asked, Sort, ValueType, type_of_declarator, typed_initializer};
use expression_elaboration::{base_type, condition, constant_of_kind, operand, typed_action};
use rvt_num::{Kind, Num};
use rvt_tree::CType;
use std::alloc::Global;
use typing_base::{Environment, Fault, Notes, Operand, QualifiedType};

/// An expression in the block, as an operand.
pub fn operand_in<'t>(
    alloc: Global,
    environment: &'t Environment,
    block: Block,
    e: &Expr,
    notes: &mut Notes,
) -> Result<Operand<'t>, Fault>
    ensures { BecomesOperand (operand (scope_of (block_view environment.now block)) (expr_view e.now) (notes_view notes.old)) result notes.new }
{
    operand(alloc, block.scope(environment), e, notes)
}

/// What an action in the block does.
pub fn action_in(
    alloc: Global,
    environment: &Environment,
    block: Block,
    act: &Act,
    notes: &mut Notes,
) -> Result<rvt_tree::Act, Fault>
    ensures { Becomes t.act_view (typed_action (scope_of (block_view environment.now block)) (act_view act.now) (notes_view notes.old)) result notes.new }
{
    typed_action(alloc, block.scope(environment), act, notes)
}

/// A condition in the block.
pub fn condition_in(
    alloc: Global,
    environment: &Environment,
    block: Block,
    e: &Expr,
    notes: &mut Notes,
) -> Result<rvt_tree::Expr, Fault>
    ensures { Becomes t.expr_view (condition (scope_of (block_view environment.now block)) (expr_view e.now) (notes_view notes.old)) result notes.new }
{
    condition(alloc, block.scope(environment), e, notes)
}

/// A constant expression in the block.
pub fn constant_in(
    alloc: Global,
    environment: &Environment,
    block: Block,
    kind: Kind,
    e: &Expr,
    notes: &mut Notes,
) -> Result<Num, Fault>
    ensures { Becomes (λ n. n) (constant_of_kind kind (scope_of (block_view environment.now block)) (expr_view e.now) (notes_view notes.old)) result notes.new }
{
    constant_of_kind(alloc, kind, block.scope(environment), e, notes)
}

// ---- declarations

/// The type that a base names in the block.
pub fn base_in(
    alloc: Global,
    environment: &Environment,
    block: Block,
    base: &Base,
) -> Result<QualifiedType, Fault>
    ensures { Gives qualified_view (base_type (scope_of (block_view environment.now block)) base.now) result }
{
    base_type(alloc, block.scope(environment), base)
}

/// The type of a local.
pub fn type_in(
    alloc: Global,
    environment: &Environment,
    block: Block,
    base: &QualifiedType,
    init: &Init,
    notes: &mut Notes,
) -> Result<ValueType, Fault>
    ensures { Becomes value_type_view (type_of_declarator as_local (scope_of (block_view environment.now block)) (qualified_view base.now) (init_view init.now) (notes_view notes.old)) result notes.new }
{
    let base = copied_base(alloc, base)?;
    let scope = block.scope(environment);
    type_of_declarator(alloc, Sort::Local, scope, base, init, notes)
}

/// An initializer of a local.
pub fn initializer_in(
    alloc: Global,
    environment: &Environment,
    block: Block,
    ty: &CType,
    i: &Value,
    notes: &mut Notes,
) -> Result<rvt_tree::Init, Fault>
    ensures { Becomes t.init_view (typed_initializer (scope_of (block_view environment.now block)) anything (shape_of ty.now) (value_view i.now) (notes_view notes.old)) result notes.new }
{
    let scope = block.scope(environment);
    typed_initializer(alloc, scope, Asked::Anything, ty, i, notes)
}
