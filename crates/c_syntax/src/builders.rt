//! Lists of trees made of their members.

ghost use Rattle.std.specs.Prelude.{◌≡◌, map, IfOk};
ghost use Rattle.c_syntax.specs.Syntax.{arguments_of, dimensions_of, initializers_of, block_of, groups_of};
ghost use Rattle.c_syntax.specs.Views.{expr_view, exprs_view, dim_view, dims_view, value_view, values_view, part_view, parts_view, group_view, groups_view};

use crate::declarations::{Value, Values};
use crate::expressions::{Dim, Dims, Expr, Exprs};
use crate::statements::{Group, Groups, Part, Parts};
use std::alloc::{AllocError, Global};

/// The arguments of a call.
#[tactic(auto, using(crate::proofs::Before::arguments_before_append))]
pub fn arguments(alloc: Global, mut items: Vec<Expr>) -> Result<Exprs, AllocError>
    ensures { IfOk result (λ list. exprs_view list ≡ arguments_of (map expr_view items.items)) }
{
    let mut list = Exprs::End;
    while let Some(last) = items.pop() {
        list = Exprs::More(last, Box::new(alloc, list)?);
    }
    Ok(list)
}

/// The dimensions of an array.
#[tactic(auto, using(crate::proofs::Before::dimensions_before_append))]
pub fn dimensions(alloc: Global, mut items: Vec<Dim>) -> Result<Dims, AllocError>
    ensures { IfOk result (λ list. dims_view list ≡ dimensions_of (map dim_view items.items)) }
{
    let mut list = Dims::End;
    while let Some(last) = items.pop() {
        list = Dims::More(last, Box::new(alloc, list)?);
    }
    Ok(list)
}

/// The initializers in braces.
#[tactic(auto, using(crate::proofs::Before::initializers_before_append))]
pub fn initializers(alloc: Global, mut items: Vec<Value>) -> Result<Values, AllocError>
    ensures { IfOk result (λ list. values_view list ≡ initializers_of (map value_view items.items)) }
{
    let mut list = Values::End;
    while let Some(last) = items.pop() {
        list = Values::More(last, Box::new(alloc, list)?);
    }
    Ok(list)
}

/// The parts of a block.
#[tactic(auto, using(crate::proofs::Before::block_before_append))]
pub fn block_parts(alloc: Global, mut items: Vec<Part>) -> Result<Parts, AllocError>
    ensures { IfOk result (λ list. parts_view list ≡ block_of (map part_view items.items)) }
{
    let mut list = Parts::End;
    while let Some(last) = items.pop() {
        list = Parts::More(last, Box::new(alloc, list)?);
    }
    Ok(list)
}

/// The groups of a `switch`.
#[tactic(auto, using(crate::proofs::Before::groups_before_append))]
pub fn switch_groups(alloc: Global, mut items: Vec<Group>) -> Result<Groups, AllocError>
    ensures { IfOk result (λ list. groups_view list ≡ groups_of (map group_view items.items)) }
{
    let mut list = Groups::End;
    while let Some(Group { labels, parts }) = items.pop() {
        list = Groups::More(labels, parts, Box::new(alloc, list)?);
    }
    Ok(list)
}
