//! `f(a, b)` (C 6.5.2.2).

ghost use Rattle.std.specs.Prelude.{◌≡◌, map, option_map};
ghost use Rattle.c_types.specs.Layout.{shape_of};
ghost use Rattle.rvt_tree.specs.Views.{exprs_view};
ghost use Rattle.expression_typing.specs.Outcomes.{give};
ghost use Rattle.expression_typing.specs.FunctionCalls.{call_noted, callee, later, result_of, called};
ghost use Rattle.typing_base.specs.Views.{entity_view, operand_view, scope_view, notes_view};
ghost use Rattle.typing_base.specs.Follows.{Becomes, Gives, GivesOperand};
ghost use Rattle.place_rules.specs.Views.{callee_view};

use c_syntax::Word;
use rvt_num::Kind;
use rvt_tree::{CType, Expr, Exprs, Place};
use std::alloc::Global;
use typing_base::{
    Call, Cause, Entity, Fault, Notes, Operand, Scope, broken, copied_name, wrong_type,
};

/// The function that is called.
#[derive(Clone, Copy)]
pub struct CalledFunction<'t> {
    pub function: u32,
    pub params: &'t [CType],
    pub result: Option<Kind>,
}

/// A call is noted at its name; in a `sizeof` there is none.
fn call_noted<'t>(
    alloc: Global,
    scope: Scope<'t>,
    word: &Word,
    function: u32,
    notes: &mut Notes,
) -> Result<(), Fault>
    ensures { Becomes (λ x. x) (call_noted (scope_view scope.entry) word.now function (notes_view notes.old)) result notes.new }
{
    if !scope.evaluated {
        return Ok(());
    }
    let name = copied_name(alloc, &word.name)?;
    notes.add_call(Call {
        function,
        name,
        place: word.place,
    })?;
    Ok(())
}

/// A name that stands for this, as the name of what is called.
pub fn callee<'t>(
    alloc: Global,
    scope: Scope<'t>,
    word: &Word,
    entity: Option<&'t Entity>,
    notes: &mut Notes,
) -> Result<CalledFunction<'t>, Fault>
    ensures { Becomes callee_view (callee (scope_view scope.entry) word.now (option_map (λ entity. entity_view entity.now) entity.entry) (notes_view notes.old)) result notes.new }
{
    match entity {
        None => {
            let name = copied_name(alloc, &word.name)?;
            Err(broken(Cause::UnknownName(name), word.place))
        }
        Some(Entity::Function(number, params, result_kind)) => {
            call_noted(alloc, scope, word, *number, notes)?;
            Ok(CalledFunction {
                function: *number,
                params: params.as_slice(),
                result: *result_kind,
            })
        }
        Some(_) => Err(wrong_type(word.place)),
    }
}

/// The parameters after the first.
pub fn later<'t>(params: &'t [CType]) -> &'t [CType]
    ensures { map shape_of result.now ≡ later (map shape_of params.now) }
{
    match params {
        [] => params,
        [_, others @ ..] => others,
    }
}

fn result_of<'t>(alloc: Global, callee: CalledFunction, values: Exprs) -> Result<Operand<'t>, Fault>
    ensures { Gives operand_view (give (result_of (callee_view callee.entry) (exprs_view values))) result }
{
    match callee.result {
        Some(kind) => {
            let call = Expr::Call(callee.function, Box::new(alloc, values)?);
            Ok(Operand::Integer(kind, call, false))
        }
        None => Ok(Operand::Void(callee.function, values)),
    }
}

/// After the arguments, their number.
pub fn called<'t>(
    alloc: Global,
    at: Place,
    callee: CalledFunction,
    n: usize,
    values: Exprs,
) -> Result<Operand<'t>, Fault>
    ensures { GivesOperand (called at (callee_view callee.entry) n (exprs_view values)) result }
{
    if n == callee.params.len() {
        return result_of(alloc, callee, values);
    }
    Err(broken(Cause::WrongNumberOfArguments, at))
}
