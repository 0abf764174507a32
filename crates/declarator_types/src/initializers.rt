//! Initializers (C 6.7.9).

ghost use Rattle.std.specs.Prelude.{◌≡◌, ◌++◌, ◌∷◌, [], ◌<◌, OnOk};
ghost use Rattle.c_types.specs.Layout.{shape_of};
ghost use Rattle.c_syntax.specs.Views as s;
ghost use Rattle.rvt_tree.specs.Views.{expr_view, init_view, inits_view};
ghost use Rattle.file_typing.specs.Initializers.{first_token_of, no_members, typed_value, typed_alone, typed_initializer, typed_members};
ghost use Rattle.typing_base.specs.Follows.{Becomes, Gives};
ghost use Rattle.typing_base.specs.Views.{notes_view, scope_view};
ghost use Rattle.declarator_types.specs.Views.{asked_view, member_view};
ghost use Rattle.declarator_types.specs.Members.{typed_member, typed_braces};

use crate::members::{member_of, size_of};
use c_syntax::{Expr, Value, Values};
use expression_elaboration::{first_token, value_as};
use operator_rules::constant_of;
use rvt_num::Kind;
use rvt_tree::builders::initializers;
use rvt_tree::{CType, Init, Inits, Place};
use std::alloc::{AllocError, Global};
use typing_base::{Cause, Fault, Notes, Scope, broken, wrong_type};

/// What is asked of each value, once it is converted.
#[derive(Clone, Copy, Debug, PartialEq, Eq)]
pub enum Asked {
    /// Nothing, as of a local.
    Anything,
    /// That it is a constant, as of an object of the file.
    Constant,
}

fn ask(alloc: Global, asked: Asked, at: Place, value: &rvt_tree::Expr) -> Result<(), Fault>
    ensures { Gives (λ u. u) (asked_view asked at (expr_view value.now)) result }
{
    match asked {
        Asked::Anything => Ok(()),
        Asked::Constant => match constant_of(alloc, value)? {
            Some(_) => Ok(()),
            None => Err(broken(Cause::ConstantWanted, at)),
        },
    }
}

fn first_token_of(i: &Value) -> Place
    ensures { result ≡ first_token_of (s.value_view i.now) }
{
    match i {
        Value::Expr(e) => first_token(e),
        Value::Braces(at, _) => *at,
    }
}

fn no_members(members: &Values) -> Result<(), Fault>
    ensures { Gives (λ u. u) (no_members (s.values_view members.now)) result }
{
    match members {
        Values::End => Ok(()),
        Values::More(i, _) => Err(wrong_type(first_token_of(i))),
    }
}

/// A value without braces, converted as by assignment.
fn typed_value(
    alloc: Global,
    scope: Scope,
    asked: Asked,
    ty: &CType,
    e: &Expr,
    notes: &mut Notes,
) -> Result<Init, Fault>
    ensures { Becomes init_view (typed_value (scope_view scope.entry) (asked_view asked) (shape_of ty.now) (s.expr_view e.now) (notes_view notes.old)) result notes.new }
{
    let value = value_as(alloc, scope, ty, e, notes)?;
    ask(alloc, asked, first_token(e), &value)?;
    Ok(Init::Value(value))
}

/// An integer in braces: one value, without more braces.
fn typed_alone(
    alloc: Global,
    scope: Scope,
    asked: Asked,
    kind: Kind,
    members: &Values,
    notes: &mut Notes,
) -> Result<Inits, Fault>
    ensures { Becomes inits_view (typed_alone (scope_view scope.entry) (asked_view asked) kind (s.values_view members.now) (notes_view notes.old)) result notes.new }
{
    match members {
        Values::End => Ok(Inits::End),
        Values::More(Value::Braces(at, _), _) => Err(wrong_type(*at)),
        Values::More(Value::Expr(e), rest) => {
            let word = CType::Word(kind);
            let value = typed_value(alloc, scope, asked, &word, e, notes)?;
            no_members(rest)?;
            Ok(Inits::More(value, 1, Box::new(alloc, Inits::End)?))
        }
    }
}

/// An initializer of an object of this type.
#[cycle(typed_initializer)]
pub fn typed_initializer(
    alloc: Global,
    scope: Scope,
    asked: Asked,
    ty: &CType,
    i: &Value,
    notes: &mut Notes,
) -> Result<Init, Fault>
    ensures { Becomes init_view (typed_initializer (scope_view scope.entry) (asked_view asked) (shape_of ty.now) (s.value_view i.now) (notes_view notes.old)) result notes.new }
{
    match i {
        Value::Expr(e) => typed_value(alloc, scope, asked, ty, e, notes),
        Value::Braces(_, members) => {
            let members = typed_braces(alloc, scope, asked, ty, members, notes)?;
            Ok(Init::Braces(Box::new(alloc, members)?))
        }
    }
}

/// Those in braces.
#[cycle(typed_initializer)]
fn typed_braces(
    alloc: Global,
    scope: Scope,
    asked: Asked,
    ty: &CType,
    members: &Values,
    notes: &mut Notes,
) -> Result<Inits, Fault>
    ensures { Becomes inits_view (typed_braces (scope_view scope.entry) (asked_view asked) (shape_of ty.now) (s.values_view members.now) (notes_view notes.old)) result notes.new }
{
    match ty {
        CType::Word(kind) => typed_alone(alloc, scope, asked, *kind, members, notes),
        CType::Pointer(_, _) => {
            no_members(members)?;
            Ok(Inits::End)
        }
        CType::Array(_, _) => typed_members(alloc, scope, asked, ty, members, notes),
        CType::Struct(_) => typed_members(alloc, scope, asked, ty, members, notes),
    }
}

/// One for each member.
#[cycle(typed_initializer)]
fn typed_members(
    alloc: Global,
    scope: Scope,
    asked: Asked,
    ty: &CType,
    members: &Values,
    notes: &mut Notes,
) -> Result<Inits, Fault>
    ensures { Becomes inits_view (typed_members (scope_view scope.entry) (asked_view asked) (shape_of ty.now) 0 (s.values_view members.now) (notes_view notes.old)) result notes.new }
{
    let mut made = Vec::new(alloc);
    let mut number: usize = 0;
    let mut rest = members;
    while let Values::More(i, more) = rest {
        let member = typed_member(alloc, scope, asked, ty, number, i, notes)?;
        put(&mut made, member)?;
        number += 1;
        rest = more;
    }
    Ok(initializers(alloc, made)?)
}

/// An initializer of the member of a number, and the size of the member.
#[cycle(typed_initializer)]
fn typed_member(
    alloc: Global,
    scope: Scope,
    asked: Asked,
    ty: &CType,
    number: usize,
    i: &Value,
    notes: &mut Notes,
) -> Result<(Init, u32), Fault>
    ensures outcome { Becomes member_view (typed_member (scope_view scope.entry) (asked_view asked) (shape_of ty.now) number (s.value_view i.now) (notes_view notes.old)) result notes.new }
    ensures below { OnOk result (number < usize.MAX) }
{
    match member_of(scope.structs(), ty, number) {
        Some(member) => {
            let first = typed_initializer(alloc, scope, asked, member, i, notes)?;
            let size = size_of(scope.structs(), member)?;
            Ok((first, size))
        }
        None => Err(wrong_type(first_token_of(i))),
    }
}

fn put(items: &mut Vec<(Init, u32)>, item: (Init, u32)) -> Result<(), AllocError>
    ensures { OnOk result (items.new.items ≡ items.old.items ++ item ∷ []) }
{
    items.push(item)?;
    Ok(())
}
