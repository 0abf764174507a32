//! Operands and their conversions (C 6.3.2.1).

ghost use Rattle.std.specs.Prelude.{◌≡◌};
ghost use Rattle.c_types.specs.Layout.{shape_of};
ghost use Rattle.rvt_tree.specs.Views.{lvalue_view};
ghost use Rattle.expression_typing.specs.Operands.{pointee_of, shape_of_pointee, variable_of, taken, decayed, lvalue_converted, converted_operand};
ghost use Rattle.typing_base.specs.Views.{type_view, operand_view, scope_view, notes_view};
ghost use Rattle.typing_base.specs.Follows.{Becomes, BecomesOperand};
ghost use Rattle.place_rules.specs.Views.{ends_view};

use rvt_tree::{CType, Expr, Lvalue, Place, Pointee, Variable};
use std::alloc::Global;
use typing_base::{Fault, Notes, Operand, PlaceType, Scope, not_in_profile};

/// The type of a place, of a type that is declared.
pub fn place_type<'t>(ty: &'t CType) -> PlaceType<'t>
    ensures { type_view result ≡ shape_of ty.now }
{
    match ty {
        CType::Word(kind) => PlaceType::Word(*kind),
        CType::Pointer(pointee, to_constant) => PlaceType::Pointer(*pointee, *to_constant),
        CType::Array(item, count) => PlaceType::Array(item, *count),
        CType::Struct(number) => PlaceType::Struct(*number),
    }
}

/// What a pointer to the type points to; an array and a pointer are pointed to by none.
pub fn pointee_of(ty: &CType) -> Option<Pointee>
    ensures { result ≡ pointee_of (shape_of ty.now) }
{
    match ty {
        CType::Word(kind) => Some(Pointee::Word(*kind)),
        CType::Pointer(_, _) => None,
        CType::Array(_, _) => None,
        CType::Struct(number) => Some(Pointee::Struct(*number)),
    }
}

/// The type of what a pointer points to.
pub fn type_of_pointee<'t>(pointee: Pointee) -> PlaceType<'t>
    ensures { type_view result ≡ shape_of_pointee pointee }
{
    match pointee {
        Pointee::Word(kind) => PlaceType::Word(kind),
        Pointee::Struct(number) => PlaceType::Struct(number),
    }
}

/// The variable in which an lvalue lies, if it lies in one.
fn variable_of(lvalue: &Lvalue) -> Option<Variable>
    ensures { result ≡ variable_of (lvalue_view lvalue.now) }
{
    let mut rest = lvalue;
    'outward: loop {
        match rest {
            Lvalue::Variable(variable) => return Some(*variable),
            Lvalue::Element(array, _, _, _) => rest = array,
            Lvalue::Member(aggregate, _, _) => rest = aggregate,
            Lvalue::Target(_, _) => return None,
            Lvalue::Indexed(_, _, _, _) => return None,
            Lvalue::Arrow(_, _, _, _) => return None,
        }
    }
}

/// The address of an lvalue becomes a value.
pub fn taken<'t>(
    scope: Scope<'t>,
    at: Place,
    lvalue: &Lvalue,
    notes: &mut Notes,
) -> Result<(), Fault>
    ensures { Becomes (λ x. x) (taken (scope_view scope.entry) at (lvalue_view lvalue.now) (notes_view notes.old)) result notes.new }
{
    if !scope.evaluated {
        return Ok(());
    }
    match variable_of(lvalue) {
        Some(variable) => {
            notes.take_address(at, variable)?;
            Ok(())
        }
        None => Ok(()),
    }
}

/// Where an expression begins, and where its array's name stands.
#[derive(Clone, Copy, Debug)]
pub struct Ends {
    pub first: Place,
    pub array_name: Place,
}

/// An array as a pointer to its first element, if there are pointers to one of its type.
fn decayed<'t>(
    alloc: Global,
    scope: Scope<'t>,
    ends: Ends,
    pointee: Option<Pointee>,
    constant: bool,
    lvalue: Lvalue,
    notes: &mut Notes,
) -> Result<Operand<'t>, Fault>
    ensures { BecomesOperand (decayed (scope_view scope.entry) (ends_view ends) pointee constant (lvalue_view lvalue) (notes_view notes.old)) result notes.new }
{
    match pointee {
        None => Err(not_in_profile(ends.first)),
        Some(pointee) => {
            taken(scope, ends.array_name, &lvalue, notes)?;
            let value = Expr::Decay(Box::new(alloc, lvalue)?);
            Ok(Operand::Pointer(pointee, constant, value))
        }
    }
}

/// A place as the value at it, but for a struct, which stays the place that it is.
fn lvalue_converted<'t>(
    alloc: Global,
    scope: Scope<'t>,
    ends: Ends,
    ty: PlaceType<'t>,
    constant: bool,
    lvalue: Lvalue,
    notes: &mut Notes,
) -> Result<Operand<'t>, Fault>
    ensures { BecomesOperand (lvalue_converted (scope_view scope.entry) (ends_view ends) (type_view ty.entry) constant (lvalue_view lvalue) (notes_view notes.old)) result notes.new }
{
    match ty {
        PlaceType::Word(kind) => {
            let value = Expr::Read(Box::new(alloc, lvalue)?);
            Ok(Operand::Integer(kind, value, false))
        }
        PlaceType::Pointer(pointee, to_constant) => {
            let value = Expr::Read(Box::new(alloc, lvalue)?);
            Ok(Operand::Pointer(pointee, to_constant, value))
        }
        PlaceType::Array(item, _) => decayed(
            alloc,
            scope,
            ends,
            pointee_of(item),
            constant,
            lvalue,
            notes,
        ),
        PlaceType::Struct(number) => {
            Ok(Operand::Place(PlaceType::Struct(number), constant, lvalue))
        }
    }
}

/// An operand as what is worked on: lvalues and arrays are converted.
pub fn converted_operand<'t>(
    alloc: Global,
    scope: Scope<'t>,
    ends: Ends,
    operand: Operand<'t>,
    notes: &mut Notes,
) -> Result<Operand<'t>, Fault>
    ensures { BecomesOperand (converted_operand (scope_view scope.entry) (ends_view ends) (operand_view operand.entry) (notes_view notes.old)) result notes.new }
{
    match operand {
        Operand::Place(ty, constant, lvalue) => {
            lvalue_converted(alloc, scope, ends, ty, constant, lvalue, notes)
        }
        Operand::Integer(kind, value, zero_token) => Ok(Operand::Integer(kind, value, zero_token)),
        Operand::Pointer(pointee, to_constant, value) => {
            Ok(Operand::Pointer(pointee, to_constant, value))
        }
        Operand::Null => Ok(Operand::Null),
        Operand::Void(function, given) => Ok(Operand::Void(function, given)),
    }
}
