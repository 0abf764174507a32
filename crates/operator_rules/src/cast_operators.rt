//! `(T) e` (C 6.5.4).

ghost use Rattle.std.specs.Prelude.{◌≡◌};
ghost use Rattle.c_types.specs.Layout.{AWord};
ghost use Rattle.expression_typing.specs.CastOperators.{names_a_pointer, cast_as, cast_to};
ghost use Rattle.expression_typing.specs.Entities.{a_type};
ghost use Rattle.expression_typing.specs.Operands.{is_pointer};
ghost use Rattle.typing_base.specs.Views.{operand_view, named_view};
ghost use Rattle.typing_base.specs.Follows.{GivesOperand};
ghost use Rattle.operator_rules.specs.Views.{written_view};

use rvt_num::Kind;
use rvt_tree::{CType, Expr, Place};
use std::alloc::Global;
use typing_base::{Fault, NamedType, Operand, QualifiedType, not_in_profile, wrong_type};

/// A type as it is written.
#[derive(Debug, Drop)]
pub struct WrittenType {
    /// Of its first token.
    pub place: Place,
    pub ty: QualifiedType,
    /// The lengths of an array, the outermost first; none for `[]`.
    pub lengths: Vec<Option<i128>>,
}

fn names_a_pointer(named: &NamedType, lengths: &[Option<i128>]) -> bool
    ensures { result ≡ names_a_pointer (named_view named.now) lengths.now }
{
    match named {
        NamedType::Type(ty) => match ty {
            CType::Pointer(_, _) => matches!(lengths, []),
            _ => false,
        },
        NamedType::PointerElsewhere => matches!(lengths, []),
        NamedType::NoValue => false,
    }
}

fn is_pointer<'t>(operand: &Operand<'t>) -> bool
    ensures { result ≡ is_pointer (operand_view operand.now) }
{
    match operand {
        Operand::Pointer(_, _, _) | Operand::Null => true,
        _ => false,
    }
}

/// To an integer kind, from an integer.
fn cast_as<'t>(
    alloc: Global,
    at: Place,
    named: &NamedType,
    lengths: &[Option<i128>],
    operand: Operand<'t>,
) -> Result<Operand<'t>, Fault>
    ensures { GivesOperand (cast_as at (named_view named.now) lengths.now (operand_view operand.entry)) result }
{
    match named {
        NamedType::Type(ty) => match ty {
            CType::Word(to) => cast_as_integer(alloc, at, *to, lengths, operand),
            _ => Err(wrong_type(at)),
        },
        _ => Err(wrong_type(at)),
    }
}

fn cast_as_integer<'t>(
    alloc: Global,
    at: Place,
    to: Kind,
    lengths: &[Option<i128>],
    operand: Operand<'t>,
) -> Result<Operand<'t>, Fault>
    ensures { GivesOperand (cast_as at (a_type (AWord to)) lengths.now (operand_view operand.entry)) result }
{
    match lengths {
        [] => match operand {
            Operand::Integer(_, value, _) => {
                let value = Expr::Cast(to, Box::new(alloc, value)?);
                Ok(Operand::Integer(to, value, false))
            }
            _ => Err(wrong_type(at)),
        },
        _ => Err(wrong_type(at)),
    }
}

/// An integer as one of the kind that is written; at its `(`, and at the first token of the type.
pub fn cast_to<'t>(
    alloc: Global,
    at: Place,
    written: &WrittenType,
    operand: Operand<'t>,
) -> Result<Operand<'t>, Fault>
    ensures { GivesOperand (cast_to at (written_view written.now) (operand_view operand.entry)) result }
{
    let lengths = written.lengths.as_slice();
    if names_a_pointer(&written.ty.named, lengths) {
        return Err(not_in_profile(written.place));
    }
    if is_pointer(&operand) {
        return Err(not_in_profile(written.place));
    }
    cast_as(alloc, at, &written.ty.named, lengths, operand)
}
