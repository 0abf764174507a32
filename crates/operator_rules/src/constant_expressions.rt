//! Constant expressions (C 6.6): built of constants and operators, whose value is computed without a trap.

ghost use Rattle.std.specs.Prelude.{◌≡◌, ◌++◌, ◌∷◌, [], IfOk, OnOk, false, true, not, option_map, option_and_then, if◌then◌else◌};
ghost use Rattle.std.specs.Bool.{OnTrue};
ghost use Rattle.rvt_num.specs.Kinds.{promoted_kind};
ghost use Rattle.rvt_num.specs.declared.operations.UnOp.TheVariants.{Minus, Flip};
ghost use Rattle.rvt_num.specs.Operations.{Operands, binary_of, unary_of, converted};
ghost use Rattle.rvt_tree.specs.Views.{expr_view};
ghost use Rattle.expression_typing.specs.ConstantExpressions.{is_built_of_constants, holds, truth_number, unless_trapped, number_given, constant_of, integer_constant_of};
ghost use Rattle.typing_base.specs.Views.{operand_view};
ghost use Rattle.typing_base.specs.Follows.{Gives};
ghost use Rattle.operator_rules.specs.CastChains.{cast_back};

use crate::integer_operators::is_shift;
use rvt_num::{BinOp, Kind, Num, binary, convert};
use rvt_tree::{Expr, Place};
use std::alloc::{AllocError, Global};
use typing_base::{Cause, Fault, Operand, broken};

/// An integer constant expression, at its first token.
pub fn integer_constant_of<'t>(alloc: Global, at: Place, operand: Operand<'t>) -> Result<Num, Fault>
    ensures { Gives (λ n. n) (integer_constant_of at (operand_view operand.entry)) result }
{
    match operand {
        Operand::Integer(_, value, _) => {
            let number = constant_of(alloc, &value)?;
            match number {
                Some(number) => Ok(number),
                None => Err(broken(Cause::ConstantWanted, at)),
            }
        }
        _ => Err(broken(Cause::ConstantWanted, at)),
    }
}

/// The value of a constant expression; none where that traps.
pub fn constant_of(alloc: Global, e: &Expr) -> Result<Option<Num>, AllocError>
    ensures { IfOk result (λ number. number ≡ constant_of (expr_view e.now)) }
{
    if !is_built_of_constants(e) {
        return Ok(None);
    }
    let number = number_given(alloc, e)?;
    Ok(number)
}

/// Whether each operand is a constant, those that are not evaluated too.
fn is_built_of_constants(e: &Expr) -> bool
    ensures { result ≡ is_built_of_constants (expr_view e.now) }
{
    let mut inner = e;
    'casts: while let Expr::Cast(_, operand) = inner {
        inner = operand;
    }
    match inner {
        Expr::Constant(_) => true,
        Expr::Cast(_, a) => is_built_of_constants(a),
        Expr::Plus(a) => is_built_of_constants(a),
        Expr::Minus(a) => is_built_of_constants(a),
        Expr::Flip(a) => is_built_of_constants(a),
        Expr::Not(a) => is_built_of_constants(a),
        Expr::Binary(_, a, b) => is_built_of_constants(a) && is_built_of_constants(b),
        Expr::Both(a, b) => is_built_of_constants(a) && is_built_of_constants(b),
        Expr::Either(a, b) => is_built_of_constants(a) && is_built_of_constants(b),
        Expr::Choice(test, a, b) => {
            is_built_of_constants(test) && is_built_of_constants(a) && is_built_of_constants(b)
        }
        _ => false,
    }
}

// ---- the value, from the operands' values; a chain of casts by a loop

#[cycle(number_given)]
#[tactic(auto, using(crate::proofs::CastsGiven::cast_back_append))]
fn number_given(alloc: Global, e: &Expr) -> Result<Option<Num>, AllocError>
    ensures { IfOk result (λ number. number ≡ number_given (expr_view e.now)) }
{
    let mut inner = e;
    let mut kinds = Vec::new(alloc);
    'casts: while let Expr::Cast(kind, operand) = inner {
        put(&mut kinds, *kind)?;
        inner = operand;
    }
    let number = form_given(alloc, inner)?;
    Ok(cast_back(kinds, number))
}

fn put(kinds: &mut Vec<Kind>, kind: Kind) -> Result<(), AllocError>
    ensures { OnOk result (kinds.new.items ≡ kinds.old.items ++ kind ∷ []) }
{
    match kinds.push(kind) {
        Ok(()) => Ok(()),
        Err(_) => Err(AllocError),
    }
}

#[cycle(number_given)]
fn form_given(alloc: Global, e: &Expr) -> Result<Option<Num>, AllocError>
    ensures { IfOk result (λ number. number ≡ number_given (expr_view e.now)) }
{
    match e {
        Expr::Constant(number) => Ok(Some(*number)),
        Expr::Cast(kind, a) => {
            let x = number_given(alloc, a)?;
            Ok(cast(*kind, x))
        }
        Expr::Plus(a) => {
            let x = number_given(alloc, a)?;
            Ok(x)
        }
        Expr::Minus(a) => {
            let x = number_given(alloc, a)?;
            Ok(minus(x))
        }
        Expr::Flip(a) => {
            let x = number_given(alloc, a)?;
            Ok(complement(x))
        }
        Expr::Not(a) => {
            let x = number_given(alloc, a)?;
            Ok(negation(x))
        }
        Expr::Binary(op, a, b) => {
            let x = number_given(alloc, a)?;
            let y = number_given(alloc, b)?;
            let number = operation(*op, x, y)?;
            Ok(number)
        }
        Expr::Both(a, b) => {
            let x = number_given(alloc, a)?;
            let y = number_given(alloc, b)?;
            Ok(logical_and(x, y))
        }
        Expr::Either(a, b) => {
            let x = number_given(alloc, a)?;
            let y = number_given(alloc, b)?;
            Ok(logical_or(x, y))
        }
        Expr::Choice(test, a, b) => {
            let condition = number_given(alloc, test)?;
            let x = number_given(alloc, a)?;
            let y = number_given(alloc, b)?;
            Ok(conditional(condition, x, y))
        }
        _ => Ok(None),
    }
}

fn holds(n: Num) -> bool
    ensures { result ≡ holds n }
{
    n.value() != 0
}

fn truth_number(b: bool) -> Num
    ensures { result ≡ truth_number b }
{
    Num::wrapped(Kind::I32, if b { 1 } else { 0 })
}

fn cast(kind: Kind, x: Option<Num>) -> Option<Num>
    ensures { result ≡ option_map (converted kind) x }
{
    match x {
        Some(n) => Some(convert(kind, n)),
        None => None,
    }
}

/// Casts to these kinds, the last one first.
#[tactic(auto, using(crate::proofs::CastsGiven::cast_back_append))]
fn cast_back(mut kinds: Vec<Kind>, x: Option<Num>) -> Option<Num>
    ensures { result ≡ cast_back kinds.items x }
{
    let mut number = x;
    'kinds: while let Some(kind) = kinds.pop() {
        number = cast(kind, number);
    }
    number
}

fn minus(x: Option<Num>) -> Option<Num>
    ensures { result ≡ option_map (unary_of Minus) x }
{
    match x {
        Some(n) => Some(Num::wrapped(n.kind(), -n.value())),
        None => None,
    }
}

fn complement(x: Option<Num>) -> Option<Num>
    ensures { result ≡ option_map (unary_of Flip) x }
{
    match x {
        Some(n) => Some(Num::wrapped(n.kind(), -1 - n.value())),
        None => None,
    }
}

fn negation(x: Option<Num>) -> Option<Num>
    ensures { result ≡ option_map (λ n. truth_number (not (holds n))) x }
{
    match x {
        Some(n) => Some(truth_number(!holds(n))),
        None => None,
    }
}

fn logical_and(x: Option<Num>, y: Option<Num>) -> Option<Num>
    ensures { result ≡ option_and_then (λ a. if holds a then option_map (λ b. truth_number (holds b)) y else Some (truth_number false)) x }
{
    match x {
        Some(a) => {
            if holds(a) {
                truth_of(y)
            } else {
                Some(truth_number(false))
            }
        }
        None => None,
    }
}

fn logical_or(x: Option<Num>, y: Option<Num>) -> Option<Num>
    ensures { result ≡ option_and_then (λ a. if holds a then Some (truth_number true) else option_map (λ b. truth_number (holds b)) y) x }
{
    match x {
        Some(a) => {
            if holds(a) {
                Some(truth_number(true))
            } else {
                truth_of(y)
            }
        }
        None => None,
    }
}

fn truth_of(y: Option<Num>) -> Option<Num>
    ensures { result ≡ option_map (λ b. truth_number (holds b)) y }
{
    match y {
        Some(b) => Some(truth_number(holds(b))),
        None => None,
    }
}

fn conditional(test: Option<Num>, x: Option<Num>, y: Option<Num>) -> Option<Num>
    ensures { result ≡ option_and_then (λ a. if holds a then x else y) test }
{
    match test {
        Some(a) => { if holds(a) { x } else { y } }
        None => None,
    }
}

/// Operands of other kinds than an operation has, which none of the rules makes, are not computed.
fn operation(op: BinOp, x: Option<Num>, y: Option<Num>) -> Result<Option<Num>, AllocError>
    ensures { IfOk result (λ number. number ≡ option_and_then (λ a. option_and_then (λ b. unless_trapped (binary_of op a b)) y) x) }
{
    match x {
        Some(a) => match y {
            Some(b) => {
                if !are_operands(op, a, b) {
                    return Err(AllocError);
                }
                match binary(op, a, b) {
                    Ok(n) => Ok(Some(n)),
                    Err(_) => Ok(None),
                }
            }
            None => Ok(None),
        },
        None => Ok(None),
    }
}

fn are_operands(op: BinOp, a: Num, b: Num) -> bool
    ensures { OnTrue result (Operands op a b) }
{
    if !is_promoted(a.kind()) {
        return false;
    }
    if !is_promoted(b.kind()) {
        return false;
    }
    if is_shift(op) {
        return true;
    }
    are_one_kind(a.kind(), b.kind())
}

fn are_one_kind(a: Kind, b: Kind) -> bool
    ensures { OnTrue result (a ≡ b) }
{
    a == b
}

fn is_promoted(kind: Kind) -> bool
    ensures { OnTrue result (promoted_kind kind ≡ kind) }
{
    match kind {
        Kind::I32 | Kind::U32 | Kind::I64 | Kind::U64 => true,
        _ => false,
    }
}
