ghost use Rattle.std.specs.Prelude.{◌≡◌, Bool, List, false, if◌then◌else◌, length, IfOk};
ghost use Rattle.aig_build.specs.Circuits.{Grows};
ghost use Rattle.rvt_num.specs.Kinds.{promoted_kind};
ghost use Rattle.rvt_num.specs.Operations.{binary_of, is_shift};
ghost use Rattle.bit_words.specs.Words.{AreThere, word_number};
ghost use Rattle.bit_ops.specs.Built.{division_operation, shift_operation, word_op_built, word_shift_built};
ghost use Rattle.bit_ops.specs.Outcomes.{TrapsAreThere, division_op, outcome};
ghost use Rattle.bit_ops.specs.Shifting.{shift_op};

use crate::shifts::word_shift;
use crate::signs::word_division;
use crate::traps::{TrapLits, no_trap, overflows};
use aig_build::{Circuit, Lit};
use bit_words::places::{word_and, word_difference, word_or, word_sum, word_xor};
use bit_words::{
    Word, is_zero, word_at_least, word_at_most, word_different, word_equal, word_greater,
    word_less, word_product,
};
use rvt_num::{BinOp, Memory};
use std::alloc::Global;

/// The first of two words, or the second.
fn side(first: bool, both: (Word, Word)) -> Word
    ensures { result ≡ (if first then both.0 else both.1) }
{
    let (one, other) = both;
    if first { one } else { other }
}

/// The quotient or the remainder, and its traps.
fn divided(
    alloc: Global,
    circuit: &mut Circuit,
    whole: bool,
    a: &Word,
    b: &Word,
) -> Result<(Word, TrapLits), Memory>
    requires a_is_there { AreThere circuit.old a.now.bits }
    requires b_is_there { AreThere circuit.old b.now.bits }
    requires same_kind { a.now.kind ≡ b.now.kind }
    requires promoted { promoted_kind a.now.kind ≡ a.now.kind }
    ensures built { IfOk result (λ r. division_operation circuit.old whole a.now b.now ≡ record { nodes = circuit.new; word = r.0; traps = r.1 }) }
    ensures value { IfOk result (λ r. (inputs : List Bool) → outcome circuit.new inputs r.1 (word_number circuit.new inputs r.0) ≡ binary_of (division_op whole) (word_number circuit.old inputs a.now) (word_number circuit.old inputs b.now)) }
    ensures there { IfOk result (λ r. AreThere circuit.new r.0.bits) }
    ensures traps_there { IfOk result (λ r. TrapsAreThere circuit.new r.1) }
    ensures grows { Grows circuit.old circuit.new }
{
    let _count = circuit.nodes();
    let divide = is_zero(alloc, circuit, b)?;
    let overflow = overflows(alloc, circuit, a, b)?;
    let both = word_division(alloc, circuit, a, b)?;
    let traps = TrapLits {
        divide,
        quotient: overflow,
        shift: Lit::constant(false),
    };
    Ok((side(whole, both), traps))
}

/// The shifted word, and its traps.
fn shifted(
    alloc: Global,
    circuit: &mut Circuit,
    up: bool,
    a: &Word,
    b: &Word,
) -> Result<(Word, TrapLits), Memory>
    requires a_is_there { AreThere circuit.old a.now.bits }
    requires b_is_there { AreThere circuit.old b.now.bits }
    requires a_promoted { promoted_kind a.now.kind ≡ a.now.kind }
    requires b_promoted { promoted_kind b.now.kind ≡ b.now.kind }
    ensures built { IfOk result (λ r. shift_operation (word_shift_built circuit.old up a.now b.now) ≡ record { nodes = circuit.new; word = r.0; traps = r.1 }) }
    ensures value { IfOk result (λ r. (inputs : List Bool) → outcome circuit.new inputs r.1 (word_number circuit.new inputs r.0) ≡ binary_of (shift_op up) (word_number circuit.old inputs a.now) (word_number circuit.old inputs b.now)) }
    ensures there { IfOk result (λ r. AreThere circuit.new r.0.bits) }
    ensures traps_there { IfOk result (λ r. TrapsAreThere circuit.new r.1) }
    ensures grows { Grows circuit.old circuit.new }
{
    let _count = circuit.nodes();
    let (word, far) = word_shift(alloc, circuit, up, a, b)?;
    let traps = TrapLits {
        divide: Lit::constant(false),
        quotient: Lit::constant(false),
        shift: far,
    };
    Ok((word, traps))
}

/// An operation on two words of promoted kinds, which are equal but for shifts: its word, and the traps that come before it.
#[tactic(auto, unfolding(crate::specs::Built::word_op_built))]
pub fn word_op(
    alloc: Global,
    circuit: &mut Circuit,
    op: BinOp,
    a: &Word,
    b: &Word,
) -> Result<(Word, TrapLits), Memory>
    requires a_is_there { AreThere circuit.old a.now.bits }
    requires b_is_there { AreThere circuit.old b.now.bits }
    requires a_promoted { promoted_kind a.now.kind ≡ a.now.kind }
    requires b_promoted { promoted_kind b.now.kind ≡ b.now.kind }
    requires same_kind { is_shift op ≡ false → a.now.kind ≡ b.now.kind }
    ensures built { IfOk result (λ r. word_op_built circuit.old op a.now b.now ≡ record { nodes = circuit.new; word = r.0; traps = r.1 }) }
    ensures value { IfOk result (λ r. (inputs : List Bool) → outcome circuit.new inputs r.1 (word_number circuit.new inputs r.0) ≡ binary_of op (word_number circuit.old inputs a.now) (word_number circuit.old inputs b.now)) }
    ensures there { IfOk result (λ r. AreThere circuit.new r.0.bits) }
    ensures traps_there { IfOk result (λ r. TrapsAreThere circuit.new r.1) }
    ensures grows { Grows circuit.old circuit.new }
{
    let _count = circuit.nodes();
    let none = no_trap();
    match op {
        BinOp::Add => {
            let sum = word_sum(alloc, circuit, a, b)?;
            Ok((sum, none))
        }
        BinOp::Sub => {
            let difference = word_difference(alloc, circuit, a, b)?;
            Ok((difference, none))
        }
        BinOp::Mul => {
            let product = word_product(alloc, circuit, a, b)?;
            Ok((product, none))
        }
        BinOp::Div => {
            let quotient = divided(alloc, circuit, true, a, b)?;
            Ok(quotient)
        }
        BinOp::Rem => {
            let remainder = divided(alloc, circuit, false, a, b)?;
            Ok(remainder)
        }
        BinOp::Shl => {
            let raised = shifted(alloc, circuit, true, a, b)?;
            Ok(raised)
        }
        BinOp::Shr => {
            let lowered = shifted(alloc, circuit, false, a, b)?;
            Ok(lowered)
        }
        BinOp::And => {
            let ands = word_and(alloc, circuit, a, b)?;
            Ok((ands, none))
        }
        BinOp::Or => {
            let ors = word_or(alloc, circuit, a, b)?;
            Ok((ors, none))
        }
        BinOp::Xor => {
            let xors = word_xor(alloc, circuit, a, b)?;
            Ok((xors, none))
        }
        BinOp::Eq => {
            let same = word_equal(alloc, circuit, a, b)?;
            Ok((same, none))
        }
        BinOp::Ne => {
            let different = word_different(alloc, circuit, a, b)?;
            Ok((different, none))
        }
        BinOp::Lt => {
            let less = word_less(alloc, circuit, a, b)?;
            Ok((less, none))
        }
        BinOp::Le => {
            let at_most = word_at_most(alloc, circuit, a, b)?;
            Ok((at_most, none))
        }
        BinOp::Gt => {
            let greater = word_greater(alloc, circuit, a, b)?;
            Ok((greater, none))
        }
        BinOp::Ge => {
            let at_least = word_at_least(alloc, circuit, a, b)?;
            Ok((at_least, none))
        }
    }
}
