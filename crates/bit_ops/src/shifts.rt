ghost use Rattle.std.specs.Prelude.{◌≡◌, ◌<◌, ◌≤◌, ◌^◌, Bool, List, false, length, IfOk};
ghost use Rattle.aig_build.specs.Circuits.{Grows, lit_value};
ghost use Rattle.rvt_num.specs.Kinds.{promoted_kind, width};
ghost use Rattle.rvt_num.specs.Operations.{number_of, shifts_too_far};
ghost use Rattle.bit_words.specs.Built.{sign_bit};
ghost use Rattle.bit_words.specs.Words.{AreThere, word_number};
ghost use Rattle.bit_ops.specs.Built.{count_places, moved_bits, shift_built, shift_fill, too_far_built, word_shift_built};
ghost use Rattle.bit_ops.specs.Shifting.{shift_op};

use aig_build::{Circuit, Lit};
use bit_words::Word;
use bit_words::cells::Cell;
use bit_words::ripples::{carried, joined, repeated, ripple};
use rvt_num::{Kind, Memory};
use std::alloc::Global;

/// The bits some places up or down, with the literal in the places that come free.
fn moved(alloc: Global, up: bool, fill: Lit, step: usize, bits: &[Lit]) -> Result<Vec<Lit>, Memory>
    requires { step ≤ length bits.now }
    ensures { IfOk result (λ r. r.items ≡ moved_bits up fill step bits.now) }
{
    let free = repeated(alloc, fill, step)?;
    if up {
        joined(alloc, &free, &bits[..bits.len() - step])
    } else {
        joined(alloc, &bits[step..], &free)
    }
}

/// The bits moved up or down by as many places as the count says: each bit of the count chooses.
fn shift(
    alloc: Global,
    circuit: &mut Circuit,
    up: bool,
    fill: Lit,
    bits: &[Lit],
    count: &[Lit],
) -> Result<Vec<Lit>, Memory>
    requires bits_are_there { AreThere circuit.old bits.now }
    requires count_is_there { AreThere circuit.old count.now }
    requires fill_is_there { fill.node < length circuit.old }
    requires within { 2 ^ length count.now ≤ length bits.now }
    requires few { length count.now ≤ 6 }
    ensures built { IfOk result (λ r. shift_built circuit.old up fill bits.now count.now 1 ≡ record { nodes = circuit.new; bits = r.items; carry = fill }) }
    ensures wide { IfOk result (λ r. length r.items ≡ length bits.now) }
    ensures there { IfOk result (λ r. AreThere circuit.new r.items) }
    ensures grows { Grows circuit.old circuit.new }
{
    let _count = circuit.nodes();
    let mut step = 1;
    let mut word = joined(alloc, bits, &[])?;
    for at in 0..count.len() {
        let other = moved(alloc, up, fill, step, &word)?;
        let (next, _) = ripple(alloc, circuit, Cell::Choice, &other, &word, count[at])?;
        word = next;
        step = step * 2;
    }
    Ok(word)
}

/// How many low bits of a count say a number below the width of a promoted kind.
fn count_bits(kind: Kind) -> usize
    ensures places { result ≡ count_places kind }
    ensures few { result ≤ 6 }
{
    match kind {
        Kind::I64 | Kind::U64 => 6,
        _ => 5,
    }
}

/// The literal of the sign, false for a word of an unsigned kind.
pub fn sign(a: &Word) -> Lit
    ensures literal { result ≡ sign_bit a.now }
    ensures wide { length a.now.bits ≡ width a.now.kind }
{
    if a.kind.is_signed() {
        a.bits[a.bits.len() - 1]
    } else {
        Lit::constant(false)
    }
}

/// The literal in the places that come free.
fn free_bit(up: bool, a: &Word) -> Lit
    ensures { result ≡ shift_fill up a.now }
{
    if up { Lit::constant(false) } else { sign(a) }
}

/// Whether one of the bits of the count above the low ones is set.
fn too_far(alloc: Global, circuit: &mut Circuit, low: usize, count: &[Lit]) -> Result<Lit, Memory>
    requires within { low ≤ length count.now }
    requires count_is_there { AreThere circuit.old count.now }
    ensures built { IfOk result (λ lit. too_far_built circuit.old low count.now ≡ record { nodes = circuit.new; lit = lit }) }
    ensures there { IfOk result (λ lit. lit.node < length circuit.new) }
    ensures grows { Grows circuit.old circuit.new }
{
    let _count = circuit.nodes();
    let zeros = repeated(alloc, Lit::constant(false), count.len() - low)?;
    let none = carried(
        circuit,
        Cell::Equal,
        &count[low..],
        &zeros,
        Lit::constant(true),
    )?;
    Ok(none.opposite())
}

/// The word a moved up or down by the count b, and whether the count is negative or too large.
pub fn word_shift(
    alloc: Global,
    circuit: &mut Circuit,
    up: bool,
    a: &Word,
    b: &Word,
) -> Result<(Word, Lit), Memory>
    requires a_is_there { AreThere circuit.old a.now.bits }
    requires b_is_there { AreThere circuit.old b.now.bits }
    requires a_promoted { promoted_kind a.now.kind ≡ a.now.kind }
    requires b_promoted { promoted_kind b.now.kind ≡ b.now.kind }
    ensures built { IfOk result (λ r. word_shift_built circuit.old up a.now b.now ≡ record { nodes = circuit.new; word = r.0; too_far = r.1 }) }
    ensures too_far { IfOk result (λ r. (inputs : List Bool) → lit_value circuit.new inputs r.1 ≡ shifts_too_far (word_number circuit.old inputs a.now) (word_number circuit.old inputs b.now)) }
    ensures value { IfOk result (λ r. (inputs : List Bool) → shifts_too_far (word_number circuit.old inputs a.now) (word_number circuit.old inputs b.now) ≡ false → word_number circuit.new inputs r.0 ≡ number_of (shift_op up) (word_number circuit.old inputs a.now) (word_number circuit.old inputs b.now)) }
    ensures there { IfOk result (λ r. AreThere circuit.new r.0.bits) }
    ensures too_far_there { IfOk result (λ r. r.1.node < length circuit.new) }
    ensures grows { Grows circuit.old circuit.new }
{
    let _before = circuit.nodes();
    let low = count_bits(a.kind);
    let far = too_far(alloc, circuit, low, &b.bits)?;
    let _after = circuit.nodes();
    let fill = free_bit(up, a);
    let bits = shift(alloc, circuit, up, fill, &a.bits, &b.bits[..low])?;
    Ok((Word { kind: a.kind, bits }, far))
}
