//! Operations on words at operands of which gcc -fwrapv gave the answers.
ghost use Rattle.std.specs.Prelude.{◌≡◌, ◌<◌, length, IfOk};
ghost use Rattle.aig_build.specs.Circuits.{Grows};
ghost use Rattle.rvt_num.specs.Kinds.{promoted_kind};
ghost use Rattle.bit_words.specs.Words.{AreThere};

use aig_build::{Circuit, Lit};
use bit_ops::{TrapLits, Word, word_convert, word_op, word_unary};
use bit_words::ripples::push;
use rvt_num::{BinOp, Kind, Memory, Num, UnOp};
use std::alloc::Global;
use std::process::Abort;
use std::test::Fail;

#[test]
fn operations_on_i32(rt: HostRuntime) -> Result<(), Fail> {
    rows_hold(
        &rt,
        rt.alloc(),
        Kind::I32,
        &[
            (BinOp::Add, 2147483647, 1, -2147483648),
            (BinOp::Sub, -2147483648, 1, 2147483647),
            (BinOp::Mul, 65537, -65539, -262147),
            (BinOp::Div, -7, 2, -3),
            (BinOp::Rem, -7, 2, -1),
            (BinOp::Shl, 305419896, 5, 1183502080),
            (BinOp::Shr, -2147483647, 30, -2),
            (BinOp::And, -559038737, 195948557, 179154957),
            (BinOp::Or, -559038737, 195948557, -542245137),
            (BinOp::Xor, -559038737, 195948557, -721400094),
            (BinOp::Eq, -5, -5, 1),
            (BinOp::Ne, -5, -5, 0),
            (BinOp::Lt, -1, 0, 1),
            (BinOp::Le, -1, -1, 1),
            (BinOp::Gt, -1, 0, 0),
            (BinOp::Ge, -2147483648, 2147483647, 0),
        ],
    )?;
    Ok(())
}

#[test]
fn operations_on_u32(rt: HostRuntime) -> Result<(), Fail> {
    rows_hold(
        &rt,
        rt.alloc(),
        Kind::U32,
        &[
            (BinOp::Add, 4294967295, 2, 1),
            (BinOp::Sub, 0, 1, 4294967295),
            (BinOp::Mul, 4294967295, 4294967294, 2),
            (BinOp::Div, 4294967289, 2, 2147483644),
            (BinOp::Rem, 4294967289, 10, 9),
            (BinOp::Shl, 4026531841, 4, 16),
            (BinOp::Shr, 4026531841, 28, 15),
            (BinOp::And, 3735928559, 195948557, 179154957),
            (BinOp::Or, 3735928559, 195948557, 3752722159),
            (BinOp::Xor, 3735928559, 195948557, 3573567202),
            (BinOp::Eq, 4294967295, 2147483647, 0),
            (BinOp::Ne, 4294967295, 2147483647, 1),
            (BinOp::Lt, 4294967295, 0, 0),
            (BinOp::Le, 4294967295, 0, 0),
            (BinOp::Gt, 4294967295, 0, 1),
            (BinOp::Ge, 2147483648, 2147483647, 1),
        ],
    )?;
    Ok(())
}

#[test]
fn operations_on_i64(rt: HostRuntime) -> Result<(), Fail> {
    rows_hold(
        &rt,
        rt.alloc(),
        Kind::I64,
        &[
            (BinOp::Add, 9223372036854775807, 1, -9223372036854775808),
            (BinOp::Sub, -9223372036854775808, 1, 9223372036854775807),
            (BinOp::Mul, 4294967297, -4294967299, -17179869187),
            (BinOp::Div, 9223372036854775807, -10, -922337203685477580),
            (BinOp::Rem, -9223372036854775807, 10, -7),
            (BinOp::Shl, 1311768467463790320, 36, -6066930339719151616),
            (BinOp::Shr, -81985529205302085, 60, -1),
            (
                BinOp::And,
                -2401053088876216593,
                841540768839925005,
                769412737337146381,
            ),
            (
                BinOp::Or,
                -2401053088876216593,
                841540768839925005,
                -2328925057373437969,
            ),
            (
                BinOp::Xor,
                -2401053088876216593,
                841540768839925005,
                -3098337794710584350,
            ),
            (BinOp::Eq, 4294967296, 0, 0),
            (BinOp::Ne, 4294967296, 0, 1),
            (BinOp::Lt, -4294967296, 4294967296, 1),
            (BinOp::Le, 4294967296, -1, 0),
            (BinOp::Gt, 4294967296, 4294967295, 1),
            (BinOp::Ge, -1, -1, 1),
        ],
    )?;
    Ok(())
}

#[test]
fn operations_on_u64(rt: HostRuntime) -> Result<(), Fail> {
    rows_hold(
        &rt,
        rt.alloc(),
        Kind::U64,
        &[
            (BinOp::Add, 18446744073709551615, 2, 1),
            (BinOp::Sub, 0, 1, 18446744073709551615),
            (BinOp::Mul, 18446744073709551615, 18446744073709551614, 2),
            (BinOp::Div, 18446744073709551609, 10, 1844674407370955160),
            (BinOp::Rem, 18446744073709551609, 4294967296, 4294967289),
            (BinOp::Shl, 81985529216486895, 33, 1393753987479502848),
            (BinOp::Shr, 18364758544493064720, 60, 15),
            (
                BinOp::And,
                16045690984833335023,
                841540768839925005,
                769412737337146381,
            ),
            (
                BinOp::Or,
                16045690984833335023,
                841540768839925005,
                16117819016336113647,
            ),
            (
                BinOp::Xor,
                16045690984833335023,
                841540768839925005,
                15348406278998967266,
            ),
            (BinOp::Eq, 18446744073709551615, 18446744073709551615, 1),
            (BinOp::Ne, 18446744073709551615, 4294967295, 1),
            (BinOp::Lt, 18446744073709551615, 0, 0),
            (BinOp::Le, 0, 18446744073709551615, 1),
            (BinOp::Gt, 9223372036854775808, 9223372036854775807, 1),
            (BinOp::Ge, 4294967295, 4294967296, 0),
        ],
    )?;
    Ok(())
}

#[test]
fn operations_on_one_word(rt: HostRuntime) -> Result<(), Fail> {
    assert_eq!(rt; unary_number(&rt, rt.alloc(), UnOp::Minus, 5)?, -5);
    assert_eq!(rt; unary_number(&rt, rt.alloc(), UnOp::Flip, 5)?, -6);
    assert_eq!(rt; unary_number(&rt, rt.alloc(), UnOp::IsZero, 5)?, 0);
    assert_eq!(rt; converted_number(&rt, rt.alloc(), Kind::I8, 200)?, -56);
    assert_eq!(rt; converted_number(&rt, rt.alloc(), Kind::U16, -1)?, 65535);
    assert_eq!(rt; converted_number(&rt, rt.alloc(), Kind::Bool, 256)?, 1);
    assert_eq!(rt; converted_number(&rt, rt.alloc(), Kind::I64, -5)?, -5);
    Ok(())
}

#[test]
fn traps(rt: HostRuntime) -> Result<(), Fail> {
    let by_zero = answer(&rt, rt.alloc(), Kind::I32, BinOp::Div, 7, 0)?;
    assert!(rt; by_zero.divide);
    let too_large = answer(&rt, rt.alloc(), Kind::I32, BinOp::Div, -2147483648, -1)?;
    assert!(rt; too_large.quotient && !too_large.divide);
    let by_width = answer(&rt, rt.alloc(), Kind::I32, BinOp::Shl, 1, 32)?;
    assert!(rt; by_width.shift);
    let below_zero = answer(&rt, rt.alloc(), Kind::I64, BinOp::Shr, 1, -1)?;
    assert!(rt; below_zero.shift);
    Ok(())
}

/// Asserts that each operation on numbers of a promoted kind gives the last number of its row, without a trap.
fn rows_hold(
    rt: &impl Abort,
    alloc: Global,
    kind: Kind,
    rows: &[(BinOp, i128, i128, i128)],
) -> Result<(), Memory>
    requires { promoted_kind kind ≡ kind }
{
    for at in 0..rows.len() {
        let (op, a, b, number) = rows[at];
        let given = answer(rt, alloc, kind, op, a, b)?;
        assert_eq!(rt; given.number, number, "{kind:?} {op:?} {a} {b}");
        assert!(rt;
            !given.divide && !given.quotient && !given.shift,
            "{kind:?} {op:?} {a} {b}"
        );
    }
    Ok(())
}

/// The number of an operation's word, and which of its trap literals are true.
#[derive(Clone, Copy)]
struct Given {
    number: i128,
    divide: bool,
    quotient: bool,
    shift: bool,
}

/// What an operation on numbers of a promoted kind gives.
fn answer(
    rt: &impl Abort,
    alloc: Global,
    kind: Kind,
    op: BinOp,
    a: i128,
    b: i128,
) -> Result<Given, Memory>
    requires { promoted_kind kind ≡ kind }
{
    let (circuit, word, traps) = built(alloc, kind, op)?;
    let mut inputs = Vec::new(alloc);
    add_bits(&mut inputs, kind, a)?;
    add_bits(&mut inputs, kind, b)?;
    let number = number_of_word(rt, alloc, &circuit, &word, &inputs)?;
    let divide = bit(rt, alloc, &circuit, traps.divide, &inputs)?;
    let quotient = bit(rt, alloc, &circuit, traps.quotient, &inputs)?;
    let shift = bit(rt, alloc, &circuit, traps.shift, &inputs)?;
    Ok(Given {
        number,
        divide,
        quotient,
        shift,
    })
}

/// What an operation on one number of the kind `i32` gives.
fn unary_number(rt: &impl Abort, alloc: Global, op: UnOp, a: i128) -> Result<i128, Memory> {
    let mut circuit = Circuit::new(alloc);
    let operand = input_word(alloc, &mut circuit, Kind::I32)?;
    let word = word_unary(alloc, &mut circuit, op, &operand)?;
    let mut inputs = Vec::new(alloc);
    add_bits(&mut inputs, Kind::I32, a)?;
    let number = number_of_word(rt, alloc, &circuit, &word, &inputs)?;
    Ok(number)
}

/// What a number of the kind `i32` is in another kind.
fn converted_number(rt: &impl Abort, alloc: Global, kind: Kind, a: i128) -> Result<i128, Memory> {
    let mut circuit = Circuit::new(alloc);
    let operand = input_word(alloc, &mut circuit, Kind::I32)?;
    let word = word_convert(alloc, &mut circuit, kind, &operand)?;
    let mut inputs = Vec::new(alloc);
    add_bits(&mut inputs, Kind::I32, a)?;
    let number = number_of_word(rt, alloc, &circuit, &word, &inputs)?;
    Ok(number)
}

/// The circuit of an operation on two words of inputs, of a promoted kind.
fn built(alloc: Global, kind: Kind, op: BinOp) -> Result<(Circuit, Word, TrapLits), Memory>
    requires { promoted_kind kind ≡ kind }
{
    let mut circuit = Circuit::new(alloc);
    let a = input_word(alloc, &mut circuit, kind)?;
    let b = input_word(alloc, &mut circuit, kind)?;
    let (word, traps) = word_op(alloc, &mut circuit, op, &a, &b)?;
    Ok((circuit, word, traps))
}

/// A new input.
fn fresh(circuit: &mut Circuit) -> Result<Lit, Memory>
    ensures there { IfOk result (λ lit. lit.node < length circuit.new) }
    ensures grows { Grows circuit.old circuit.new }
{
    match circuit.input() {
        Ok(lit) => Ok(lit),
        Err(_) => Err(Memory),
    }
}

/// A word of new inputs.
fn input_word(alloc: Global, circuit: &mut Circuit, kind: Kind) -> Result<Word, Memory>
    ensures kind { IfOk result (λ w. w.kind ≡ kind) }
    ensures there { IfOk result (λ w. AreThere circuit.new w.bits) }
    ensures grows { Grows circuit.old circuit.new }
{
    let mut bits = Vec::new(alloc);
    for at in 0..kind.width() {
        let lit = fresh(circuit)?;
        push(&mut bits, lit)?;
    }
    Ok(Word { kind, bits })
}

/// The bits of a number of a kind, the lowest first, at the end of an assignment.
fn add_bits(inputs: &mut Vec<bool>, kind: Kind, value: i128) -> Result<(), Memory> {
    for at in 0..64 {
        if at < kind.width() {
            match inputs.push(value >> at & 1 == 1) {
                Ok(()) => {}
                Err(_) => return Err(Memory),
            }
        }
    }
    Ok(())
}

/// The number of a word under an assignment.
fn number_of_word(
    rt: &impl Abort,
    alloc: Global,
    circuit: &Circuit,
    word: &Word,
    inputs: &[bool],
) -> Result<i128, Memory> {
    let mut pattern = 0;
    for at in 0..64 {
        if at < word.bits.len() && bit(rt, alloc, circuit, word.bits[at], inputs)? {
            pattern |= 1i128 << at;
        }
    }
    Ok(Num::wrapped(word.kind, pattern).value())
}

/// The value of a literal under an assignment.
fn bit(
    rt: &impl Abort,
    alloc: Global,
    circuit: &Circuit,
    lit: Lit,
    inputs: &[bool],
) -> Result<bool, Memory> {
    let nodes = circuit.nodes();
    assert!(rt; lit.node < nodes && inputs.len() as u64 == circuit.inputs());
    let mut scratch = match vec![in alloc; false; nodes as usize] {
        Ok(scratch) => scratch,
        Err(_) => return Err(Memory),
    };
    let value = circuit.value(lit, inputs, &mut scratch);
    Ok(value)
}
