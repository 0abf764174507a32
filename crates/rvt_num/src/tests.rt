//! The operations against gcc with `-fwrapv`, on 64-bit Linux.

use crate::{BinOp, Kind, Num, Trap, UnOp, binary, common, convert, promoted, unary};

/// An operation on two numbers of type `int`.
fn on_int(op: BinOp, a: i128, b: i128) -> Result<i128, Trap> {
    let a = Num::wrapped(Kind::I32, a);
    let b = Num::wrapped(Kind::I32, b);
    Ok(binary(op, a, b)?.value())
}

/// An operation on two numbers of type `unsigned int`.
fn on_unsigned(op: BinOp, a: i128, b: i128) -> Result<i128, Trap> {
    let a = Num::wrapped(Kind::U32, a);
    let b = Num::wrapped(Kind::U32, b);
    Ok(binary(op, a, b)?.value())
}

/// An operation on two numbers of type `long`.
fn on_long(op: BinOp, a: i128, b: i128) -> Result<i128, Trap> {
    let a = Num::wrapped(Kind::I64, a);
    let b = Num::wrapped(Kind::I64, b);
    Ok(binary(op, a, b)?.value())
}

#[test]
fn operations_on_int_are_those_of_gcc(rt: HostRuntime) {
    for (op, a, b, want) in [
        (BinOp::Add, 2147483647, 1, -2147483648),
        (BinOp::Sub, -2147483648, 1, 2147483647),
        (BinOp::Mul, -65537, 65537, -131073),
        (BinOp::Div, -7, 2, -3),
        (BinOp::Div, 7, -2, -3),
        (BinOp::Rem, -7, 2, -1),
        (BinOp::Rem, 7, -2, 1),
        (BinOp::Shl, -3, 30, 1073741824),
        (BinOp::Shr, -7, 1, -4),
        (BinOp::And, -2, 6, 6),
        (BinOp::Or, -8, 3, -5),
        (BinOp::Xor, -1, 5, -6),
        (BinOp::Eq, -1, -1, 1),
        (BinOp::Ne, -1, 1, 1),
        (BinOp::Lt, -1, 1, 1),
        (BinOp::Le, -1, -1, 1),
        (BinOp::Gt, -1, 1, 0),
        (BinOp::Ge, 1, -1, 1),
    ] {
        assert_eq!(rt; on_int(op, a, b), Ok(want), "{op:?} of {a} and {b}");
    }
}

#[test]
fn operations_on_other_kinds_are_those_of_gcc(rt: HostRuntime) {
    for (op, a, b, want) in [
        (BinOp::Sub, 0, 1, 4294967295),
        (BinOp::Div, 4294967289, 2, 2147483644),
        (BinOp::Shl, 3, 31, 2147483648),
        (BinOp::Shr, 4294967289, 1, 2147483644),
        (BinOp::Lt, 4294967295, 1, 0),
    ] {
        assert_eq!(rt; on_unsigned(op, a, b), Ok(want), "{op:?} of {a} and {b}");
    }
    for (op, a, b, want) in [
        (BinOp::Mul, -4294967297, 4294967297, -8589934593),
        (BinOp::Shl, -3, 62, 4611686018427387904),
        (BinOp::Shr, -9223372036854775808, 63, -1),
    ] {
        assert_eq!(rt; on_long(op, a, b), Ok(want), "{op:?} of {a} and {b}");
    }
    let low = Num::wrapped(Kind::I32, -2147483648);
    assert_eq!(rt; unary(UnOp::Minus, low).value(), -2147483648);
    assert_eq!(rt;
        unary(UnOp::Flip, Num::wrapped(Kind::U32, 5)).value(),
        4294967290
    );
    assert_eq!(rt; unary(UnOp::IsZero, low).value(), 0);
}

// What C leaves undefined and this profile traps: expected from the profile.
#[test]
fn traps_come_where_the_profile_says(rt: HostRuntime) {
    for (op, a, b, want) in [
        (BinOp::Div, 1, 0, Trap::Divide),
        (BinOp::Rem, -2147483648, 0, Trap::Divide),
        (BinOp::Div, -2147483648, -1, Trap::Quotient),
        (BinOp::Rem, -2147483648, -1, Trap::Quotient),
        (BinOp::Shl, 1, 32, Trap::Shift),
        (BinOp::Shr, 1, -1, Trap::Shift),
    ] {
        assert_eq!(rt; on_int(op, a, b), Err(want), "{op:?} of {a} and {b}");
    }
    assert_eq!(rt; on_long(BinOp::Shr, 1, 64), Err(Trap::Shift));
    assert_eq!(rt; on_unsigned(BinOp::Div, 2147483648, 4294967295), Ok(0));
}

#[test]
fn conversions_are_those_of_gcc(rt: HostRuntime) {
    for (value, kind, want) in [
        (-32769, Kind::Bool, 1),
        (-129, Kind::I8, 127),
        (-129, Kind::U8, 127),
        (32768, Kind::I16, -32768),
        (-32769, Kind::U16, 32767),
        (2147483648, Kind::I32, -2147483648),
        (-32769, Kind::U32, 4294934527),
        (4294967295, Kind::I64, 4294967295),
        (-1, Kind::U64, 18446744073709551615),
    ] {
        let number = Num::wrapped(Kind::I64, value);
        assert_eq!(rt; convert(kind, number).value(), want, "{value} to {kind:?}");
    }
    for (a, b, want) in [
        (Kind::Bool, Kind::Bool, Kind::I32),
        (Kind::U16, Kind::I16, Kind::I32),
        (Kind::I32, Kind::U32, Kind::U32),
        (Kind::U32, Kind::I8, Kind::U32),
        (Kind::U32, Kind::I64, Kind::I64),
        (Kind::U8, Kind::I64, Kind::I64),
        (Kind::I64, Kind::U64, Kind::U64),
        (Kind::U64, Kind::Bool, Kind::U64),
    ] {
        assert_eq!(rt; common(a, b), want, "{a:?} with {b:?}");
    }
    assert_eq!(rt; promoted(Kind::U16), Kind::I32);
}
