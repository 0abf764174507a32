use c_cells::{Cell, bumped, converted, operated, same_pointer, unary_number, updated};
use rvt_num::{BinOp, Kind, Num, Trap, UnOp, Value};
use rvt_tree::Bump;

fn cell(kind: Kind, value: i128) -> Cell {
    Cell::of(Value::Num(Num::wrapped(kind, value)))
}

fn number_in(outcome: Result<Cell, Trap>) -> Result<i128, Trap> {
    Ok(outcome?.amount())
}

fn on(kind: Kind, op: BinOp, a: i128, b: i128) -> Result<i128, Trap> {
    number_in(operated(op, cell(kind, a), cell(kind, b)))
}

#[test]
fn a_cell_has_sixteen_bytes(rt: HostRuntime) {
    assert_eq!(rt; size_of::<Cell>(), 16);
}

#[test]
fn operations_on_int_are_those_of_gcc(rt: HostRuntime) {
    for (op, a, b, want) in [
        (BinOp::Add, 2147483647, 1, -2147483648),
        (BinOp::Sub, -2147483648, 1, 2147483647),
        (BinOp::Mul, -65537, 65537, -131073),
        (BinOp::Div, -7, 2, -3),
        (BinOp::Div, 7, -2, -3),
        (BinOp::Rem, -7, 2, -1),
        (BinOp::Rem, 7, -2, 1),
        (BinOp::Shl, -3, 30, 1073741824),
        (BinOp::Shr, -7, 1, -4),
        (BinOp::And, -2, 6, 6),
        (BinOp::And, 12, 10, 8),
        (BinOp::Or, -8, 3, -5),
        (BinOp::Or, 12, 10, 14),
        (BinOp::Xor, -1, 5, -6),
        (BinOp::Xor, 12, 10, 6),
        (BinOp::Lt, -1, 1, 1),
        (BinOp::Ge, 1, -1, 1),
    ] {
        assert_eq!(rt; on(Kind::I32, op, a, b), Ok(want), "{op:?} of {a} and {b}");
    }
}

#[test]
fn operations_on_other_kinds_are_those_of_gcc(rt: HostRuntime) {
    for (op, a, b, want) in [
        (BinOp::Sub, 0, 1, 4294967295),
        (BinOp::Mul, 4294967295, 4294967295, 1),
        (BinOp::Div, 4294967289, 2, 2147483644),
        (BinOp::Shl, 3, 31, 2147483648),
        (BinOp::Lt, 4294967295, 1, 0),
    ] {
        assert_eq!(rt; on(Kind::U32, op, a, b), Ok(want), "{op:?} of {a} and {b}");
    }
    for (op, a, b, want) in [
        (BinOp::Add, 9223372036854775807, 1, -9223372036854775808),
        (BinOp::Mul, -4294967297, 4294967297, -8589934593),
        (BinOp::Shl, -3, 62, 4611686018427387904),
        (BinOp::Shr, -9223372036854775808, 63, -1),
    ] {
        assert_eq!(rt; on(Kind::I64, op, a, b), Ok(want), "{op:?} of {a} and {b}");
    }
    for (op, a, b, want) in [
        (BinOp::Add, 18446744073709551615, 2, 1),
        (BinOp::Sub, 1, 2, 18446744073709551615),
        (BinOp::Mul, 18446744073709551615, 18446744073709551615, 1),
        (BinOp::Shl, 3, 63, 9223372036854775808),
        (BinOp::Shr, 18446744073709551615, 60, 15),
        (BinOp::Gt, 18446744073709551615, 1, 1),
    ] {
        assert_eq!(rt; on(Kind::U64, op, a, b), Ok(want), "{op:?} of {a} and {b}");
    }
    let low = cell(Kind::I32, -2147483648);
    assert_eq!(rt; unary_number(UnOp::Minus, low).amount(), -2147483648);
    assert_eq!(rt;
        unary_number(UnOp::Flip, cell(Kind::U32, 5)).amount(),
        4294967290
    );
    assert_eq!(rt;
        unary_number(UnOp::Flip, cell(Kind::U64, 5)).amount(),
        18446744073709551610
    );
}

// What C leaves undefined and this profile traps: expected from the profile.
#[test]
fn traps_come_where_the_profile_says(rt: HostRuntime) {
    for (op, a, b, want) in [
        (BinOp::Div, 1, 0, Trap::Divide),
        (BinOp::Rem, -2147483648, 0, Trap::Divide),
        (BinOp::Div, -2147483648, -1, Trap::Quotient),
        (BinOp::Shl, 1, 32, Trap::Shift),
        (BinOp::Shr, 1, -1, Trap::Shift),
    ] {
        assert_eq!(rt; on(Kind::I32, op, a, b), Err(want), "{op:?} of {a} and {b}");
    }
}

#[test]
fn conversions_and_updates_are_those_of_gcc(rt: HostRuntime) {
    for (value, kind, want) in [
        (-32769, Kind::Bool, 1),
        (-129, Kind::I8, 127),
        (-129, Kind::U8, 127),
        (32768, Kind::I16, -32768),
        (-32769, Kind::U16, 32767),
        (2147483648, Kind::I32, -2147483648),
        (-32769, Kind::U32, 4294934527),
        (-1, Kind::U64, 18446744073709551615),
    ] {
        assert_eq!(rt;
            converted(kind, cell(Kind::I64, value)).amount(),
            want,
            "{value} to {kind:?}"
        );
    }
    let byte = cell(Kind::U8, 200);
    let sum = updated(BinOp::Add, Kind::I32, byte, cell(Kind::I32, 100));
    assert_eq!(rt; number_in(sum), Ok(44));
    let up = bumped(Bump::UpAfter, cell(Kind::I8, 127));
    assert_eq!(rt; number_in(up), Ok(-128));
    let down = bumped(Bump::DownBefore, cell(Kind::U64, 0));
    assert_eq!(rt; number_in(down), Ok(18446744073709551615));
}

#[test]
fn pointers_are_compared_by_object_and_cell(rt: HostRuntime) {
    let at = Cell::of(Value::At(3, 4));
    assert!(rt; same_pointer(at, at));
    assert!(rt; !same_pointer(at, Cell::of(Value::At(3, 5))));
    assert!(rt; same_pointer(Cell::null(), Cell::null()));
    assert!(rt; !same_pointer(Cell::null(), at));
    assert!(rt; at.holds());
}
