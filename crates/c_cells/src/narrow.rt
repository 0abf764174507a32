//! Numbers of 64 bits cut to the width of a kind.

ghost use Rattle.std.specs.Prelude.{◌≡◌, pos};
ghost use Rattle.rvt_num.specs.Kinds.{IsOf};
ghost use Rattle.rvt_num.specs.Wrapping.{pattern_of, wrap};

use rvt_num::Kind;

fn low_8(value: i64) -> u8
    ensures { result ≡ pattern_of 8 value }
{
    value.rem_euclid(1 << 8) as u8
}

fn low_16(value: i64) -> u16
    ensures { result ≡ pattern_of 16 value }
{
    value.rem_euclid(1 << 16) as u16
}

fn low_32(value: i64) -> u32
    ensures { result ≡ pattern_of 32 value }
{
    value.rem_euclid(1 << 32) as u32
}

pub fn to_bool(value: i64) -> i64
    ensures value { result ≡ wrap Kind.Bool value }
    ensures range { IsOf Kind.Bool result }
{
    if value == 0 { 0 } else { 1 }
}

pub fn to_i8(value: i64) -> i64
    ensures value { result ≡ wrap Kind.I8 value }
    ensures range { IsOf Kind.I8 result }
{
    i64::from(low_8(value).cast_signed())
}

pub fn to_u8(value: i64) -> i64
    ensures value { result ≡ wrap Kind.U8 value }
    ensures range { IsOf Kind.U8 result }
{
    i64::from(low_8(value))
}

pub fn to_i16(value: i64) -> i64
    ensures value { result ≡ wrap Kind.I16 value }
    ensures range { IsOf Kind.I16 result }
{
    i64::from(low_16(value).cast_signed())
}

pub fn to_u16(value: i64) -> i64
    ensures value { result ≡ wrap Kind.U16 value }
    ensures range { IsOf Kind.U16 result }
{
    i64::from(low_16(value))
}

pub fn to_i32(value: i64) -> i64
    ensures value { result ≡ wrap Kind.I32 value }
    ensures range { IsOf Kind.I32 result }
{
    i64::from(low_32(value).cast_signed())
}

pub fn to_u32(value: i64) -> i64
    ensures value { result ≡ wrap Kind.U32 value }
    ensures range { IsOf Kind.U32 result }
{
    i64::from(low_32(value))
}

pub fn to_u64(value: i64) -> u64
    ensures { wrap Kind.U64 value ≡ pos result }
{
    value.cast_unsigned()
}
