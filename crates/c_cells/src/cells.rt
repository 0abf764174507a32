//! A cell, and what it holds.

ghost use Rattle.std.specs.Prelude.{◌≡◌, true, ◌-◌, ◌^◌, ◌≤ℤ◌, pos, negsuc};
ghost use Rattle.rvt_num.specs.Kinds.{IsOf};
ghost use Rattle.rvt_num.specs.Wrapping.{wrapped};
ghost use Rattle.rvt_num.specs.declared.values.Value.TheVariants as V;
ghost use Rattle.c_meaning.specs.Stores.{number_of, holds, cleared};
ghost use Rattle.c_cells.specs.Contents.{is_short};

use crate::narrow::{to_bool, to_i8, to_i16, to_i32, to_u8, to_u16, to_u32, to_u64};
use rvt_num::{Kind, Num, Value};
use std::marker::Model;

/// What a cell holds.
#[derive(Clone, Copy, Debug)]
pub(crate) enum Content {
    /// A number of a kind other than `U64`.
    Short(Kind, i64),
    /// A number of the kind `U64`.
    Long(u64),
    Null,
    /// A pointer to a cell of an object: the object's number and the cell's.
    At(u32, u32),
}

/// A value of a running program, in 16 bytes.
#[derive(Clone, Copy, Debug)]
pub struct Cell {
    pub(crate) content: Content,
}

impl Model for Cell {
    ghost use Rattle.rvt_num.specs.declared.values.Value.{Value as RunValue};

    ghost Value = { RunValue };

    ghost use Rattle.c_cells.specs.Contents.{value_in, IsWithin, content_of, content_of-value_in};

    ghost view = { λ c. value_in c.content };

    ghost invariant = { λ c. IsWithin c.content };

    ghost inverse = { λ v. record { content = content_of v } };

    ghost inverse_ok = { λ c h i. record { content = content_of-value_in c.content h i } };
}

/// Whether all numbers of the kind fit an `i64`.
fn is_short(kind: Kind) -> bool
    ensures { result ≡ is_short kind }
{
    match kind {
        Kind::U64 => false,
        _ => true,
    }
}

fn short_value(number: Num) -> i64
    requires { is_short number.kind ≡ true }
    ensures value { result ≡ number.value }
    ensures range { IsOf number.kind number.value }
{
    number.value() as i64
}

impl Cell {
    /// The cell that holds a value.
    pub fn of(value: Value) -> Cell
        ensures { result ≡ value }
    {
        match value {
            Value::Num(number) => Cell::of_number(number),
            Value::Null => Cell {
                content: Content::Null,
            },
            Value::At(object, cell) => Cell {
                content: Content::At(object, cell),
            },
        }
    }

    pub fn of_number(number: Num) -> Cell
        ensures { result ≡ V.Num number }
    {
        if is_short(number.kind()) {
            Cell::wrapped(number.kind(), short_value(number))
        } else {
            Cell {
                content: Content::Long(number.value() as u64),
            }
        }
    }

    pub fn value(&self) -> Value
        ensures { result ≡ self.now }
    {
        match self.content {
            Content::Short(kind, value) => Value::Num(Num::wrapped(kind, i128::from(value))),
            Content::Long(value) => Value::Num(Num::wrapped(Kind::U64, i128::from(value))),
            Content::Null => Value::Null,
            Content::At(object, cell) => Value::At(object, cell),
        }
    }

    /// The number that the value counts as: 0 of the kind `int` for a pointer.
    pub fn number(&self) -> Num
        ensures { result ≡ number_of self.now }
    {
        match self.content {
            Content::Short(kind, value) => Num::wrapped(kind, i128::from(value)),
            Content::Long(value) => Num::wrapped(Kind::U64, i128::from(value)),
            Content::Null => Num::wrapped(Kind::I32, 0),
            Content::At(_, _) => Num::wrapped(Kind::I32, 0),
        }
    }

    /// The kind of that number.
    pub fn kind(&self) -> Kind
        ensures { result ≡ (number_of self.now).kind }
    {
        match self.content {
            Content::Short(kind, _) => kind,
            Content::Long(_) => Kind::U64,
            Content::Null => Kind::I32,
            Content::At(_, _) => Kind::I32,
        }
    }

    /// That number itself.
    pub fn amount(&self) -> i128
        ensures value { result ≡ (number_of self.now).value }
        ensures low { negsuc (2 ^ 63 - 1) ≤ℤ result }
        ensures high { result ≤ℤ pos (2 ^ 64 - 1) }
    {
        match self.content {
            Content::Short(_, value) => i128::from(value),
            Content::Long(value) => i128::from(value),
            Content::Null => 0,
            Content::At(_, _) => 0,
        }
    }

    /// Whether a condition with this value holds.
    pub fn holds(&self) -> bool
        ensures { result ≡ holds self.now }
    {
        match self.content {
            Content::Short(_, value) => value != 0,
            Content::Long(value) => value != 0,
            Content::Null => false,
            Content::At(_, _) => true,
        }
    }

    /// Zero of the same kind, or null.
    pub fn cleared(&self) -> Cell
        ensures { result ≡ cleared self.now }
    {
        match self.content {
            Content::Short(kind, _) => Cell {
                content: Content::Short(kind, 0),
            },
            Content::Long(_) => Cell {
                content: Content::Long(0),
            },
            Content::Null => Cell::null(),
            Content::At(_, _) => Cell::null(),
        }
    }

    pub fn null() -> Cell
        ensures { result ≡ V.Null }
    {
        Cell {
            content: Content::Null,
        }
    }

    /// The number of the kind that equals the value modulo 2 to the kind's width; for `Bool` 0 where it is 0, else 1.
    pub fn wrapped(kind: Kind, value: i64) -> Cell
        ensures { result ≡ V.Num (wrapped kind value) }
    {
        let value = match kind {
            Kind::Bool => to_bool(value),
            Kind::I8 => to_i8(value),
            Kind::U8 => to_u8(value),
            Kind::I16 => to_i16(value),
            Kind::U16 => to_u16(value),
            Kind::I32 => to_i32(value),
            Kind::U32 => to_u32(value),
            Kind::I64 => value,
            Kind::U64 => {
                return Cell::long(to_u64(value));
            }
        };
        Cell {
            content: Content::Short(kind, value),
        }
    }

    /// A number of the kind `U64`.
    pub fn long(value: u64) -> Cell
        ensures { result ≡ V.Num (record { kind = Kind.U64; value = pos value }) }
    {
        Cell {
            content: Content::Long(value),
        }
    }
}
