//! The operations on cells: by 64 bits where that is enough, else by the exact value.

ghost use Rattle.std.specs.Prelude.{◌≡◌, IfSome, pos};
ghost use Rattle.rvt_num.specs.Kinds.{IsOf};
ghost use Rattle.rvt_num.specs.Operations.{converted, unary_of};
ghost use Rattle.rvt_num.specs.declared.values.Value.TheVariants as V;
ghost use Rattle.c_meaning.specs.Stores.{number_of, same_pointer};
ghost use Rattle.c_meaning.specs.Expressions.{operated};
ghost use Rattle.c_meaning.specs.Statements.{updated, bumped, operation};
ghost use Rattle.c_cells.specs.Contents.{numeral};

use crate::cells::{Cell, Content};
use crate::quick::{of_short, of_shorts};
use crate::wide;
use rvt_num::{BinOp, Kind, Num, Trap, UnOp, promoted};
use rvt_tree::Bump;

/// An operation on the numbers of two values.
pub fn operated(op: BinOp, a: Cell, b: Cell) -> Result<Cell, Trap>
    ensures { result ≡ operated op a b }
{
    match quickly(op, a, b) {
        Some(cell) => Ok(cell),
        None => operated_widely(op, a, b),
    }
}

fn operated_widely(op: BinOp, a: Cell, b: Cell) -> Result<Cell, Trap>
    ensures { result ≡ operated op a b }
{
    match wide::binary(op, a.number(), b.number()) {
        Ok(number) => Ok(Cell::of_number(number)),
        Err(trap) => Err(trap),
    }
}

/// `-a`, `~a` and `!a` of the number of a value.
pub fn unary_number(op: UnOp, a: Cell) -> Cell
    ensures { result ≡ V.Num (unary_of op (number_of a)) }
{
    match quickly_alone(op, a) {
        Some(cell) => cell,
        None => Cell::of_number(wide::unary(op, a.number())),
    }
}

/// The number of a value, converted to a kind.
pub fn converted(kind: Kind, a: Cell) -> Cell
    ensures { result ≡ V.Num (converted kind (number_of a)) }
{
    match quickly_converted(kind, a) {
        Some(cell) => cell,
        None => Cell::of_number(Num::wrapped(kind, a.amount())),
    }
}

/// `x op= e`: computed in a kind and converted back to that of x.
pub fn updated(op: BinOp, kind: Kind, old: Cell, value: Cell) -> Result<Cell, Trap>
    ensures { result ≡ updated op kind old value }
{
    match operated(op, converted(kind, old), value) {
        Ok(new) => Ok(converted(old.kind(), new)),
        Err(trap) => Err(trap),
    }
}

/// `++` and `--` of an integer.
pub fn bumped(bump: Bump, old: Cell) -> Result<Cell, Trap>
    ensures { result ≡ bumped bump old }
{
    let kind = promoted(old.kind());
    let one = Cell::wrapped(kind, 1);
    let new = updated(operation(bump), kind, old, one)?;
    Ok(new)
}

fn operation(bump: Bump) -> BinOp
    ensures { result ≡ operation bump }
{
    match bump {
        Bump::UpAfter | Bump::UpBefore => BinOp::Add,
        Bump::DownAfter | Bump::DownBefore => BinOp::Sub,
    }
}

/// The operation by 64 bits, where that is enough.
fn quickly(op: BinOp, a: Cell, b: Cell) -> Option<Cell>
    ensures { IfSome result (λ cell. operated op a b ≡ Ok cell) }
{
    match a.content {
        Content::Short(kind, x) => quickly_after_short(op, kind, x, b),
        Content::Long(_) => None,
        Content::Null => None,
        Content::At(_, _) => None,
    }
}

fn quickly_after_short(op: BinOp, kind: Kind, x: i64, b: Cell) -> Option<Cell>
    requires { IsOf kind x }
    ensures { IfSome result (λ cell. operated op (numeral kind x) b ≡ Ok cell) }
{
    match b.content {
        Content::Short(other, y) => of_shorts(op, kind, x, other, y),
        Content::Long(_) => None,
        Content::Null => None,
        Content::At(_, _) => None,
    }
}

fn quickly_alone(op: UnOp, a: Cell) -> Option<Cell>
    ensures { IfSome result (λ cell. cell ≡ V.Num (unary_of op (number_of a))) }
{
    match a.content {
        Content::Short(kind, x) => of_short(op, kind, x),
        Content::Long(_) => None,
        Content::Null => None,
        Content::At(_, _) => None,
    }
}

fn quickly_converted(kind: Kind, a: Cell) -> Option<Cell>
    ensures { IfSome result (λ cell. cell ≡ V.Num (converted kind (number_of a))) }
{
    match a.content {
        Content::Short(_, x) => Some(Cell::wrapped(kind, x)),
        Content::Long(x) => quickly_narrowed(kind, x),
        Content::Null => None,
        Content::At(_, _) => None,
    }
}

fn quickly_narrowed(kind: Kind, x: u64) -> Option<Cell>
    ensures { IfSome result (λ cell. cell ≡ V.Num (converted kind (record { kind = Kind.U64; value = pos x }))) }
{
    let x = i64::try_from(x).ok()?;
    Some(Cell::wrapped(kind, x))
}

/// Both null, or one object and cell.
pub fn same_pointer(a: Cell, b: Cell) -> bool
    ensures { result ≡ same_pointer a b }
{
    match a.content {
        Content::Null => is_null(b),
        Content::At(object, cell) => is_at(b, object, cell),
        Content::Short(_, _) => false,
        Content::Long(_) => false,
    }
}

fn is_null(a: Cell) -> bool
    ensures { result ≡ same_pointer V.Null a }
{
    match a.content {
        Content::Null => true,
        Content::At(_, _) => false,
        Content::Short(_, _) => false,
        Content::Long(_) => false,
    }
}

fn is_at(a: Cell, object: u32, cell: u32) -> bool
    ensures { result ≡ same_pointer (V.At object cell) a }
{
    match a.content {
        Content::At(other, place) => object == other && cell == place,
        Content::Null => false,
        Content::Short(_, _) => false,
        Content::Long(_) => false,
    }
}
