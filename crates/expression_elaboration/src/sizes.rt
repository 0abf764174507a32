//! `sizeof` (C 6.5.3.4), in bytes.

ghost use Rattle.std.specs.Prelude.{◌≡◌, ◌≤◌, ◌*◌, option_map, unsigned_abs};
ghost use Rattle.std.specs.List.{list_any};
ghost use Rattle.c_types.specs.Layout.{shape_of};
ghost use Rattle.expression_typing.specs.TypeNames.{is_below_1};
ghost use Rattle.expression_typing.specs.SizeofOperator.{bytes_of_kind, size_value, size_of_shape, size_of_operand, as_pointer, type_size, size_of_type};
ghost use Rattle.typing_base.specs.Views.{named_view, structures_view, type_view, operand_view};
ghost use Rattle.typing_base.specs.Follows.{GivesOperand};
ghost use Rattle.operator_rules.specs.Views.{written_view};
ghost use Rattle.expression_elaboration.specs.Extents.{capped, kind_within, elements_of, cells_of_array, size_of_cells};

use operator_rules::WrittenType;
use rvt_num::{Kind, Num};
use rvt_tree::{CType, Expr, Place};
use typing_base::{
    Cause, Fault, NamedType, Operand, PlaceType, Structure, broken, cells_of, cells_of_place,
};

/// The cells that a type may have at most.
const MOST_CELLS: u32 = 4096;

/// A product, and the greatest `u32` where it is more.
fn times(a: u32, b: u32) -> u32
    ensures { result ≡ capped (a * b) }
{
    (a as u64 * b as u64).min(4_294_967_295) as u32
}

fn bytes_of_kind(kind: Kind) -> u32
    ensures value { result ≡ bytes_of_kind kind }
    ensures bound { result ≤ 8 }
{
    match kind {
        Kind::Bool | Kind::I8 | Kind::U8 => 1,
        Kind::I16 | Kind::U16 => 2,
        Kind::I32 | Kind::U32 => 4,
        Kind::I64 | Kind::U64 => 8,
    }
}

fn size_value<'t>(bytes: u32) -> Operand<'t>
    ensures { operand_view result ≡ size_value bytes }
{
    let size = Num::wrapped(Kind::U64, bytes as i128);
    Operand::Integer(Kind::U64, Expr::Constant(size), false)
}

/// `sizeof` a type of so many cells, each of the kind.
fn size_of_cells<'t>(
    at: Place,
    cells: Option<u32>,
    kind: Option<Kind>,
) -> Result<Operand<'t>, Fault>
    ensures { GivesOperand (size_of_cells at cells kind) result }
{
    let Some(cells) = cells else {
        return Err(broken(Cause::IncompleteType, at));
    };
    if cells > MOST_CELLS {
        return Err(broken(Cause::TooManyCells, at));
    }
    match kind {
        Some(kind) => Ok(size_value(cells * bytes_of_kind(kind))),
        None => Err(broken(Cause::NotInProfile, at)),
    }
}

/// The kind of what a type has in each cell, if it has integers of one kind alone.
#[cycle(kind_within)]
fn kind_within(ty: &CType) -> Option<Kind>
    ensures { result ≡ kind_within (shape_of ty.now) }
{
    match ty {
        CType::Word(kind) => Some(*kind),
        CType::Array(item, _) => kind_within(item),
        CType::Pointer(_, _) => None,
        CType::Struct(_) => None,
    }
}

fn kind_within_place(ty: PlaceType) -> Option<Kind>
    ensures { result ≡ kind_within (type_view ty.entry) }
{
    match ty {
        PlaceType::Word(kind) => Some(kind),
        PlaceType::Array(item, _) => kind_within(item),
        PlaceType::Pointer(_, _) => None,
        PlaceType::Struct(_) => None,
    }
}

fn size_of_place<'t>(structs: &[Structure], at: Place, ty: PlaceType) -> Result<Operand<'t>, Fault>
    ensures { GivesOperand (size_of_shape (structures_view structs.now) at (type_view ty.entry)) result }
{
    let cells = cells_of_place(structs, ty);
    let kind = kind_within_place(ty);
    size_of_cells(at, cells, kind)
}

/// `sizeof` an expression, which is not evaluated.
pub fn size_of_operand<'t>(
    structs: &[Structure],
    at: Place,
    operand: &Operand<'t>,
) -> Result<Operand<'t>, Fault>
    ensures { GivesOperand (size_of_operand (structures_view structs.now) at (operand_view operand.now)) result }
{
    match operand {
        Operand::Place(ty, _, _) => size_of_place(structs, at, *ty),
        Operand::Integer(kind, _, _) => size_of_place(structs, at, PlaceType::Word(*kind)),
        Operand::Pointer(_, _, _) => Err(broken(Cause::NotInProfile, at)),
        Operand::Null => Err(broken(Cause::NotInProfile, at)),
        Operand::Void(_, _) => Err(broken(Cause::WrongType, at)),
    }
}

// ---- of a type (C 6.7.7)

/// The length of a dimension, and the greatest `u32` where it is more.
fn length_of(length: Option<i128>) -> Option<u32>
    ensures { result ≡ option_map (λ l. capped (unsigned_abs l)) length }
{
    match length {
        Some(length) => Some(length.unsigned_abs().min(4_294_967_295) as u32),
        None => None,
    }
}

/// The innermost elements of an array of these lengths.
fn elements_of(lengths: &[Option<i128>]) -> Option<u32>
    ensures { result ≡ option_map capped (elements_of lengths.now) }
{
    let mut elements = 1;
    let mut left = lengths;
    'lengths: while let [length, inner @ ..] = left {
        let Some(length) = length_of(*length) else {
            return None;
        };
        elements = times(elements, length);
        left = inner;
    }
    Some(elements)
}

fn is_below_1(lengths: &[Option<i128>]) -> bool
    ensures { result ≡ list_any is_below_1 lengths.now }
{
    let mut left = lengths;
    'lengths: while let [length, inner @ ..] = left {
        if let Some(length) = *length
            && length < 1
        {
            return true;
        }
        left = inner;
    }
    false
}

fn cells_of_array(elements: Option<u32>, cells: Option<u32>) -> Option<u32>
    ensures { result ≡ option_map capped (cells_of_array elements cells) }
{
    match (elements, cells) {
        (Some(elements), Some(cells)) => Some(times(elements, cells)),
        _ => None,
    }
}

/// `sizeof` an array of these lengths, of elements of so many cells.
fn size_of_elements<'t>(
    at: Place,
    lengths: &[Option<i128>],
    cells: Option<u32>,
    kind: Option<Kind>,
) -> Result<Operand<'t>, Fault>
    ensures { GivesOperand (size_of_cells at (cells_of_array (elements_of lengths.now) cells) kind) result }
{
    let elements = elements_of(lengths);
    let all = cells_of_array(elements, cells);
    size_of_cells(at, all, kind)
}

fn type_size<'t>(
    structs: &[Structure],
    at: Place,
    named: &NamedType,
    lengths: &[Option<i128>],
) -> Result<Operand<'t>, Fault>
    ensures { GivesOperand (type_size (structures_view structs.now) at (as_pointer (named_view named.now)) lengths.now) result }
{
    match named {
        NamedType::NoValue => {
            if lengths.is_empty() {
                Err(broken(Cause::IncompleteType, at))
            } else {
                Err(broken(Cause::WrongType, at))
            }
        }
        NamedType::Type(ty) => {
            size_of_elements(at, lengths, cells_of(structs, ty), kind_within(ty))
        }
        NamedType::PointerElsewhere => size_of_elements(at, lengths, Some(1), None),
    }
}

/// `sizeof` a type.
pub fn size_of_type<'t>(
    structs: &[Structure],
    at: Place,
    written: &WrittenType,
) -> Result<Operand<'t>, Fault>
    ensures { GivesOperand (size_of_type (structures_view structs.now) at (written_view written.now)) result }
{
    let lengths = written.lengths.as_slice();
    if is_below_1(lengths) {
        return Err(broken(Cause::WrongType, at));
    }
    type_size(structs, at, &written.ty.named, lengths)
}
