//! How many cells types have (C 6.2.5).

ghost use Rattle.std.specs.Prelude.{◌≡◌, ◌*◌, min, slice_get, option_map, option_and_then};
ghost use Rattle.std.specs.Option.{option_copied};
ghost use Rattle.c_types.specs.Layout.{shape_of};
ghost use Rattle.expression_typing.specs.Entities.{cells_of};
ghost use Rattle.expression_typing.specs.Outcomes as o;
ghost use Rattle.expression_typing.specs.Operands.{pointee_cells};
ghost use Rattle.typing_base.specs.Follows.{Gives};
ghost use Rattle.typing_base.specs.Views.{structures_view, type_view};

use crate::faults::{Fault, wrong_type};
use crate::operands::PlaceType;
use crate::structures::Structure;
use rvt_tree::{CType, Place, Pointee};

/// The cells of a type, and the greatest `u32` where there are more.
#[tactic(auto, using(crate::proofs::Products::cells_of_whole, crate::proofs::Products::cells_of_item))]
pub fn cells_of(structs: &[Structure], ty: &CType) -> Option<u32>
    ensures { result ≡ option_map (min 4294967295) (cells_of (structures_view structs.now) (shape_of ty.now)) }
{
    let mut factor = 1u32;
    let mut rest = ty;
    'items: loop {
        match rest {
            CType::Word(_) => return Some(times(factor, 1)),
            CType::Pointer(_, _) => return Some(times(factor, 1)),
            CType::Array(item, count) => {
                factor = times(factor, *count);
                rest = item;
            }
            CType::Struct(number) => match cells_of_struct(structs, *number) {
                Some(cells) => return Some(times(factor, cells)),
                None => return None,
            },
        }
    }
}

/// The cells of a place's type, and the greatest `u32` where there are more.
pub fn cells_of_place(structs: &[Structure], ty: PlaceType) -> Option<u32>
    ensures { result ≡ option_map (min 4294967295) (cells_of (structures_view structs.now) (type_view ty.entry)) }
{
    match ty {
        PlaceType::Array(item, count) => cells_of_items(structs, item, count),
        PlaceType::Struct(number) => cells_of_struct(structs, number),
        _ => Some(1),
    }
}

fn cells_of_items(structs: &[Structure], item: &CType, count: u32) -> Option<u32>
    ensures { result ≡ option_map (min 4294967295) (option_map (λ cells. count * cells) (cells_of (structures_view structs.now) (shape_of item.now))) }
{
    match cells_of(structs, item) {
        Some(cells) => Some(times(count, cells)),
        None => None,
    }
}

/// The cells of a type that must be complete.
pub fn complete_cells(structs: &[Structure], at: Place, ty: &CType) -> Result<u32, Fault>
    ensures { Gives (λ cells. cells) (o.wanted o.wrong_type at (cells_of (structures_view structs.now) (shape_of ty.now))) result }
{
    match cells_of(structs, ty) {
        Some(4_294_967_295) => Err(Fault::Memory),
        Some(cells) => Ok(cells),
        None => Err(wrong_type(at)),
    }
}

/// The cells of what a pointer points to, which must be complete.
pub fn pointee_cells(structs: &[Structure], at: Place, pointee: Pointee) -> Result<u32, Fault>
    ensures { Gives (λ cells. cells) (pointee_cells (structures_view structs.now) at pointee) result }
{
    match pointee {
        Pointee::Word(_) => Ok(1),
        Pointee::Struct(number) => match cells_of_struct(structs, number) {
            Some(cells) => Ok(cells),
            None => Err(wrong_type(at)),
        },
    }
}

fn cells_of_struct(structs: &[Structure], number: u32) -> Option<u32>
    ensures { result ≡ option_and_then (λ structure. structure.cells) (slice_get (structures_view structs.now) number) }
{
    match at(structs, number as usize) {
        Some(structure) => structure.cells,
        None => None,
    }
}

fn at(structs: &[Structure], number: usize) -> Option<&Structure>
    ensures { option_copied result ≡ slice_get structs.now number }
{
    structs.get(number)
}

// A product, and the greatest `u32` where it is more.
fn times(x: u32, y: u32) -> u32
    ensures { result ≡ min 4294967295 (x * y) }
{
    (x as u64 * y as u64).min(4_294_967_295) as u32
}
