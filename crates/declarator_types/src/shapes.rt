//! What each sort of declaration may have, of an array of these lengths and of an element type.

ghost use Rattle.std.specs.Prelude.{◌≡◌, is_none};
ghost use Rattle.c_types.specs.Layout.{shape_of};
ghost use Rattle.expression_typing.specs.Entities.{cells_of};
ghost use Rattle.file_typing.specs.DeclaratorTypes.{arrays, has_pointer, is_array_of_pointers, is_no_parameter, is_elsewhere, is_of_no_size, has_open_length, has_too_many_cells, has_incomplete_elements};
ghost use Rattle.typing_base.specs.Views.{structures_view};
ghost use Rattle.declarator_types.specs.Views.{sort_view};

use crate::lengths::{cells_up_to, has_no_length};
use crate::sorts::Sort;
use place_rules::pointee_of;
use rvt_tree::CType;
use typing_base::{Structure, cells_of};

fn has_pointer(ty: &CType) -> bool
    ensures { result ≡ has_pointer (shape_of ty.now) }
{
    let mut rest = ty;
    while let CType::Array(element, _) = rest {
        rest = element;
    }
    match rest {
        CType::Pointer(_, _) => true,
        _ => false,
    }
}

#[tactic(auto, using(crate::proofs::Arrays::pointers_in_arrays))]
fn is_array_of_pointers(lengths: &[Option<i128>], item: &CType) -> bool
    ensures { result ≡ is_array_of_pointers (arrays lengths.now (shape_of item.now)) }
{
    match lengths {
        [] => match item {
            CType::Array(element, _) => has_pointer(element),
            _ => false,
        },
        _ => has_pointer(item),
    }
}

#[tactic(auto, using(crate::proofs::Arrays::no_parameter_of_one, crate::proofs::Arrays::no_parameter_of_more))]
fn is_no_parameter(lengths: &[Option<i128>], item: &CType) -> bool
    ensures { result ≡ is_no_parameter (arrays lengths.now (shape_of item.now)) }
{
    match lengths {
        [] => match item {
            CType::Word(_) | CType::Pointer(_, _) => false,
            CType::Array(element, _) => pointee_of(element).is_none(),
            CType::Struct(_) => true,
        },
        [_] => pointee_of(item).is_none(),
        _ => true,
    }
}

/// A type of C that has no place in the profile.
#[tactic(auto, using(crate::proofs::Arrays::has_pointer_arrays))]
pub fn is_elsewhere(sort: Sort, lengths: &[Option<i128>], item: &CType) -> bool
    ensures { result ≡ is_elsewhere (sort_view sort) (arrays lengths.now (shape_of item.now)) }
{
    match sort {
        Sort::Typedef | Sort::Local => is_array_of_pointers(lengths, item),
        Sort::Object | Sort::Field => has_pointer(item),
        Sort::Parameter => is_no_parameter(lengths, item),
    }
}

fn is_incomplete(structs: &[Structure], ty: &CType) -> bool
    ensures { result ≡ is_none (cells_of (structures_view structs.now) (shape_of ty.now)) }
{
    cells_of(structs, ty).is_none()
}

/// The element type of an array has a size (C 6.7.6.2).
#[tactic(auto, using(crate::proofs::Arrays::incomplete_elements))]
fn has_incomplete_elements(structs: &[Structure], lengths: &[Option<i128>], item: &CType) -> bool
    ensures { result ≡ has_incomplete_elements (structures_view structs.now) (arrays lengths.now (shape_of item.now)) }
{
    match lengths {
        [] => match item {
            CType::Array(element, _) => is_incomplete(structs, element),
            _ => false,
        },
        _ => is_incomplete(structs, item),
    }
}

#[tactic(auto, using(crate::proofs::Arrays::incomplete_arrays))]
pub fn is_of_no_size(
    sort: Sort,
    structs: &[Structure],
    lengths: &[Option<i128>],
    item: &CType,
) -> bool
    ensures { result ≡ is_of_no_size (sort_view sort) (structures_view structs.now) (arrays lengths.now (shape_of item.now)) }
{
    match sort {
        Sort::Typedef | Sort::Parameter => has_incomplete_elements(structs, lengths, item),
        Sort::Object | Sort::Field | Sort::Local => is_incomplete(structs, item),
    }
}

/// The first length of a parameter may be left out.
pub fn has_open_length(sort: Sort, lengths: &[Option<i128>]) -> bool
    ensures { result ≡ has_open_length (sort_view sort) lengths.now }
{
    match (sort, lengths) {
        (Sort::Parameter, [_, others @ ..]) => has_no_length(others),
        (Sort::Parameter, []) => false,
        _ => has_no_length(lengths),
    }
}

/// A parameter is a pointer where it is written as an array, so its elements are not counted.
#[tactic(auto, using(crate::proofs::Arrays::cells_above, crate::proofs::Arrays::none_above))]
pub fn has_too_many_cells(
    sort: Sort,
    structs: &[Structure],
    lengths: &[Option<i128>],
    item: &CType,
) -> bool
    ensures { result ≡ has_too_many_cells (sort_view sort) (structures_view structs.now) (arrays lengths.now (shape_of item.now)) }
{
    match sort {
        Sort::Parameter => false,
        _ => match cells_of(structs, item) {
            Some(cells) => cells_up_to(lengths, cells) > 4096,
            None => false,
        },
    }
}
