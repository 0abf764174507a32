//! The type of a declarator: its base, and arrays of that (C 6.7.6).

ghost use Rattle.std.specs.Prelude.{◌≡◌, false, option_map, IfOk};
ghost use Rattle.std.specs.List.{list_any};
ghost use Rattle.c_syntax.specs.Views.{init_view};
ghost use Rattle.c_types.specs.Layout.{shape_of};
ghost use Rattle.file_typing.specs.DeclaratorTypes.{arrays, in_arrays, is_above_most, broken_by, broken_by_shape, declared_type, type_of_declarator};
ghost use Rattle.typing_base.specs.Follows.{Becomes, Gives};
ghost use Rattle.typing_base.specs.Views.{cause_view, named_view, notes_view, qualified_view, scope_view, structures_view};
ghost use Rattle.declarator_types.specs.Views.{sort_view, value_type_view};

use crate::lengths::{count_up_to, counted, has_length_above_most, has_length_below_1, values_in};
use crate::shapes::{has_open_length, has_too_many_cells, is_elsewhere, is_of_no_size};
use crate::sorts::Sort;
use crate::values::{ValueType, value_type};
use expression_elaboration::{lengths, pointed};
use rvt_tree::{CType, Place};
use std::alloc::{AllocError, Global};
use typing_base::{Cause, Fault, NamedType, Notes, QualifiedType, Scope, Structure, broken};

/// The first rule that an array of these lengths breaks.
fn broken_by_shape(
    sort: Sort,
    structs: &[Structure],
    lengths: &[Option<i128>],
    item: &CType,
) -> Option<Cause>
    ensures { option_map cause_view result ≡ broken_by_shape (sort_view sort) (structures_view structs.now) lengths.now (arrays lengths.now (shape_of item.now)) }
{
    if has_length_below_1(lengths) {
        return Some(Cause::WrongType);
    }
    if is_elsewhere(sort, lengths, item) {
        return Some(Cause::NotInProfile);
    }
    if has_open_length(sort, lengths) {
        return Some(Cause::IncompleteType);
    }
    if is_of_no_size(sort, structs, lengths, item) {
        return Some(Cause::IncompleteType);
    }
    if has_length_above_most(lengths) {
        return Some(Cause::TooManyCells);
    }
    if has_too_many_cells(sort, structs, lengths, item) {
        return Some(Cause::TooManyCells);
    }
    None
}

/// The first rule that the type breaks.
fn broken_by(
    sort: Sort,
    structs: &[Structure],
    lengths: &[Option<i128>],
    named: &NamedType,
) -> Option<Cause>
    ensures { option_map cause_view result ≡ broken_by (sort_view sort) (structures_view structs.now) lengths.now (named_view named.now) }
{
    match named {
        NamedType::NoValue => match (sort, lengths) {
            (Sort::Typedef, []) => None,
            _ => Some(Cause::WrongType),
        },
        NamedType::PointerElsewhere => {
            if has_length_below_1(lengths) {
                Some(Cause::WrongType)
            } else {
                Some(Cause::NotInProfile)
            }
        }
        NamedType::Type(item) => broken_by_shape(sort, structs, lengths, item),
    }
}

/// Arrays of these lengths, the outermost first.
fn arrays(alloc: Global, lengths: &[Option<i128>], item: CType) -> Result<CType, AllocError>
    requires { list_any is_above_most lengths.now ≡ false }
    ensures { IfOk result (λ made. shape_of made ≡ arrays lengths.now (shape_of item)) }
{
    let mut made = item;
    let mut left = lengths.len();
    while left > 0 {
        left -= 1;
        made = CType::Array(Box::new(alloc, made)?, count_up_to(lengths[left]));
    }
    Ok(made)
}

fn in_arrays(
    alloc: Global,
    lengths: &[Option<i128>],
    named: NamedType,
) -> Result<NamedType, AllocError>
    requires { list_any is_above_most lengths.now ≡ false }
    ensures { IfOk result (λ made. named_view made ≡ in_arrays lengths.now (named_view named)) }
{
    match named {
        NamedType::Type(item) => {
            let made = arrays(alloc, lengths, item)?;
            Ok(NamedType::Type(made))
        }
        NamedType::NoValue => Ok(NamedType::NoValue),
        NamedType::PointerElsewhere => Ok(NamedType::PointerElsewhere),
    }
}

/// What is declared at a place with this base type and these lengths.
pub fn declared_type(
    alloc: Global,
    sort: Sort,
    structs: &[Structure],
    at: Place,
    base: QualifiedType,
    lengths: &[Option<i128>],
) -> Result<QualifiedType, Fault>
    ensures { Gives qualified_view (declared_type (sort_view sort) (structures_view structs.now) at (qualified_view base) lengths.now) result }
{
    if let Some(cause) = broken_by(sort, structs, lengths, &base.named) {
        return Err(broken(cause, at));
    }
    let QualifiedType { named, constant } = base;
    let named = in_arrays(alloc, lengths, named)?;
    Ok(QualifiedType { named, constant })
}

/// The type of an object or a local: its lengths, and then what its name may have.
pub fn type_of_declarator(
    alloc: Global,
    sort: Sort,
    scope: Scope,
    base: QualifiedType,
    init: &c_syntax::Init,
    notes: &mut Notes,
) -> Result<ValueType, Fault>
    ensures { Becomes value_type_view (type_of_declarator (sort_view sort) (scope_view scope.entry) (qualified_view base) (init_view init.now) (notes_view notes.old)) result notes.new }
{
    let lengths = lengths(alloc, scope, &init.declarator.dims, notes)?;
    let count = values_in(&init.value)?;
    let lengths = counted(count, lengths);
    let at = init.declarator.word.place;
    let base = pointed(init.declarator.pointer, base);
    let ty = declared_type(alloc, sort, scope.structs(), at, base, lengths.as_slice())?;
    value_type(at, ty)
}
