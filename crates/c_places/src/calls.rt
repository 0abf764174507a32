//! What a call does to the locals and to the store.

ghost use Rattle.std.specs.Prelude.{◌≡◌, ◌++◌, slice_get, Some, if◌then◌else◌, IfOk, OnOk};
ghost use Rattle.c_meaning.specs.Stores.{objects_of};
ghost use Rattle.c_meaning.specs.Runs.{unless_object, parameter_cells, is_owner, locals_at_entry, opened, with_argument, with_arguments};
ghost use Rattle.c_places.specs.Kept.{owned_cells, put_back};

use crate::Layouts;
use crate::extents::stored_cells;
use crate::objects::put_object;
use crate::ranges::{cells_in, clear_ranges, first_of, fit, overwrite_ranges, rest_of};
use rvt_num::Value;
use rvt_tree::{Function, Local, Object};
use sqlite_items::Items;
use std::alloc::{AllocError, Global};

/// The cells of a parameter: its argument, and none where it is an object.
fn parameter(alloc: Global, local: &Local, argument: &[Value]) -> Result<Items<Value>, AllocError>
    ensures { IfOk result (λ cells. cells ≡ unless_object local.now.object argument.now) }
{
    match local.object {
        Some(_) => Ok(Items::new(alloc)),
        None => Items::from_slice(alloc, argument),
    }
}

#[tactic(auto, using(crate::proofs::Entering::frame_is))]
/// The locals at the entry of a function, which has this number: the parameters with the arguments, and the others.
pub fn entry_locals(
    alloc: Global,
    layouts: &Layouts,
    number: u32,
    function: &Function,
    arguments: &[Value],
) -> Result<Vec<Items<Value>>, AllocError>
    requires { slice_get layouts.now.functions number ≡ Some function.now }
    ensures { IfOk result (λ locals. locals.items ≡ locals_at_entry layouts.now function.now arguments.now) }
{
    let params = function.params.as_slice();
    let others = layouts.frame(number);
    let mut locals = Vec::new(alloc);
    push_parameters(alloc, params, arguments, &mut locals)?;
    push_others(alloc, others, &mut locals)?;
    Ok(locals)
}

/// A copy of the cells of the objects that a function owns.
pub fn owned_copy(
    alloc: Global,
    layouts: &Layouts,
    store: &[Value],
    number: u32,
) -> Result<Vec<Value>, AllocError>
    ensures { IfOk result (λ cells. cells.items ≡ owned_cells number (objects_of layouts.now) store.now) }
{
    let owned = layouts.owned(number);
    let cells = cells_in(alloc, store, owned)?;
    Ok(cells)
}

/// Sets the objects that a function owns to zero, and gives those that are parameters their arguments.
pub fn open_store(
    layouts: &Layouts,
    store: &mut Vec<Value>,
    number: u32,
    function: &Function,
    arguments: &[Value],
) -> Result<(), AllocError>
    ensures { OnOk result (store.new.items ≡ with_arguments layouts.now function.now.params arguments.now (opened layouts.now number store.old.items)) }
{
    open_owned(layouts, store.as_mut_slice(), number);
    put_arguments(layouts, store, function.params.as_slice(), arguments)?;
    Ok(())
}

/// Sets the objects that a function owns to zero.
fn open_owned(layouts: &Layouts, store: &mut [Value], number: u32)
    ensures { store.new ≡ opened layouts.now number store.old }
{
    let owned = layouts.owned(number);
    clear_ranges(store, owned);
}

fn push_parameters(
    alloc: Global,
    params: &[Local],
    arguments: &[Value],
    locals: &mut Vec<Items<Value>>,
) -> Result<(), AllocError>
    ensures { OnOk result (locals.new.items ≡ locals.old.items ++ parameter_cells params.now arguments.now) }
{
    let mut left = arguments;
    for local in params {
        let cells = parameter(alloc, local, first_of(left, 1))?;
        locals.push(cells)?;
        left = rest_of(left, 1);
    }
    Ok(())
}

fn push_others(
    alloc: Global,
    others: &[Items<Value>],
    locals: &mut Vec<Items<Value>>,
) -> Result<(), AllocError>
    ensures { OnOk result (locals.new.items ≡ locals.old.items ++ others.now) }
{
    for cells in others {
        let cells = Items::from_slice(alloc, cells.as_slice())?;
        locals.push(cells)?;
    }
    Ok(())
}

/// A parameter that is an object holds its argument.
fn put_argument(
    layouts: &Layouts,
    store: &mut Vec<Value>,
    object: Option<u32>,
    argument: Value,
) -> Result<(), AllocError>
    ensures { OnOk result (store.new.items ≡ with_argument layouts.now object argument store.old.items) }
{
    match object {
        Some(number) => {
            let cells = [argument];
            put_object(layouts, store, number, &cells)?;
            Ok(())
        }
        None => Ok(()),
    }
}

/// The parameters that are objects hold their arguments.
fn put_arguments(
    layouts: &Layouts,
    store: &mut Vec<Value>,
    params: &[Local],
    arguments: &[Value],
) -> Result<(), AllocError>
    ensures { OnOk result (store.new.items ≡ with_arguments layouts.now params.now arguments.now store.old.items) }
{
    let mut left = arguments;
    for local in params {
        if left.is_empty() {
            return Ok(());
        }
        put_argument(layouts, store, local.object, left[0])?;
        left = rest_of(left, 1);
    }
    Ok(())
}

/// Puts back the cells of the objects that a function owns.
pub fn put_owned(
    alloc: Global,
    layouts: &Layouts,
    number: u32,
    store: &mut Vec<Value>,
    cells: &[Value],
) -> Result<(), AllocError>
    ensures { OnOk result (store.new.items ≡ put_back number (objects_of layouts.now) cells.now store.old.items) }
{
    let owned = layouts.owned(number);
    if fit(owned, cells.len(), store.len()) {
        overwrite_ranges(store, owned, cells)?;
        return Ok(());
    }
    let objects = layouts.program().table.objects.as_slice();
    let new = rebuilt(alloc, objects, number, cells, store.as_slice())?;
    *store = new;
    Ok(())
}

fn is_owned(object: &Object, number: u32) -> bool
    ensures { result ≡ is_owner number object.now.owner }
{
    match object.owner {
        Some(owner) => number == owner,
        None => false,
    }
}

fn chosen<'s>(first: bool, a: &'s [Value], b: &'s [Value]) -> &'s [Value]
    ensures { result.now ≡ (if first then a.now else b.now) }
{
    if first { a } else { b }
}

/// The store with these cells in the objects that a function owns, however long it is.
fn rebuilt(
    alloc: Global,
    objects: &[Object],
    number: u32,
    cells: &[Value],
    store: &[Value],
) -> Result<Vec<Value>, AllocError>
    ensures { IfOk result (λ out. out.items ≡ put_back number objects.now cells.now store.now) }
{
    let mut out = Vec::new(alloc);
    let mut left = cells;
    let mut rest = store;
    for object in objects {
        let length = stored_cells(object);
        let owned = is_owned(object, number);
        let cells = chosen(owned, first_of(left, length), first_of(rest, length));
        out.extend_from_slice(cells)?;
        left = chosen(owned, rest_of(left, length), left);
        rest = rest_of(rest, length);
    }
    out.extend_from_slice(rest)?;
    Ok(out)
}
