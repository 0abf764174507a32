//! The functions of a program.

ghost use Rattle.std.specs.Prelude.{◌≡◌, ◌++◌, None, Some, drop, length, map, option_map, take, IfOk, OnOk};
ghost use Rattle.c_types.specs.Layout.{shape_of};
ghost use Rattle.file_state.specs.Views.{body_view, function_entry_view, interface_view, struct_entry_view};
ghost use Rattle.file_typing.specs.Elaboration.{function_of, functions_of, locals_from, objects_of_body, objects_of_functions, params_of, result_of};
ghost use Rattle.file_typing.specs.Programs.{function_view, object_view};
ghost use Rattle.file_typing.specs.Programs as p;
ghost use Rattle.local_objects.specs.ObjectTables.{object_at};
ghost use Rattle.typing_base.specs.NoteViews.{local_view};

use crate::object_tables::object_table;
use crate::objects::objects_of_body;
use file_state::{FunctionBody, FunctionEntry, Interface};
use local_objects::resolve;
use rvt_tree::{CType, Function, Local, Name, Object};
use sqlite_items::Items;
use std::alloc::{AllocError, Global};
use typing_base::Structure;

fn params_of(alloc: Global, interface: Option<Interface>) -> Vec<typing_base::Local>
    ensures { map local_view result.items ≡ params_of (option_map interface_view interface) }
{
    match interface {
        Some(interface) => interface.params,
        None => Vec::new(alloc),
    }
}

fn result_of(interface: &Option<Interface>) -> Option<CType>
    ensures { option_map shape_of result ≡ result_of (option_map interface_view interface.now) }
{
    match interface {
        Some(interface) => match interface.result {
            Some(kind) => Some(CType::Word(kind)),
            None => None,
        },
        None => None,
    }
}

// The object that a local is; a local beyond the end is none.
fn object_at(objects: &[Option<u32>], number: usize) -> Option<u32>
    ensures { result ≡ object_at objects.now number }
{
    if number < objects.len() {
        objects[number]
    } else {
        None
    }
}

fn with_object(local: typing_base::Local, object: Option<u32>) -> Local
    ensures { p.local_view result ≡ record { name = local.name; shape = shape_of local.ty; constant = local.constant; object = object } }
{
    let typing_base::Local {
        name,
        ty,
        constant,
        ..
    } = local;
    Local {
        name,
        ty,
        constant,
        object,
    }
}

/// The locals, each with the object that it is.

fn locals_from(
    alloc: Global,
    objects: &[Option<u32>],
    locals: Vec<typing_base::Local>,
) -> Result<Vec<Local>, AllocError>
    ensures { IfOk result (λ made. map p.local_view made.items ≡ locals_from (object_at objects.now) 0 (map local_view locals.items)) }
{
    let mut made = Vec::new(alloc);
    'locals: for local in locals {
        let object = object_at(objects, made.len());
        made.push(with_object(local, object))?;
    }
    Ok(made)
}

// Leaves so many, and gives those after them.
fn split(alloc: Global, locals: &mut Vec<Local>, count: usize) -> Result<Vec<Local>, AllocError>
    ensures front { OnOk result (locals.new.items ≡ take count locals.old.items) }
    ensures back { IfOk result (λ rest. rest.items ≡ drop count locals.old.items) }
{
    if count >= locals.len() {
        return Ok(Vec::new(alloc));
    }
    locals.split_off(count)
}

fn prototype(
    alloc: Global,
    name: Name,
    interface: Option<Interface>,
) -> Result<Function, AllocError>
    ensures { IfOk result (λ function. function_view function ≡ function_of 0 (record { name = name; interface = option_map interface_view interface; body = None }) None) }
{
    let returned = result_of(&interface);
    let params = locals_from(alloc, &[], params_of(alloc, interface))?;
    Ok(Function {
        name,
        params: Items::from_vec(params),
        result: returned,
        locals: Items::new(alloc),
        body: None,
    })
}

fn definition(
    alloc: Global,
    first: u32,
    name: Name,
    interface: Option<Interface>,
    body: FunctionBody,
) -> Result<Function, AllocError>
    ensures { IfOk result (λ function. function_view function ≡ function_of first (record { name = name; interface = option_map interface_view interface; body = None }) (Some (body_view body))) }
{
    let returned = result_of(&interface);
    let count = params_of(alloc, interface).len();
    let objects = object_table(alloc, first, &body)?;
    let objects = objects.as_slice();
    let FunctionBody {
        mut statement,
        locals,
        ..
    } = body;
    resolve(&mut statement, objects);
    let mut params = locals_from(alloc, objects, locals)?;
    let locals = split(alloc, &mut params, count)?;
    Ok(Function {
        name,
        params: Items::from_vec(params),
        result: returned,
        locals: Items::from_vec(locals),
        body: Some(statement),
    })
}

/// A function whose first object has this number.
fn function_of(alloc: Global, first: u32, entry: FunctionEntry) -> Result<Function, AllocError>
    ensures { IfOk result (λ function. function_view function ≡ function_of first (function_entry_view entry) (function_entry_view entry).body) }
{
    let FunctionEntry {
        name,
        interface,
        body,
    } = entry;
    match body {
        None => {
            let function = prototype(alloc, name, interface)?;
            Ok(function)
        }
        Some(body) => {
            let function = definition(alloc, first, name, interface, body)?;
            Ok(function)
        }
    }
}

// A function of this number, and its objects after those before.
fn with_objects(
    alloc: Global,
    structs: &[Structure],
    number: u32,
    entry: FunctionEntry,
    objects: &mut Vec<Object>,
) -> Result<Function, AllocError>
    ensures function { IfOk result (λ function. function_view function ≡ function_of (length objects.old.items) (function_entry_view entry) (function_entry_view entry).body) }
    ensures objects { OnOk result (map object_view objects.new.items ≡ map object_view objects.old.items
        ++ objects_of_body (map struct_entry_view structs.now) number (function_entry_view entry).body) }
{
    let first = objects.len();
    if first > 4_294_967_295 {
        return Err(AllocError);
    }
    objects_of_body(alloc, structs, number, &entry.body, objects)?;
    let function = function_of(alloc, first as u32, entry)?;
    Ok(function)
}

/// The functions by their numbers; the locals that are objects come after the objects before.

pub fn functions_of(
    alloc: Global,
    structs: &[Structure],
    functions: Vec<FunctionEntry>,
    objects: &mut Vec<Object>,
) -> Result<Items<Function>, AllocError>
    ensures functions { IfOk result (λ made. map function_view made ≡ functions_of (map struct_entry_view structs.now) (length objects.old.items) (map function_entry_view functions.items)) }
    ensures objects { OnOk result (map object_view objects.new.items ≡ map object_view objects.old.items
        ++ objects_of_functions (map struct_entry_view structs.now) 0 (map function_entry_view functions.items)) }
{
    let mut made = Vec::new(alloc);
    let mut number = 0u32;
    'functions: for entry in functions {
        if number == 4_294_967_295 {
            return Err(AllocError);
        }
        let function = with_objects(alloc, structs, number, entry, objects)?;
        made.push(function)?;
        number += 1;
    }
    Ok(Items::from_vec(made))
}
