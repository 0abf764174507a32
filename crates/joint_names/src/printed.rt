//! The names under which objects are printed.

ghost use Rattle.std.specs.Prelude.{◌≡◌, ◌++◌, ◌+◌, codes, Some, IfOk, OnOk};
ghost use Rattle.std.specs.Fmt.{decimal};
ghost use Rattle.std.specs.Option.{option_copied};
ghost use Rattle.joint_names.specs.PrintedNames as spec;

use joint_objects::{Element, JointObject, Origin};
use rvt_num::Kind;
use rvt_tree::{Function, Name, Object, Program, StructDef};
use sqlite_items::at;
use std::alloc::{AllocError, Global};
use version_map::{Added, Map};

/// The name of an object of the joint table. What stands in both files has the old file's names.
pub fn printed_name(
    alloc: Global,
    old: &Program,
    new: &Program,
    map: &Map,
    object: JointObject,
) -> Result<Name, AllocError>
    ensures { IfOk result (λ name. name ≡ spec.printed_name old.now new.now map.now.objects.items object) }
{
    let mut text = Vec::new(alloc);
    add_name(alloc, old, new, map, object, &mut text)?;
    let name = Name::new(alloc, text.as_slice())?;
    Ok(name)
}

fn add_name(
    alloc: Global,
    old: &Program,
    new: &Program,
    map: &Map,
    object: JointObject,
    text: &mut Vec<u8>,
) -> Result<(), AllocError>
    ensures { OnOk result (text.new.items ≡ text.old.items ++ spec.printed_name old.now new.now map.now.objects.items object) }
{
    match object {
        JointObject::Global(origin) => add_global(origin, old, new, text),
        JointObject::Local(origin, declaration) => {
            add_local(alloc, origin, declaration, old, new, text)
        }
        JointObject::Extra(element, number) => add_extra(alloc, element, number, old, new, text),
        JointObject::Mapped(number) => {
            add_array_of_map(at(map.objects.as_slice(), number as usize), text)
        }
    }
}

fn file_shown<'a>(old: &'a Program, new: &'a Program, origin: Origin) -> &'a Program
    ensures { result.now ≡ spec.file_shown old.now new.now origin }
{
    match origin {
        Origin::Both(_, _) | Origin::Old(_) => old,
        Origin::New(_) => new,
    }
}

fn number_shown(origin: Origin) -> usize
    ensures { result ≡ spec.number_shown origin }
{
    match origin {
        Origin::Both(number, _) | Origin::Old(number) | Origin::New(number) => number as usize,
    }
}

fn add_prefix(origin: Origin, text: &mut Vec<u8>) -> Result<(), AllocError>
    ensures { OnOk result (text.new.items ≡ text.old.items ++ spec.file_prefix origin) }
{
    match origin {
        Origin::Both(_, _) => Ok(()),
        Origin::Old(_) => text.extend_from_slice(b"old:"),
        Origin::New(_) => text.extend_from_slice(b"new:"),
    }
}

fn add_global(
    origin: Origin,
    old: &Program,
    new: &Program,
    text: &mut Vec<u8>,
) -> Result<(), AllocError>
    ensures { OnOk result (text.new.items ≡ text.old.items ++ (spec.file_prefix origin ++ spec.global_text (spec.file_shown old.now new.now origin) (spec.number_shown origin))) }
{
    add_prefix(origin, text)?;
    let file = file_shown(old, new, origin);
    add_object_name(
        at(file.table.objects.as_slice(), number_shown(origin)),
        text,
    )?;
    Ok(())
}

fn add_object_name(object: Option<&Object>, text: &mut Vec<u8>) -> Result<(), AllocError>
    ensures { OnOk result (text.new.items ≡ text.old.items ++ spec.object_name (option_copied object.entry)) }
{
    match object {
        Some(object) => text.extend_from_slice(object.name.bytes()),
        None => Ok(()),
    }
}

fn add_local(
    alloc: Global,
    origin: Origin,
    declaration: u32,
    old: &Program,
    new: &Program,
    text: &mut Vec<u8>,
) -> Result<(), AllocError>
    ensures { OnOk result (text.new.items ≡ text.old.items ++ (spec.file_prefix origin ++ spec.local_text (spec.file_shown old.now new.now origin) (spec.number_shown origin) declaration)) }
{
    add_prefix(origin, text)?;
    let file = file_shown(old, new, origin);
    let object = at(file.table.objects.as_slice(), number_shown(origin));
    add_owner(file.functions.as_slice(), owner_of(object), text)?;
    text.extend_from_slice(b".")?;
    add_object_name(object, text)?;
    add_declaration(alloc, declaration, text)?;
    Ok(())
}

fn owner_of(object: Option<&Object>) -> Option<u32>
    ensures { result ≡ spec.owner_of (option_copied object.entry) }
{
    match object {
        Some(object) => object.owner,
        None => None,
    }
}

fn add_owner(
    functions: &[Function],
    owner: Option<u32>,
    text: &mut Vec<u8>,
) -> Result<(), AllocError>
    ensures { OnOk result (text.new.items ≡ text.old.items ++ spec.owner_text functions.now owner) }
{
    match owner {
        Some(owner) => add_function(at(functions, owner as usize), text),
        None => Ok(()),
    }
}

fn add_function(function: Option<&Function>, text: &mut Vec<u8>) -> Result<(), AllocError>
    ensures { OnOk result (text.new.items ≡ text.old.items ++ spec.function_at (option_copied function.entry)) }
{
    match function {
        Some(function) => add_function_name(&function.name, text),
        None => Ok(()),
    }
}

fn add_function_name(name: &Name, text: &mut Vec<u8>) -> Result<(), AllocError>
    ensures { OnOk result (text.new.items ≡ text.old.items ++ spec.function_text name.now) }
{
    text.extend_from_slice(name.bytes())?;
    text.extend_from_slice(brackets(name))?;
    Ok(())
}

fn brackets(name: &Name) -> &'static [u8]
    ensures { result.now ≡ spec.brackets name.now }
{
    if name.is(b"extra") || name.is(b"map") {
        b"()"
    } else {
        b""
    }
}

fn add_declaration(alloc: Global, declaration: u32, text: &mut Vec<u8>) -> Result<(), AllocError>
    ensures { OnOk result (text.new.items ≡ text.old.items ++ spec.declaration_text declaration) }
{
    if declaration == 0 {
        return Ok(());
    }
    add_count(alloc, declaration, text)?;
    Ok(())
}

/// A point, and one more than a number.
fn add_count(alloc: Global, number: u32, text: &mut Vec<u8>) -> Result<(), AllocError>
    ensures { OnOk result (text.new.items ≡ text.old.items ++ (codes "." ++ decimal (number + 1))) }
{
    let count = number as u64 + 1;
    let digits = format!(in alloc; ".{count}")?;
    text.extend_from_slice(digits.as_bytes())?;
    Ok(())
}

fn kind_word(kind: Kind) -> &'static [u8]
    ensures { result.now ≡ spec.kind_word kind }
{
    match kind {
        Kind::Bool => b"bool",
        Kind::I8 => b"i8",
        Kind::U8 => b"u8",
        Kind::I16 => b"i16",
        Kind::U16 => b"u16",
        Kind::I32 => b"i32",
        Kind::U32 => b"u32",
        Kind::I64 => b"i64",
        Kind::U64 => b"u64",
    }
}

fn add_extra(
    alloc: Global,
    element: Element,
    number: u32,
    old: &Program,
    new: &Program,
    text: &mut Vec<u8>,
) -> Result<(), AllocError>
    ensures { OnOk result (text.new.items ≡ text.old.items ++ (spec.element_prefix element ++ spec.extra_text (spec.element_text old.now new.now element) number)) }
{
    add_element_prefix(element, text)?;
    text.extend_from_slice(b"extra.")?;
    add_element(element, old, new, text)?;
    add_count(alloc, number, text)?;
    Ok(())
}

fn add_element_prefix(element: Element, text: &mut Vec<u8>) -> Result<(), AllocError>
    ensures { OnOk result (text.new.items ≡ text.old.items ++ spec.element_prefix element) }
{
    match element {
        Element::Word(_) => Ok(()),
        Element::Struct(origin) => add_prefix(origin, text),
    }
}

fn add_element(
    element: Element,
    old: &Program,
    new: &Program,
    text: &mut Vec<u8>,
) -> Result<(), AllocError>
    ensures { OnOk result (text.new.items ≡ text.old.items ++ spec.element_text old.now new.now element) }
{
    match element {
        Element::Word(kind) => text.extend_from_slice(kind_word(kind)),
        Element::Struct(origin) => {
            let file = file_shown(old, new, origin);
            add_struct(at(file.structs.list.as_slice(), number_shown(origin)), text)
        }
    }
}

fn add_struct(definition: Option<&StructDef>, text: &mut Vec<u8>) -> Result<(), AllocError>
    ensures { OnOk result (text.new.items ≡ text.old.items ++ spec.struct_text (option_copied definition.entry)) }
{
    match definition {
        Some(definition) => add_tag(definition, text),
        None => Ok(()),
    }
}

fn add_tag(definition: &StructDef, text: &mut Vec<u8>) -> Result<(), AllocError>
    ensures { OnOk result (text.new.items ≡ text.old.items ++ spec.struct_text (Some definition.now)) }
{
    text.extend_from_slice(struct_sort(definition.tagged))?;
    text.extend_from_slice(definition.tag.bytes())?;
    Ok(())
}

fn struct_sort(tagged: bool) -> &'static [u8]
    ensures { result.now ≡ spec.struct_sort tagged }
{
    if tagged { b"struct." } else { b"typedef." }
}

fn add_array_of_map(added: Option<&Added>, text: &mut Vec<u8>) -> Result<(), AllocError>
    ensures { OnOk result (text.new.items ≡ text.old.items ++ (codes "map." ++ spec.added_name (option_copied added.entry))) }
{
    text.extend_from_slice(b"map.")?;
    add_added_name(added, text)?;
    Ok(())
}

fn add_added_name(added: Option<&Added>, text: &mut Vec<u8>) -> Result<(), AllocError>
    ensures { OnOk result (text.new.items ≡ text.old.items ++ spec.added_name (option_copied added.entry)) }
{
    match added {
        Some(added) => text.extend_from_slice(added.name.bytes()),
        None => Ok(()),
    }
}
