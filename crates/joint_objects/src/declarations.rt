//! The declarations in a function, each with how many of its name stand before it.

ghost use Rattle.std.specs.Prelude.{◌≡◌, ◌++◌, ◌∷◌, [], OnOk, IfOk, unwrap_or};
ghost use Rattle.std.specs.Option.{option_copied};
ghost use Rattle.std.specs.List.{position_from};
ghost use Rattle.std.specs.Str.{bytes_eq};
ghost use Rattle.indexmap.specs.IndexMap.{get_by};
ghost use Rattle.joint_objects.specs.Indexes.{key_view, keys_view, numbered_as};
ghost use Rattle.joint_objects.specs.Locals as spec;
ghost use Rattle.joint_objects.specs.Counts.{declared_views, locals_declared, AreCounts, declaration_keys, declaration_key};

use crate::globals::next;
use crate::keys::{Key, number_of, numbers};
use indexmap::IndexMap;
use rvt_tree::{Function, Local};
use std::alloc::{AllocError, Global};

/// A declaration in a function.
#[derive(Clone, Copy)]
pub struct Declared<'a> {
    pub local: &'a Local,
    /// How many declarations of its name stand before it.
    pub before: u32,
}

/// The declarations in a function, if there is one: its parameters and then its locals.
pub fn declarations<'a>(
    alloc: Global,
    function: Option<&'a Function>,
) -> Result<Vec<Declared<'a>>, AllocError>
    ensures { IfOk result (λ list. declared_views list.items ≡ spec.declarations_in (option_copied function.entry)) }
{
    let mut list = Vec::new(alloc);
    let function = match function {
        Some(function) => function,
        None => return Ok(list),
    };
    let mut counts = IndexMap::new(alloc);
    declare(&mut counts, &mut list, function.params.as_slice())?;
    declare(&mut counts, &mut list, function.locals.as_slice())?;
    Ok(list)
}

// Adds the declarations that come next.
fn declare<'a>(
    counts: &mut IndexMap<&'a [u8], u32>,
    list: &mut Vec<Declared<'a>>,
    locals: &'a [Local],
) -> Result<(), AllocError>
    requires { AreCounts counts.old list.old.items }
    ensures counts { OnOk result (AreCounts counts.new list.new.items) }
    ensures added { OnOk result (declared_views list.new.items ≡ declared_views list.old.items ++ spec.declared_after (locals_declared list.old.items) locals.now) }
{
    let mut left = locals;
    'locals: while let Some((local, rest)) = left.split_first() {
        declare_one(counts, list, local)?;
        left = rest;
    }
    Ok(())
}

fn declare_one<'a>(
    counts: &mut IndexMap<&'a [u8], u32>,
    list: &mut Vec<Declared<'a>>,
    local: &'a Local,
) -> Result<(), AllocError>
    requires { AreCounts counts.old list.old.items }
    ensures counts { OnOk result (AreCounts counts.new list.new.items) }
    ensures added { OnOk result (list.new.items ≡ list.old.items ++ record { local = local.entry; before = spec.count_of local.now.name (locals_declared list.old.items) } ∷ []) }
{
    let before = count_in(counts, local.name.bytes());
    let count = next(before)?;
    counts.insert(local.name.bytes(), count)?;
    list.push(Declared { local, before })?;
    Ok(())
}

fn count_in(counts: &IndexMap<&[u8], u32>, name: &[u8]) -> u32
    ensures { result ≡ unwrap_or (get_by (λ key. bytes_eq name.now key.now) counts.now) 0 }
{
    match counts.get(name) {
        Some(count) => *count,
        None => 0,
    }
}

fn declaration_keys_of<'a>(
    alloc: Global,
    list: &[Declared<'a>],
) -> Result<Vec<Option<Key<'a>>>, AllocError>
    ensures { IfOk result (λ keys. keys_view keys.items ≡ declaration_keys (declared_views list.now)) }
{
    let mut keys = Vec::new(alloc);
    for number in 0..list.len() {
        keys.push(Some(key_of(list[number])))?;
    }
    Ok(keys)
}

/// The name of a declaration, and how many of its name stand before it.
pub fn key_of(declared: Declared<'_>) -> Key<'_>
    ensures { key_view result ≡ (declared.entry.local.now.name, declared.entry.before) }
{
    Key {
        name: declared.local.name.bytes(),
        which: declared.before,
    }
}

/// The numbers of the declarations by name and number.
pub fn declaration_numbers<'a>(
    alloc: Global,
    list: &[Declared<'a>],
) -> Result<IndexMap<Key<'a>, u32>, AllocError>
    ensures { IfOk result (λ table. (d : spec.Declaration) → numbered_as (declaration_key d) table ≡ position_from (spec.is_same_declaration d) 0 (declared_views list.now)) }
{
    let keys = declaration_keys_of(alloc, list)?;
    numbers(alloc, keys.as_slice())
}
