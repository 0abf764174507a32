//! Numbers of things by their names.

ghost use Rattle.std.specs.Prelude.{◌≡◌, ◌<◌, ℕ, List, length, slice_get, option_map, if◌then◌else◌, IfOk, OnOk};
ghost use Rattle.joint_objects.specs.Indexes.{AreNumbers, is_key, key_view, keys_view, numbered_as};

use indexmap::IndexMap;
use std::alloc::{AllocError, Global};

/// A name, and which of the things of that name is meant.
#[derive(Clone, Copy, Debug, PartialEq, Eq, Hash)]
pub struct Key<'a> {
    pub name: &'a [u8],
    pub which: u32,
}

/// The number of the first thing under each key; things without a key stand under none.
pub fn numbers<'a>(
    alloc: Global,
    keys: &[Option<Key<'a>>],
) -> Result<IndexMap<Key<'a>, u32>, AllocError>
    ensures { IfOk result (λ table. AreNumbers table (keys_view keys.now)) }
{
    // There is no memory for more.
    if keys.len() > u32::MAX as usize {
        return Err(AllocError);
    }
    let mut table = IndexMap::new(alloc);
    let mut left = keys.len();
    'keys: while left > 0 {
        left -= 1;
        put(&mut table, key_at(keys, left), left as u32)?;
    }
    Ok(table)
}

fn key_at<'a>(keys: &[Option<Key<'a>>], number: usize) -> Option<Key<'a>>
    requires { number < length keys.now }
    ensures { slice_get keys.now number ≡ Some result }
{
    keys[number]
}

// Puts a number under a key, if there is one.
fn put<'a>(
    table: &mut IndexMap<Key<'a>, u32>,
    key: Option<Key<'a>>,
    number: u32,
) -> Result<(), AllocError>
    ensures { OnOk result ((wanted : List ℕ × ℕ) → numbered_as wanted table.new ≡ (if is_key wanted (option_map key_view key.entry) then Some number else numbered_as wanted table.old)) }
{
    let key = match key {
        Some(key) => key,
        None => return Ok(()),
    };
    table.insert(key, number)?;
    Ok(())
}

/// The number that stands under a key.
pub fn number_of(table: &IndexMap<Key<'_>, u32>, key: Key<'_>) -> Option<u32>
    ensures { result ≡ numbered_as (key_view key.entry) table.now }
{
    table.get(&key).copied()
}
