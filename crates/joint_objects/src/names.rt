//! The names of globals in the other file.

ghost use Rattle.std.specs.Prelude.{◌≡◌, ℕ, List, map, option_map, IfOk, is_some};
ghost use Rattle.std.specs.List.{position_from};
ghost use Rattle.std.specs.Borrow.{Bor};
ghost use Rattle.std.specs.Str.{bytes_eq};
ghost use Rattle.version_map.specs.declared.map.Listed.{Listed as Line};
ghost use Rattle.joint_objects.specs.Indexes.{keys_view, numbered_as};
ghost use Rattle.joint_objects.specs.Names as spec;
ghost use Rattle.joint_objects.specs.Globals.{listed_name as said_name, other_name};
ghost use Rattle.joint_objects.specs.Sides.{from_old, from_new};

use crate::keys::{Key, number_of, numbers};
use indexmap::IndexMap;
use sqlite_items::at;
use std::alloc::{AllocError, Global};
use version_map::Listed;

/// Two globals that the map matches, by their names in our file and in theirs.
#[derive(Clone, Copy)]
pub struct NamePair<'a> {
    pub ours: &'a [u8],
    pub theirs: &'a [u8],
}

/// The lines of the map, as the old file sees them.
pub fn pairs_from_old(alloc: Global, lines: &[Listed]) -> Result<Vec<NamePair<'_>>, AllocError>
    ensures { IfOk result (λ pairs. spec.pair_views pairs.items ≡ from_old lines.now) }
{
    let mut pairs = Vec::new(alloc);
    let mut left = lines;
    'lines: while let Some((first, rest)) = left.split_first() {
        pairs.push(NamePair {
            ours: first.old.bytes(),
            theirs: first.new.bytes(),
        })?;
        left = rest;
    }
    Ok(pairs)
}

/// The lines of the map, as the new file sees them.
pub fn pairs_from_new(alloc: Global, lines: &[Listed]) -> Result<Vec<NamePair<'_>>, AllocError>
    ensures { IfOk result (λ pairs. spec.pair_views pairs.items ≡ from_new lines.now) }
{
    let mut pairs = Vec::new(alloc);
    let mut left = lines;
    'lines: while let Some((first, rest)) = left.split_first() {
        pairs.push(NamePair {
            ours: first.new.bytes(),
            theirs: first.old.bytes(),
        })?;
        left = rest;
    }
    Ok(pairs)
}

fn our_keys<'a>(alloc: Global, pairs: &[NamePair<'a>]) -> Result<Vec<Option<Key<'a>>>, AllocError>
    ensures { IfOk result (λ keys. keys_view keys.items ≡ spec.our_keys (spec.pair_views pairs.now)) }
{
    let mut keys = Vec::new(alloc);
    for number in 0..pairs.len() {
        keys.push(Some(Key {
            name: pairs[number].ours,
            which: 0,
        }))?;
    }
    Ok(keys)
}

fn their_keys<'a>(alloc: Global, pairs: &[NamePair<'a>]) -> Result<Vec<Option<Key<'a>>>, AllocError>
    ensures { IfOk result (λ keys. keys_view keys.items ≡ spec.their_keys (spec.pair_views pairs.now)) }
{
    let mut keys = Vec::new(alloc);
    for number in 0..pairs.len() {
        keys.push(Some(Key {
            name: pairs[number].theirs,
            which: 0,
        }))?;
    }
    Ok(keys)
}

/// The numbers of the pairs by the names in our file.
pub fn our_numbers<'a>(
    alloc: Global,
    pairs: &[NamePair<'a>],
) -> Result<IndexMap<Key<'a>, u32>, AllocError>
    ensures { IfOk result (λ table. (name : List ℕ) → numbered_as (name, 0) table ≡ position_from (λ names. bytes_eq names.0 name) 0 (spec.pair_views pairs.now)) }
{
    let keys = our_keys(alloc, pairs)?;
    numbers(alloc, keys.as_slice())
}

/// The numbers of the pairs by the names in their file.
pub fn their_numbers<'a>(
    alloc: Global,
    pairs: &[NamePair<'a>],
) -> Result<IndexMap<Key<'a>, u32>, AllocError>
    ensures { IfOk result (λ table. (name : List ℕ) → numbered_as (name, 0) table ≡ position_from (λ names. bytes_eq names.1 name) 0 (spec.pair_views pairs.now)) }
{
    let keys = their_keys(alloc, pairs)?;
    numbers(alloc, keys.as_slice())
}

/// The name in their file of our global of this name.
pub fn other_name_of<'a>(
    by_ours: &IndexMap<Key<'_>, u32>,
    by_theirs: &IndexMap<Key<'_>, u32>,
    pairs: &[NamePair<'a>],
    name: &'a [u8],
) -> Option<&'a [u8]>
    requires ours { (name : List ℕ) → numbered_as (name, 0) by_ours.now ≡ position_from (λ names. bytes_eq names.0 name) 0 (spec.pair_views pairs.now) }
    requires theirs { (name : List ℕ) → numbered_as (name, 0) by_theirs.now ≡ position_from (λ names. bytes_eq names.1 name) 0 (spec.pair_views pairs.now) }
    ensures { option_map (λ other. other.now) result ≡ other_name (spec.pair_views pairs.now) name.now }
{
    match listed_name(by_ours, pairs, name) {
        Some(other) => return Some(other),
        None => {}
    }
    match number_of(by_theirs, Key { name, which: 0 }) {
        Some(_) => None,
        None => Some(name),
    }
}

// The name that the map gives.
fn listed_name<'a>(
    by_ours: &IndexMap<Key<'_>, u32>,
    pairs: &[NamePair<'a>],
    name: &[u8],
) -> Option<&'a [u8]>
    requires { (name : List ℕ) → numbered_as (name, 0) by_ours.now ≡ position_from (λ names. bytes_eq names.0 name) 0 (spec.pair_views pairs.now) }
    ensures { option_map (λ other. other.now) result ≡ said_name (spec.pair_views pairs.now) name.now }
{
    match number_of(by_ours, Key { name, which: 0 }) {
        Some(number) => theirs_at(pairs, number as usize),
        None => None,
    }
}

fn theirs_at<'a>(pairs: &[NamePair<'a>], number: usize) -> Option<&'a [u8]>
    ensures { option_map (λ other. other.now) result ≡ spec.their_name_at (spec.pair_views pairs.now) number }
{
    match at(pairs, number) {
        Some(pair) => Some(pair.theirs),
        None => None,
    }
}
