//! How many parameters of one function point to each type.

ghost use Rattle.std.specs.Prelude.{◌≡◌, ℕ, IfOk, OnOk};
ghost use Rattle.c_types.specs.Layout.{shape_of};
ghost use Rattle.joint_objects.specs.Tallies as spec;

use crate::globals::next;
use indexmap::IndexMap;
use rvt_num::Kind;
use rvt_tree::{CType, Function, Local, Pointee};
use std::alloc::{AllocError, Global};

/// The parameters met that point to one type: the number, from 1, of the last function that has one, how many of its parameters
/// are such ones, and the most of one function.
#[derive(Clone, Copy)]
pub struct Tally {
    pub function: u32,
    pub count: u32,
    pub most: u32,
}

/// For each type, by its place, what was met of the parameters that point to it.
pub fn tallies(alloc: Global, functions: &[Function]) -> Result<IndexMap<usize, Tally>, AllocError>
    ensures { IfOk result (λ table. spec.AreMost functions.now table) }
{
    let mut table = IndexMap::new(alloc);
    let mut number: u32 = 0;
    let mut left = functions;
    'functions: while let Some((first, rest)) = left.split_first() {
        let after = next(number)?;
        number = after;
        tally_params(&mut table, number, first.params.as_slice())?;
        left = rest;
    }
    Ok(table)
}

const NOTHING_MET: Tally = Tally {
    function: 0,
    count: 0,
    most: 0,
};

fn tally_params(
    table: &mut IndexMap<usize, Tally>,
    function: u32,
    params: &[Local],
) -> Result<(), AllocError>
    ensures { OnOk result ((place : ℕ) → spec.tally_in table.new place ≡ spec.with_params place function params.now (spec.tally_in table.old place)) }
{
    let mut left = params;
    'params: while let Some((first, rest)) = left.split_first() {
        tally_param(table, function, &first.ty)?;
        left = rest;
    }
    Ok(())
}

fn tally_param(
    table: &mut IndexMap<usize, Tally>,
    function: u32,
    ty: &CType,
) -> Result<(), AllocError>
    ensures { OnOk result ((place : ℕ) → spec.tally_in table.new place ≡ spec.with_param place function (shape_of ty.now) (spec.tally_in table.old place)) }
{
    let pointee = match pointee_of(ty) {
        Some(pointee) => pointee,
        None => return Ok(()),
    };
    let place = place_of(pointee);
    let more = one_more(tally_at(table, place), function)?;
    table.insert(place, more)?;
    Ok(())
}

fn pointee_of(ty: &CType) -> Option<Pointee>
    ensures { result ≡ spec.pointee_of (shape_of ty.now) }
{
    match ty {
        CType::Word(_) => None,
        CType::Pointer(pointee, _) => Some(*pointee),
        CType::Array(_, _) => None,
        CType::Struct(_) => None,
    }
}

fn tally_at(table: &IndexMap<usize, Tally>, place: usize) -> Tally
    ensures { result ≡ spec.tally_in table.now place }
{
    match table.get(&place) {
        Some(tally) => *tally,
        None => NOTHING_MET,
    }
}

fn one_more(tally: Tally, function: u32) -> Result<Tally, AllocError>
    ensures { IfOk result (λ more. more ≡ spec.one_more function tally) }
{
    let before = if tally.function == function {
        tally.count
    } else {
        0
    };
    let count = next(before)?;
    Ok(Tally {
        function,
        count,
        most: tally.most.max(count),
    })
}

/// The place of a type among the tallies.
pub fn place_of(pointee: Pointee) -> usize
    ensures { result ≡ spec.place_of pointee }
{
    match pointee {
        Pointee::Word(kind) => kind_place(kind),
        Pointee::Struct(number) => number as usize + 9,
    }
}

fn kind_place(kind: Kind) -> usize
    ensures { result ≡ spec.kind_place kind }
{
    match kind {
        Kind::Bool => 0,
        Kind::I8 => 1,
        Kind::U8 => 2,
        Kind::I16 => 3,
        Kind::U16 => 4,
        Kind::I32 => 5,
        Kind::U32 => 6,
        Kind::I64 => 7,
        Kind::U64 => 8,
    }
}

/// The most parameters of one function that point to a type.
pub fn most_at(table: &IndexMap<usize, Tally>, pointee: Pointee) -> u32
    ensures { result ≡ (spec.tally_in table.now (spec.place_of pointee)).most }
{
    tally_at(table, place_of(pointee)).most
}
