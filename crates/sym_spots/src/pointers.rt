ghost use Rattle.std.specs.Prelude.{◌≡◌, ◌<◌, ◌++◌, ◌∷◌, [], false, length, true, IfOk, OnOk};
ghost use Rattle.aig_build.specs.Circuits.{Grows, constant};
ghost use Rattle.bit_words.specs.Words.{AreThere};
ghost use Rattle.sym_spots.specs.Aims.{hit_built, object_starts, pointed_built, starts_from, starts_in, starts_of};
ghost use Rattle.sym_constants.specs.Tests.{test_built};
ghost use Rattle.sym_spots.specs.Spots.{AreAimsThere};

use crate::aims::{Aim, Target, push_aim};
use aig_build::{Circuit, Lit};
use bit_words::Word;
use bit_words::gates::{and, or};
use core_ir::CoreObject;
use rvt_num::Memory;
use std::alloc::Global;
use sym_constants::test;

/// The objects and cells at which a value of the type begins, in addressable objects alone.
pub fn starts_of(
    alloc: Global,
    objects: &[CoreObject],
    pointee: Option<u32>,
) -> Result<Vec<(u32, u32)>, Memory>
    ensures { IfOk result (λ starts. starts.items ≡ starts_of objects.now pointee) }
{
    let mut starts = Vec::new(alloc);
    match pointee {
        Some(pointee) => {
            push_all(&mut starts, pointee, objects)?;
            Ok(starts)
        }
        None => Ok(starts),
    }
}

fn push_all(
    starts: &mut Vec<(u32, u32)>,
    pointee: u32,
    objects: &[CoreObject],
) -> Result<(), Memory>
    ensures { OnOk result (starts.new.items ≡ starts.old.items ++ starts_from pointee 0 objects.now) }
{
    'objects: for (number, object) in objects.iter().enumerate() {
        match u32::try_from(number) {
            Ok(number) => push_object(starts, pointee, number, object)?,
            Err(_) => return Err(Memory),
        }
    }
    Ok(())
}

fn push_object(
    starts: &mut Vec<(u32, u32)>,
    pointee: u32,
    number: u32,
    object: &CoreObject,
) -> Result<(), Memory>
    ensures { OnOk result (starts.new.items ≡ starts.old.items ++ object_starts pointee number object.now) }
{
    if !object.addressable {
        return Ok(());
    }
    push_starts(starts, pointee, number, object.starts.as_slice())?;
    Ok(())
}

fn push_starts(
    starts: &mut Vec<(u32, u32)>,
    pointee: u32,
    number: u32,
    of: &[(u32, u32)],
) -> Result<(), Memory>
    ensures { OnOk result (starts.new.items ≡ starts.old.items ++ starts_in pointee number of.now) }
{
    'of: for start in of {
        if start.0 != pointee {
            continue;
        }
        push_start(starts, (number, start.1))?;
    }
    Ok(())
}

fn push_start(starts: &mut Vec<(u32, u32)>, start: (u32, u32)) -> Result<(), Memory>
    ensures { OnOk result (starts.new.items ≡ starts.old.items ++ start ∷ []) }
{
    match starts.push(start) {
        Ok(()) => Ok(()),
        Err(_) => Err(Memory),
    }
}

/// An aim for each of these cells, some cells further on, and whether the pointer is at one of them.
pub fn pointed(
    alloc: Global,
    circuit: &mut Circuit,
    object: &Word,
    cell: &Word,
    cells: u32,
    starts: &[(u32, u32)],
) -> Result<(Vec<Aim>, Lit), Memory>
    requires object_is_there { AreThere circuit.old object.now.bits }
    requires cell_is_there { AreThere circuit.old cell.now.bits }
    ensures built { IfOk result (λ r. pointed_built object.now cell.now cells circuit.old [] (constant false) starts.now ≡ record { nodes = circuit.new; aims = r.0.items; any = r.1 }) }
    ensures aims_there { IfOk result (λ r. AreAimsThere circuit.new r.0.items) }
    ensures any_there { IfOk result (λ r. r.1.node < length circuit.new) }
    ensures grows { Grows circuit.old circuit.new }
{
    let _count = circuit.nodes();
    let mut aims = Vec::new(alloc);
    let mut any = Lit::constant(false);
    for at in 0..starts.len() {
        let start = starts[at];
        let here = hit(circuit, object, cell, start)?;
        let one = or(circuit, any, here)?;
        push_aim(
            &mut aims,
            here,
            Target::Cell(start.0, start.1 as u64 + cells as u64),
        )?;
        any = one;
    }
    Ok((aims, any))
}

/// Whether a pointer is at a cell.
fn hit(circuit: &mut Circuit, object: &Word, cell: &Word, start: (u32, u32)) -> Result<Lit, Memory>
    requires object_is_there { AreThere circuit.old object.now.bits }
    requires cell_is_there { AreThere circuit.old cell.now.bits }
    ensures built { IfOk result (λ lit. hit_built circuit.old object.now cell.now start ≡ record { nodes = circuit.new; lit = lit }) }
    ensures there { IfOk result (λ lit. lit.node < length circuit.new) }
    ensures grows { Grows circuit.old circuit.new }
{
    let _count = circuit.nodes();
    let in_object = word_is(circuit, object, start.0 as u64 + 1)?;
    let at_cell = word_is(circuit, cell, start.1 as u64)?;
    let lit = and(circuit, in_object, at_cell)?;
    Ok(lit)
}

/// Whether the pattern of a word is this number.
pub fn word_is(circuit: &mut Circuit, word: &Word, number: u64) -> Result<Lit, Memory>
    requires word_is_there { AreThere circuit.old word.now.bits }
    ensures built { IfOk result (λ lit. test_built circuit.old (constant true) word.now.bits number ≡ record { nodes = circuit.new; lit = lit }) }
    ensures there { IfOk result (λ lit. lit.node < length circuit.new) }
    ensures grows { Grows circuit.old circuit.new }
{
    let _count = circuit.nodes();
    let lit = test(circuit, Lit::constant(true), &word.bits, number)?;
    Ok(lit)
}
