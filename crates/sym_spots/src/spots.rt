ghost use Rattle.std.specs.Prelude.{◌≡◌, ◌∷◌, [], true, Some, length, slice_get, IfOk};
ghost use Rattle.aig_build.specs.Circuits.{Grows, constant};
ghost use Rattle.bit_words.specs.Words.{AreThere};
ghost use Rattle.core_ir.specs.Places.{pointee};
ghost use Rattle.sym_spots.specs.Spots.{AreAimsThere, AreTrapsThere, behind_built, fixed_built, spot_built};
ghost use Rattle.sym_values.specs.Values.{all_lits};

use crate::aims::{Aim, Target};
use crate::indexes::{indexed, value_at};
use crate::pointers::{pointed, starts_of, word_is};
use aig_build::{Circuit, Lit};
use bit_ops::SymValue;
use bit_words::Word;
use core_ir::{CoreObject, Index, Shape, Spot};
use rvt_num::Memory;
use std::alloc::Global;

/// For each trap whether a place has it. Of those that are true the first counts, in the order null, place, index.
#[derive(Clone, Copy)]
pub struct SpotTraps {
    pub index: Lit,
    pub null: Lit,
    pub place: Lit,
}

/// Where a spot may be, and how it traps.
#[tactic(auto, unfolding(crate::specs::Spots::spot_built))]
pub fn aims_of(
    alloc: Global,
    objects: &[CoreObject],
    shapes: &[Shape],
    registers: &[SymValue],
    circuit: &mut Circuit,
    spot: &Spot,
) -> Result<(Vec<Aim>, SpotTraps), Memory>
    requires registers_are_there { AreThere circuit.old (all_lits registers.now) }
    ensures built { IfOk result (λ r. spot_built objects.now shapes.now registers.now circuit.old spot.now ≡ record { nodes = circuit.new; aims = r.0.items; traps = r.1 }) }
    ensures aims_there { IfOk result (λ r. AreAimsThere circuit.new r.0.items) }
    ensures traps_there { IfOk result (λ r. AreTrapsThere circuit.new r.1) }
    ensures grows { Grows circuit.old circuit.new }
{
    match spot {
        Spot::Cell(object, cell, indexes) => {
            let target = Target::Cell(*object, *cell as u64);
            let found = fixed(alloc, registers, circuit, target, indexes.as_slice())?;
            Ok(found)
        }
        Spot::Local(register, indexes) => {
            let target = Target::Register(*register as u64);
            let found = fixed(alloc, registers, circuit, target, indexes.as_slice())?;
            Ok(found)
        }
        Spot::Through(pointer, cells, indexes) => {
            let starts = starts_of(alloc, objects, pointee(shapes, *pointer))?;
            let found = behind(
                alloc,
                registers,
                circuit,
                &starts,
                *pointer,
                *cells,
                indexes.as_slice(),
            )?;
            Ok(found)
        }
    }
}

/// The type that a pointer register points to.
fn pointee(shapes: &[Shape], register: u32) -> Option<u32>
    ensures { result ≡ pointee (slice_get shapes.now register) }
{
    match shapes.get(register as usize) {
        Some(Shape::Pointer(pointee, _)) => Some(*pointee),
        _ => None,
    }
}

/// A spot that is behind no pointer.
fn fixed(
    alloc: Global,
    registers: &[SymValue],
    circuit: &mut Circuit,
    target: Target,
    indexes: &[Index],
) -> Result<(Vec<Aim>, SpotTraps), Memory>
    requires registers_are_there { AreThere circuit.old (all_lits registers.now) }
    ensures built { IfOk result (λ r. fixed_built registers.now circuit.old target indexes.now ≡ record { nodes = circuit.new; aims = r.0.items; traps = r.1 }) }
    ensures aims_there { IfOk result (λ r. AreAimsThere circuit.new r.0.items) }
    ensures traps_there { IfOk result (λ r. AreTrapsThere circuit.new r.1) }
    ensures grows { Grows circuit.old circuit.new }
{
    let _count = circuit.nodes();
    let first = one_aim(alloc, target)?;
    let (aims, inside) = indexed(alloc, circuit, registers, first, indexes)?;
    let _later = circuit.nodes();
    Ok((
        aims,
        SpotTraps {
            index: inside.opposite(),
            null: Lit::constant(false),
            place: Lit::constant(false),
        },
    ))
}

fn one_aim(alloc: Global, target: Target) -> Result<Vec<Aim>, Memory>
    ensures { IfOk result (λ r. r.items ≡ record { lit = constant true; target = target } ∷ []) }
{
    let mut aims = Vec::new(alloc);
    match aims.push(Aim {
        lit: Lit::constant(true),
        target,
    }) {
        Ok(()) => Ok(aims),
        Err(_) => Err(Memory),
    }
}

/// A spot behind a pointer register.
fn behind(
    alloc: Global,
    registers: &[SymValue],
    circuit: &mut Circuit,
    starts: &[(u32, u32)],
    pointer: u32,
    cells: u32,
    indexes: &[Index],
) -> Result<(Vec<Aim>, SpotTraps), Memory>
    requires registers_are_there { AreThere circuit.old (all_lits registers.now) }
    ensures built { IfOk result (λ r. behind_built starts.now cells registers.now circuit.old indexes.now (slice_get registers.now pointer) ≡ record { nodes = circuit.new; aims = r.0.items; traps = r.1 }) }
    ensures aims_there { IfOk result (λ r. AreAimsThere circuit.new r.0.items) }
    ensures traps_there { IfOk result (λ r. AreTrapsThere circuit.new r.1) }
    ensures grows { Grows circuit.old circuit.new }
{
    let _count = circuit.nodes();
    match value_at(registers, pointer) {
        Some(SymValue::Pointer(object, cell)) => {
            let found = behind_words(
                alloc, registers, circuit, starts, object, cell, cells, indexes,
            )?;
            Ok(found)
        }
        _ => Ok((
            Vec::new(alloc),
            SpotTraps {
                index: Lit::constant(false),
                null: Lit::constant(true),
                place: Lit::constant(false),
            },
        )),
    }
}

fn behind_words(
    alloc: Global,
    registers: &[SymValue],
    circuit: &mut Circuit,
    starts: &[(u32, u32)],
    object: &Word,
    cell: &Word,
    cells: u32,
    indexes: &[Index],
) -> Result<(Vec<Aim>, SpotTraps), Memory>
    requires registers_are_there { AreThere circuit.old (all_lits registers.now) }
    requires object_is_there { AreThere circuit.old object.now.bits }
    requires cell_is_there { AreThere circuit.old cell.now.bits }
    ensures built { IfOk result (λ r. behind_built starts.now cells registers.now circuit.old indexes.now (Some (SymValue.Pointer object.now cell.now)) ≡ record { nodes = circuit.new; aims = r.0.items; traps = r.1 }) }
    ensures aims_there { IfOk result (λ r. AreAimsThere circuit.new r.0.items) }
    ensures traps_there { IfOk result (λ r. AreTrapsThere circuit.new r.1) }
    ensures grows { Grows circuit.old circuit.new }
{
    let null = word_is(circuit, object, 0)?;
    let (first, found) = pointed(alloc, circuit, object, cell, cells, starts)?;
    let (aims, inside) = indexed(alloc, circuit, registers, first, indexes)?;
    Ok((
        aims,
        SpotTraps {
            index: inside.opposite(),
            null,
            place: found.opposite(),
        },
    ))
}
