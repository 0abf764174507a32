ghost use Rattle.std.specs.List.{AllByRecursion};
ghost use Rattle.std.specs.Prelude.{◌≡◌, false, IfOk};
ghost use Rattle.aig_build.specs.Circuits.{Grows};
ghost use Rattle.bit_words.specs.Words.{AreThere};
ghost use Rattle.core_ir.specs.Cells.{store_shapes};
ghost use Rattle.core_ir.specs.Fits.{ObjectFits, SpotFits};
ghost use Rattle.sym_places.specs.Bases.{bases_from};
ghost use Rattle.sym_places.specs.Loops.{Suits};
ghost use Rattle.sym_places.specs.Reads.{picked, read_built};
ghost use Rattle.sym_spots.specs.Spots.{AreAimsThere, AreTrapsThere};
ghost use Rattle.sym_store.specs.Stores.{IsStoreLaid, IsStoreThere};
ghost use Rattle.sym_values.specs.Values.{lits_of};

use crate::held::held_by;
use aig_build::Circuit;
use bit_ops::SymValue;
use core_ir::{CoreObject, Shape, Spot};
use rvt_num::Memory;
use std::alloc::Global;
use sym_constants::zero;
use sym_spots::{Aim, SpotTraps, aims_of};
use sym_store::{SymStore, merge_value};

/// The value of a shape that is read at a spot, and how the spot traps. `bases` comes from `bases_of`.
pub fn read(
    alloc: Global,
    objects: &[CoreObject],
    bases: &[u64],
    shapes: &[Shape],
    store: &SymStore,
    circuit: &mut Circuit,
    spot: &Spot,
    shape: Shape,
) -> Result<(SymValue, SpotTraps), Memory>
    requires bases_are { bases.now ≡ bases_from 0 objects.now }
    requires objects_fit { AllByRecursion ObjectFits objects.now }
    requires store_is_laid { IsStoreLaid shapes.now (store_shapes objects.now) store.now }
    requires spot_fits { SpotFits objects.now shapes.now false spot.now shape }
    requires store_is_there { IsStoreThere circuit.old store.now }
    ensures built { IfOk result (λ r. read_built objects.now shapes.now store.now circuit.old spot.now shape ≡ record { nodes = circuit.new; value = r.0; traps = r.1 }) }
    ensures value_there { IfOk result (λ r. AreThere circuit.new (lits_of r.0)) }
    ensures traps_there { IfOk result (λ r. AreTrapsThere circuit.new r.1) }
    ensures grows { Grows circuit.old circuit.new }
{
    let (aims, traps) = aims_of(alloc, objects, shapes, store.registers(), circuit, spot)?;
    let value = pick(alloc, objects, bases, store, circuit, shape, &aims)?;
    Ok((value, traps))
}

/// What the true aim holds. Without aims it is zero.
fn pick(
    alloc: Global,
    objects: &[CoreObject],
    bases: &[u64],
    store: &SymStore,
    circuit: &mut Circuit,
    shape: Shape,
    aims: &[Aim],
) -> Result<SymValue, Memory>
    requires bases_are { bases.now ≡ bases_from 0 objects.now }
    requires suits { Suits objects.now store.now shape aims.now }
    requires aims_are_there { AreAimsThere circuit.old aims.now }
    requires store_is_there { IsStoreThere circuit.old store.now }
    ensures built { IfOk result (λ value. picked objects.now store.now circuit.old shape aims.now ≡ record { nodes = circuit.new; value = value }) }
    ensures there { IfOk result (λ value. AreThere circuit.new (lits_of value)) }
    ensures grows { Grows circuit.old circuit.new }
{
    let _count = circuit.nodes();
    if aims.is_empty() {
        let zero = zero(alloc, shape)?;
        return Ok(zero);
    }
    let mut value = held_by(alloc, objects, bases, store, aims[0].target)?;
    for at in 1..aims.len() {
        let here = held_by(alloc, objects, bases, store, aims[at].target)?;
        let next = merge_value(alloc, circuit, aims[at].lit, &here, &value)?;
        value = next;
    }
    Ok(value)
}
