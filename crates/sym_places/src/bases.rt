//! Where the cells of the objects begin.

ghost use Rattle.std.specs.Prelude.{◌≡◌, ◌++◌, ◌∷◌, [], length, IfOk, OnOk};
ghost use Rattle.core_ir.specs.Cells.{mutable_cells};
ghost use Rattle.sym_places.specs.Bases.{bases_from};

use core_ir::CoreObject;
use rvt_num::Memory;
use std::alloc::Global;
use sym_spots::sum;

/// For each object where its cells begin among the mutable cells of all objects.
pub fn bases_of(alloc: Global, objects: &[CoreObject]) -> Result<Vec<u64>, Memory>
    ensures { IfOk result (λ bases. bases.items ≡ bases_from 0 objects.now) }
{
    let mut bases = Vec::new(alloc);
    let mut next = 0;
    'objects: for object in objects {
        push_base(&mut bases, next)?;
        next = sum(next, mutable_count(object))?;
    }
    Ok(bases)
}

fn push_base(bases: &mut Vec<u64>, base: u64) -> Result<(), Memory>
    ensures { OnOk result (bases.new.items ≡ bases.old.items ++ base ∷ []) }
{
    match bases.push(base) {
        Ok(()) => Ok(()),
        Err(_) => Err(Memory),
    }
}

/// How many mutable cells an object has.
pub fn mutable_count(object: &CoreObject) -> u64
    ensures { result ≡ length (mutable_cells object.now) }
{
    if object.constant {
        0
    } else {
        object.cells.len() as u64
    }
}
