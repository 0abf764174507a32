//! What twins may be among.

ghost use Rattle.std.specs.Prelude.{IfOk};
ghost use Rattle.twin_candidates.specs.Candidates.{AreCandidates};

use crate::contents::unchanged;
use crate::functions::avoiding;
use crate::types::changed_types;
use rvt_tree::{Pairing, Program};
use sqlite_items::Items;
use std::alloc::{AllocError, Global};

/// The pairs of a pairing, without constants whose contents changed, and without functions that may touch one through a
/// pointer. Want of memory also where such a constant has more than 4,096 cells, as none of an accepted file has.
pub fn candidates(
    alloc: Global,
    old: &Program,
    new: &Program,
    pairing: &Pairing,
) -> Result<Pairing, AllocError>
    ensures { IfOk result (λ candidates. AreCandidates old.now new.now pairing.now candidates) }
{
    let objects = unchanged(
        alloc,
        pairing.objects.as_slice(),
        old.table.objects.as_slice(),
        new.table.objects.as_slice(),
    )?;
    let marks = changed_types(alloc, old, objects.as_slice())?;
    let functions = avoiding(alloc, pairing.functions.as_slice(), &old.functions, &marks)?;
    let structs = Items::from_slice(alloc, pairing.structs.as_slice())?;
    Ok(Pairing {
        functions: Items::from_vec(functions),
        objects: Items::from_vec(objects),
        structs,
    })
}
