//! The twins of two files.

ghost use Rattle.std.specs.Prelude.{IfOk, MatchOption};
ghost use Rattle.one_table.specs.Candidates.{candidates_of};
ghost use Rattle.one_table.specs.Tables.{HaveOneTable};
ghost use Rattle.one_table.specs.Twins.{AreTwinsOf};

use crate::pairs::candidates;
use crate::tables::same_tables;
use c_meaning::laws::{twin_loops_are_full, twins_are_full};
use rvt_tree::{Pairing, Program};
use std::alloc::{AllocError, Global};
use twin_check::closed_twins;

/// The greatest closed set of twins of two files that have one table of objects, or `None` where they have none. The functions
/// and the loops of each pair are fully equivalent.
pub fn twins(alloc: Global, old: &Program, new: &Program) -> Result<Option<Pairing>, AllocError>
    ensures { IfOk result (λ found. MatchOption found (HaveOneTable (candidates_of old.now new.now) old.now new.now → ⊥) (λ twins. AreTwinsOf old.now new.now twins)) }
{
    let pairing = candidates(alloc, old, new)?;
    if !same_tables(old, new, &pairing) {
        return Ok(None);
    }
    let twins = closed_twins(old, new, pairing);
    twins_are_full(&twins, old, new);
    twin_loops_are_full(&twins, old, new);
    Ok(Some(twins))
}
