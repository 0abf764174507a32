ghost use Rattle.std.specs.Prelude.{◌≡◌, ◌≤◌, ◌^◌, List, ◌++◌, flat_map, length, IfOk, MatchOption};
ghost use Rattle.call_graph.specs.Graphs.{IsGraph};
ghost use Rattle.rvt_tree.specs.declared.places.Place.{Place};
ghost use Rattle.file_typing.specs.CallCycles.{IsFirstAddressOnCycle, HasNoAddressOnCycle};
ghost use Rattle.file_typing.specs.FileScope.{FunctionEntry};
ghost use Rattle.call_cycles.specs.Noted.{AreNotesOf, calls_between};
ghost use Rattle.call_cycles.specs.FirstPlaces.{IsFirstOf, local_place};

use crate::cycles::on_cycle;
use crate::notes::FunctionNotes;
use crate::orders::earlier;
use graph_marks::Memory;
use rvt_tree::{Place, Variable};
use std::alloc::Global;
use typing_base::Taken;

/// The first place in the source at which the address of a local is taken in a function on a call cycle.
pub fn address_on_cycle(alloc: Global, functions: &[FunctionNotes]) -> Result<Option<Place>, Memory>
    requires known { IsGraph (calls_between functions.now) }
    requires few { length functions.now ≤ 2 ^ 32 }
    ensures { IfOk result (λ found. (entries : List FunctionEntry) → AreNotesOf functions.now entries → MatchOption found (HasNoAddressOnCycle entries) (IsFirstAddressOnCycle entries)) }
{
    let flags = on_cycle(alloc, functions)?;
    let mut first = None;
    'functions: for number in 0..functions.len() {
        if !flags[number] {
            continue;
        }
        first = with_addresses(first, functions[number].taken);
    }
    Ok(first)
}

// The first of some places and of those at which the addresses of locals are taken.
fn with_addresses(before: Option<Place>, taken: &[Taken]) -> Option<Place>
    ensures { (places : List Place) → IsFirstOf places before → IsFirstOf (places ++ flat_map local_place taken.now) result }
{
    let mut first = before;
    'taken: for one in taken {
        first = with_address(first, one);
    }
    first
}

fn with_address(before: Option<Place>, taken: &Taken) -> Option<Place>
    ensures { (places : List Place) → IsFirstOf places before → IsFirstOf (places ++ local_place taken.now) result }
{
    match taken.variable {
        Variable::Object(_) => before,
        Variable::Local(_) => match before {
            None => Some(taken.place),
            Some(first) => Some(earlier(first, taken.place)),
        },
    }
}
