//! What holds of the units of one version.

ghost use Rattle.std.specs.Prelude.{◌≡◌, IfOk};
ghost use Rattle.touch_sets.specs.Touching.{AreFlags, side_of, told, flag, flag_rows, unit_touches, unit_traps, unit_ends};

use crate::bodies::all_named;
use crate::callers::caller_graph;
use crate::endings::{endless_units, number_of, trap_rows};
use crate::objects::{is_flagged, touched_rows};
use crate::versions::version;
use core_ir::JointCore;
use graph_marks::Memory;
use rvt_num::Trap;
use std::alloc::Global;
use std::marker::Model;

/// By object and by number of a trap, the units that touch it or may end with it; and the units that don't always end.
#[derive(Drop)]
pub struct Flags {
    touched: Vec<Vec<bool>>,
    traps: Vec<Vec<bool>>,
    endless: Vec<bool>,
}

impl Model for Flags {
    ghost use Rattle.touch_sets.specs.Touching.{UnitFlags};

    ghost Value = { UnitFlags };

    ghost use Rattle.touch_sets.specs.Touching.{flag_rows};

    ghost view = { λ f. record { touched = flag_rows f.touched.items; traps = flag_rows f.traps.items; endless = f.endless.items } };
}

impl Flags {
    pub fn of_version(alloc: Global, core: &JointCore, old_side: bool) -> Result<Flags, Memory>
        ensures { IfOk result (λ flags. AreFlags core.now (side_of old_side) flags) }
    {
        let version = version(core, old_side);
        let callers = caller_graph(alloc, version)?;
        let all = all_named(alloc, version)?;
        let touched = touched_rows(alloc, core, old_side, all.as_slice(), &callers)?;
        let traps = trap_rows(alloc, core, old_side, &callers)?;
        let endless = endless_units(alloc, core, old_side, &callers)?;
        Ok(Flags {
            touched,
            traps,
            endless,
        })
    }

    pub fn touches(&self, unit: Option<u32>, object: u32) -> bool
        ensures { result ≡ told unit (λ u. unit_touches self.now u object) }
    {
        match unit {
            None => false,
            Some(unit) => is_at(self.touched.as_slice(), object as usize, unit),
        }
    }

    pub fn may_trap(&self, unit: Option<u32>, trap: Trap) -> bool
        ensures { result ≡ told unit (λ u. unit_traps self.now u trap) }
    {
        match unit {
            None => false,
            Some(unit) => is_at(self.traps.as_slice(), number_of(trap), unit),
        }
    }

    pub fn always_ends(&self, unit: u32) -> bool
        ensures { result ≡ unit_ends self.now unit }
    {
        match self.endless.get(unit as usize) {
            None => false,
            Some(endless) => !*endless,
        }
    }
}

fn is_at(table: &[Vec<bool>], row: usize, place: u32) -> bool
    ensures { result ≡ flag (flag_rows table.now) row place }
{
    match table.get(row) {
        None => false,
        Some(flags) => is_flagged(flags.as_slice(), place as usize),
    }
}
