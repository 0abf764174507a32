ghost use Rattle.std.specs.Prelude.{◌≡◌, false, length, map, IfOk};
ghost use Rattle.bit_words.specs.Words.{AreThere};
ghost use Rattle.core_ir.specs.Cells.{store_shapes};
ghost use Rattle.core_ir.specs.Joint.{table};
ghost use Rattle.core_ir.specs.Meaning.{owned_cells};
ghost use Rattle.core_ir.specs.Nodes.{goes_on};
ghost use Rattle.sym_constants.specs.Constants.{zero_value};
ghost use Rattle.sym_exec.specs.Ends.{begun, executed_as};
ghost use Rattle.sym_exec.specs.Steps.{CodeIsFit};
ghost use Rattle.sym_paths.specs.Going.{world};
ghost use Rattle.sym_paths.specs.Runs.{run_of};
ghost use Rattle.sym_values.specs.Values.{all_lits, AreLaid};
ghost use Rattle.symbolic_runs.specs.Ending.{IsUnitRun};
ghost use Rattle.symbolic_runs.specs.Keeping.{IsStoreKept, IsWorldKept};
ghost use Rattle.symbolic_runs.specs.Simulation.{layout, objects_in};

use crate::ends::{SymEnd, Values, ending, push_value, put_back};
use crate::steps::Steps;
use crate::walks::walk;
use aig_build::{Circuit, Lit};
use bit_ops::SymValue;
use core_ir::{Shape, Unit};
use rvt_num::Memory;
use std::alloc::Global;
use sym_constants::zero;
use sym_paths::Run;
use sym_store::{SymStore, copy_value};
use uf_abstraction::Applications;

/// A unit from its entry, where `start` is what it holds, to its return, at which the cells that it owns become what they were before it:
/// its end and its calls are those of the unit's run. After want of memory the applications are only to be dropped.
pub fn run_unit<S: Steps>(
    steps: &S,
    alloc: Global,
    unit: &Unit,
    owned: &[bool],
    circuit: &mut Circuit,
    applications: &mut Applications,
    start: SymStore,
    before: &[SymValue],
) -> Result<SymEnd, Memory>
    requires ready { S.ready steps.now }
    requires unit { unit.now ≡ (S.subject steps.now).unit }
    requires owned { owned.now ≡ owned_cells (objects_in (S.subject steps.now)) (S.subject steps.now).unit }
    requires fits { CodeIsFit (S.subject steps.now) unit.now.body }
    requires stops { goes_on unit.now.body ≡ false }
    requires world { IsWorldKept (layout (S.subject steps.now)) (world circuit.old applications.old) }
    requires start { IsStoreKept (layout (S.subject steps.now)) circuit.old start }
    requires before_laid { AreLaid (store_shapes (table (S.subject steps.now).joint)) before.now }
    requires before_there { AreThere circuit.old (all_lits before.now) }
    requires all_owned { length owned.now ≡ length before.now }
    ensures { IfOk result (λ end. IsUnitRun (S.subject steps.now) (world circuit.old applications.old) start before.now (executed_as circuit.new applications.new end)) }
{
    let results = zeros(alloc, unit.results.as_slice())?;
    let cells = copies(alloc, start.cells())?;
    let mut run = begin(alloc, start);
    walk(steps, alloc, circuit, applications, &mut run, &unit.body)?;
    let calls = run.calls;
    let mut end = ending(alloc, circuit, &run.exits, Values { results, cells }, calls)?;
    put_back(alloc, owned, before, &mut end.values.cells)?;
    Ok(end)
}

/// A run at its beginning, which goes on whatever the assignment.
fn begin(alloc: Global, start: SymStore) -> Run
    ensures { run_of result ≡ begun start }
{
    Run {
        live: Lit::constant(true),
        store: start,
        exits: Vec::new(alloc),
        calls: Vec::new(alloc),
    }
}

/// Zero or null for each shape.
fn zeros(alloc: Global, shapes: &[Shape]) -> Result<Vec<SymValue>, Memory>
    ensures { IfOk result (λ zeros. zeros.items ≡ map zero_value shapes.now) }
{
    let mut zeros = Vec::new(alloc);
    'shapes: for shape in shapes {
        let value = zero(alloc, *shape)?;
        push_value(&mut zeros, value)?;
    }
    Ok(zeros)
}

fn copies(alloc: Global, values: &[SymValue]) -> Result<Vec<SymValue>, Memory>
    ensures { IfOk result (λ copies. copies.items ≡ values.now) }
{
    let mut copies = Vec::new(alloc);
    'values: for value in values {
        let copy = copy_value(alloc, value)?;
        push_value(&mut copies, copy)?;
    }
    Ok(copies)
}
