ghost use Rattle.std.specs.Prelude.{IfOk, OnOk};
ghost use Rattle.aig_build.specs.Circuits.{IsCircuit};
ghost use Rattle.core_ir.specs.declared.units.Code.TheOpen.{Code-F};
ghost use Rattle.sym_exec.specs.Steps.{called_by, loads, quietly, sets, stores, AllFit, CodeIsFit, GoesOnQuietly, IsUnderWay, NodeIsFit, Parts};
ghost use Rattle.sym_paths.specs.Going.{done_by, done_by_all, world, GoesOn};
ghost use Rattle.sym_paths.specs.Runs.{run_of, state_of};
ghost use Rattle.symbolic_runs.specs.Keeping.{IsStateKept};
ghost use Rattle.symbolic_runs.specs.Simulation.{layout};

use crate::steps::{MadeCall, Steps};
use aig_build::Circuit;
use core_ir::{Code, CoreOp, Spot};
use rvt_num::Memory;
use std::alloc::Global;
use sym_paths::{How, Run, State, SymCall, branch, end, end_at, exchange, join, push_call, stop};
use uf_abstraction::Applications;

/// The run goes on with a piece of code, whose steps are made by `steps`. After want of memory it is only to be dropped.
#[cycle(walk)]
pub fn walk<S: Steps>(
    steps: &S,
    alloc: Global,
    circuit: &mut Circuit,
    applications: &mut Applications,
    run: &mut Run,
    code: &Code,
) -> Result<(), Memory>
    requires ready { S.ready steps.now }
    requires fits { CodeIsFit (S.subject steps.now) code.now }
    requires under_way { IsUnderWay (S.subject steps.now) (world circuit.old applications.old) (run_of run.old) }
    ensures { OnOk result (GoesOn (S.subject steps.now) (done_by (S.subject steps.now) code.now) (world circuit.old applications.old) (run_of run.old) (world circuit.new applications.new) (run_of run.new)) }
{
    match code {
        Code::Seq(parts) => {
            walk_all(steps, alloc, circuit, applications, run, parts.as_slice())?;
            Ok(())
        }
        Code::Set(register, operation) => {
            set(steps, circuit, run, *register, *operation)?;
            Ok(())
        }
        Code::Load(register, spot) => {
            load(steps, circuit, run, *register, spot)?;
            Ok(())
        }
        Code::Store(spot, register) => {
            store(steps, circuit, run, spot, *register)?;
            Ok(())
        }
        Code::Call(unit, inputs, outputs) => {
            call(
                steps,
                circuit,
                applications,
                run,
                *unit,
                inputs.as_slice(),
                outputs.as_slice(),
            )?;
            Ok(())
        }
        Code::If(register, yes, no) => {
            let other = part(steps, circuit, run, *register)?;
            walk(steps, alloc, circuit, applications, run, yes.get())?;
            let first = exchange(run, other);
            walk(steps, alloc, circuit, applications, run, no.get())?;
            join(circuit, run, first)?;
            Ok(())
        }
        Code::Stop(registers) => {
            stop(alloc, run, registers.as_slice())?;
            Ok(())
        }
        Code::Fail(trap) => {
            end(run, How::Traps(*trap))?;
            Ok(())
        }
    }
}

/// The run goes on with each part, in order.
#[cycle(walk)]
fn walk_all<S: Steps>(
    steps: &S,
    alloc: Global,
    circuit: &mut Circuit,
    applications: &mut Applications,
    run: &mut Run,
    parts: &[Code],
) -> Result<(), Memory>
    requires ready { S.ready steps.now }
    requires fits { AllFit (S.subject steps.now) parts.now }
    requires under_way { IsUnderWay (S.subject steps.now) (world circuit.old applications.old) (run_of run.old) }
    ensures { OnOk result (GoesOn (S.subject steps.now) (done_by_all (S.subject steps.now) parts.now) (world circuit.old applications.old) (run_of run.old) (world circuit.new applications.new) (run_of run.new)) }
{
    'parts: for part in parts {
        walk(steps, alloc, circuit, applications, run, part)?;
    }
    Ok(())
}

/// The run goes on where a register isn't zero. It gives the state from which it goes on where the register is zero.
fn part<S: Steps>(
    steps: &S,
    circuit: &mut Circuit,
    run: &mut Run,
    register: u32,
) -> Result<State, Memory>
    requires ready { S.ready steps.now }
    requires fits { NodeIsFit (S.subject steps.now) (Code-F.If register tt tt) }
    requires circuit { IsCircuit circuit.old }
    requires kept { IsStateKept (layout (S.subject steps.now)) circuit.old (run_of run.old).state }
    ensures { IfOk result (λ other. Parts (S.subject steps.now) register circuit.old (run_of run.old) circuit.new (run_of run.new) (state_of other)) }
{
    let test = steps.test(circuit, &run.store, register)?;
    let other = branch(circuit, run, test)?;
    Ok(other)
}

fn set<S: Steps>(
    steps: &S,
    circuit: &mut Circuit,
    run: &mut Run,
    register: u32,
    operation: CoreOp,
) -> Result<(), Memory>
    requires ready { S.ready steps.now }
    requires fits { NodeIsFit (S.subject steps.now) (Code-F.Set register operation) }
    requires circuit { IsCircuit circuit.old }
    requires kept { IsStateKept (layout (S.subject steps.now)) circuit.old (run_of run.old).state }
    ensures { OnOk result (GoesOnQuietly (S.subject steps.now) (quietly (sets (S.subject steps.now) register operation)) circuit.old (run_of run.old) circuit.new (run_of run.new)) }
{
    let traps = steps.set(circuit, &mut run.store, register, operation)?;
    end_at(circuit, run, &traps)?;
    Ok(())
}

fn load<S: Steps>(
    steps: &S,
    circuit: &mut Circuit,
    run: &mut Run,
    register: u32,
    spot: &Spot,
) -> Result<(), Memory>
    requires ready { S.ready steps.now }
    requires fits { NodeIsFit (S.subject steps.now) (Code-F.Load register spot.now) }
    requires circuit { IsCircuit circuit.old }
    requires kept { IsStateKept (layout (S.subject steps.now)) circuit.old (run_of run.old).state }
    ensures { OnOk result (GoesOnQuietly (S.subject steps.now) (quietly (loads (S.subject steps.now) register spot.now)) circuit.old (run_of run.old) circuit.new (run_of run.new)) }
{
    let traps = steps.load(circuit, &mut run.store, register, spot)?;
    end_at(circuit, run, &traps)?;
    Ok(())
}

fn store<S: Steps>(
    steps: &S,
    circuit: &mut Circuit,
    run: &mut Run,
    spot: &Spot,
    register: u32,
) -> Result<(), Memory>
    requires ready { S.ready steps.now }
    requires fits { NodeIsFit (S.subject steps.now) (Code-F.Store spot.now register) }
    requires circuit { IsCircuit circuit.old }
    requires kept { IsStateKept (layout (S.subject steps.now)) circuit.old (run_of run.old).state }
    ensures { OnOk result (GoesOnQuietly (S.subject steps.now) (quietly (stores (S.subject steps.now) spot.now register)) circuit.old (run_of run.old) circuit.new (run_of run.new)) }
{
    let traps = steps.store(circuit, &mut run.store, spot, register)?;
    end_at(circuit, run, &traps)?;
    Ok(())
}

fn call<S: Steps>(
    steps: &S,
    circuit: &mut Circuit,
    applications: &mut Applications,
    run: &mut Run,
    unit: u32,
    inputs: &[u32],
    outputs: &[u32],
) -> Result<(), Memory>
    requires ready { S.ready steps.now }
    requires fits { NodeIsFit (S.subject steps.now) (Code-F.Call unit inputs.now outputs.now) }
    requires under_way { IsUnderWay (S.subject steps.now) (world circuit.old applications.old) (run_of run.old) }
    ensures { OnOk result (GoesOn (S.subject steps.now) (called_by unit inputs.now outputs.now) (world circuit.old applications.old) (run_of run.old) (world circuit.new applications.new) (run_of run.new)) }
{
    let guard = run.live;
    let MadeCall { traps, entry, key } = steps.call(
        circuit,
        applications,
        &mut run.store,
        unit,
        inputs,
        outputs,
    )?;
    push_call(run, SymCall { entry, key, guard })?;
    end_at(circuit, run, &traps)?;
    Ok(())
}
