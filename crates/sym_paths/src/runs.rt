ghost use Rattle.std.specs.Prelude.{◌≡◌, IfOk, OnOk};
ghost use Rattle.std.specs.List.{AllByRecursion};
ghost use Rattle.aig_build.specs.Circuits.{Grows};
ghost use Rattle.sym_store.specs.Stores.{AreStoresAlike, IsStoreThere};
ghost use Rattle.symbolic_runs.specs.Keeping.{IsLitThere};
ghost use Rattle.symbolic_runs.specs.Runs.{chosen, Stops};
ghost use Rattle.sym_paths.specs.Runs.{call_of, ended_run, exit_of, how_of, joined_state, run_of, state_of, with_call, with_exit, with_live, with_state, with_trap, with_traps, Branches};

use aig_build::{Circuit, Lit};
use bit_ops::SymValue;
use bit_words::gates::and;
use rvt_num::{Memory, Trap};
use std::alloc::Global;
use sym_store::SymStore;
use uf_abstraction::EntryName;

/// How a run ends: by a trap, or with what these registers of a store hold and its cells.
#[derive(Drop)]
pub enum How {
    Traps(Trap),
    Stops(Vec<u32>, SymStore),
}

/// Where the guard is true, the run ends so.
#[derive(Drop)]
pub struct Exit {
    pub guard: Lit,
    pub how: How,
}

/// Where the guard is true, a call is made.
#[derive(Drop)]
pub struct SymCall {
    pub entry: EntryName,
    pub key: Vec<SymValue>,
    pub guard: Lit,
}

/// Where a run goes on, and what its registers and cells hold there.
#[derive(Drop)]
pub struct State {
    pub live: Lit,
    pub store: SymStore,
}

/// A run so far: where it is still going on, what its registers and cells hold there, and its exits and calls in order.
#[derive(Drop)]
pub struct Run {
    pub live: Lit,
    pub store: SymStore,
    pub exits: Vec<Exit>,
    pub calls: Vec<SymCall>,
}

pub fn push_exit(run: &mut Run, exit: Exit) -> Result<(), Memory>
    ensures { OnOk result (run_of run.new ≡ with_exit (run_of run.old) (exit_of exit)) }
{
    match run.exits.push(exit) {
        Ok(()) => Ok(()),
        Err(_) => Err(Memory),
    }
}

pub fn push_call(run: &mut Run, call: SymCall) -> Result<(), Memory>
    ensures { OnOk result (run_of run.new ≡ with_call (run_of run.old) (call_of call)) }
{
    match run.calls.push(call) {
        Ok(()) => Ok(()),
        Err(_) => Err(Memory),
    }
}

/// The first trap whose literal is true ends the run.
pub fn end_at(circuit: &mut Circuit, run: &mut Run, traps: &[(Trap, Lit)]) -> Result<(), Memory>
    requires live_there { IsLitThere circuit.old run.old.live }
    requires traps_there { AllByRecursion (λ t. IsLitThere circuit.old t.1) traps.now }
    ensures { OnOk result (with_traps (record { nodes = circuit.old; run = run_of run.old }) traps.now ≡ record { nodes = circuit.new; run = run_of run.new }) }
{
    for at in 0..traps.len() {
        let (trap, lit) = traps[at];
        end_at_one(circuit, run, trap, lit)?;
    }
    Ok(())
}

/// The run ends where it goes on and the literal is true.
#[tactic(auto, unfolding(crate::specs::Runs::with_trap))]
fn end_at_one(circuit: &mut Circuit, run: &mut Run, trap: Trap, lit: Lit) -> Result<(), Memory>
    requires live_there { IsLitThere circuit.old run.old.live }
    requires lit_there { IsLitThere circuit.old lit }
    ensures built { OnOk result (with_trap (record { nodes = circuit.old; run = run_of run.old }) (trap, lit) ≡ record { nodes = circuit.new; run = run_of run.new }) }
    ensures grows { Grows circuit.old circuit.new }
    ensures live_there { OnOk result (IsLitThere circuit.new run.new.live) }
{
    let guard = and(circuit, run.live, lit)?;
    let live = and(circuit, run.live, lit.opposite())?;
    let how = How::Traps(trap);
    push_exit(run, Exit { guard, how })?;
    run.live = live;
    Ok(())
}

/// The run goes on where the literal is true. It gives the state from which it goes on where the literal is false.
pub fn branch(circuit: &mut Circuit, run: &mut Run, test: Lit) -> Result<State, Memory>
    requires live_there { IsLitThere circuit.old run.old.live }
    requires test_there { IsLitThere circuit.old test }
    ensures literals { IfOk result (λ other. Branches circuit.old run.old.live test circuit.new run.new.live other.live) }
    ensures run { OnOk result (run_of run.new ≡ with_live (run_of run.old) run.new.live) }
    ensures store { IfOk result (λ other. other.store ≡ run.old.store) }
{
    let store = run.store.copy()?;
    let yes = and(circuit, run.live, test)?;
    let no = and(circuit, run.live, test.opposite())?;
    run.live = yes;
    Ok(State { live: no, store })
}

/// The run goes on from another state. It gives the one where it was.
pub fn exchange(run: &mut Run, state: State) -> State
    ensures run { run_of run.new ≡ with_state (run_of run.old) (state_of state) }
    ensures state { state_of result ≡ (run_of run.old).state }
{
    let live = run.live;
    run.live = state.live;
    let store = std::mem::replace(&mut run.store, state.store);
    State { live, store }
}

/// Two branches are joined: the run goes on where one of them does, with the first state where that goes on.
pub fn join(circuit: &mut Circuit, run: &mut Run, first: State) -> Result<(), Memory>
    requires first_live_there { IsLitThere circuit.old first.live }
    requires live_there { IsLitThere circuit.old run.old.live }
    requires first_there { IsStoreThere circuit.old first.store }
    requires second_there { IsStoreThere circuit.old run.old.store }
    requires alike { AreStoresAlike first.store run.old.store }
    ensures built { OnOk result (joined_state circuit.old (state_of first) (run_of run.old).state ≡ record { nodes = circuit.new; state = (run_of run.new).state }) }
    ensures run { OnOk result (run_of run.new ≡ with_state (run_of run.old) (run_of run.new).state) }
{
    let mut store = first.store;
    store.merge(circuit, first.live, &run.store)?;
    let neither = and(circuit, first.live.opposite(), run.live.opposite())?;
    run.store = store;
    run.live = neither.opposite();
    Ok(())
}

/// The run returns what these registers hold.
pub fn stop(alloc: Global, run: &mut Run, registers: &[u32]) -> Result<(), Memory>
    ensures { OnOk result (run_of run.new ≡ ended_run (run_of run.old) (Stops (chosen run.old.store.registers registers.now) run.old.store.cells)) }
{
    let registers = match Vec::from_slice(alloc, registers) {
        Ok(registers) => registers,
        Err(_) => return Err(Memory),
    };
    let store = run.store.copy()?;
    let how = How::Stops(registers, store);
    end(run, how)?;
    Ok(())
}

/// The run ends here.
pub fn end(run: &mut Run, how: How) -> Result<(), Memory>
    ensures { OnOk result (run_of run.new ≡ ended_run (run_of run.old) (how_of how)) }
{
    let guard = run.live;
    push_exit(run, Exit { guard, how })?;
    run.live = Lit::constant(false);
    Ok(())
}
