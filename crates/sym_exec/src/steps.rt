use aig_build::{Circuit, Lit};
use bit_ops::SymValue;
use core_ir::{CoreOp, Spot};
use rvt_num::{Memory, Trap};
use sym_store::SymStore;
use uf_abstraction::{Applications, EntryName};

/// A call that was made: how its answer may trap, and the name and the key under which it is answered.
#[derive(Drop)]
pub struct MadeCall {
    pub traps: Vec<(Trap, Lit)>,
    pub entry: EntryName,
    pub key: Vec<SymValue>,
}

/// How the steps of a unit are made of literals.
///
/// Each changes the registers and cells as the step of the meaning does, and gives the traps of the step, of which the first counts.
/// After want of memory what it was given is only to be dropped.
pub trait Steps {
    ghost use Rattle.std.specs.Prelude.{◌≡◌, IfOk};
    ghost use Rattle.core_ir.specs.Meaning.{request_of};
    ghost use Rattle.core_ir.specs.declared.units.Code.TheOpen.{Code-F};
    ghost use Rattle.sym_exec.specs.Steps.{calls, is_set, loads, sets, stores, MakesStep, MakesTest, NodeIsFit};
    ghost use Rattle.sym_paths.specs.Going.{world};
    ghost use Rattle.symbolic_runs.specs.Keeping.{IsStoreKept, IsWorldKept};
    ghost use Rattle.symbolic_runs.specs.Simulation.{layout, IsCallOf, Subject};
    ghost use Rattle.uf_abstraction.specs.Names.{meant};

    /// The unit whose steps are made, and how its calls are named.
    ghost subject: { Self → Subject };

    /// What the unit's program has to meet.
    ghost ready: { Self → Type 0 };

    /// A register takes the value of an operation.
    fn set(
        &self,
        circuit: &mut Circuit,
        store: &mut SymStore,
        register: u32,
        operation: CoreOp,
    ) -> Result<Vec<(Trap, Lit)>, Memory>
        requires ready { ready self.now }
        requires fits { NodeIsFit (subject self.now) (Code-F.Set register operation) }
        requires kept { IsStoreKept (layout (subject self.now)) circuit.old store.old }
        ensures { IfOk result (λ traps. MakesStep (subject self.now) (sets (subject self.now) register operation) circuit.old store.old circuit.new store.new traps.items) };

    /// A register takes what a place holds.
    fn load(
        &self,
        circuit: &mut Circuit,
        store: &mut SymStore,
        register: u32,
        spot: &Spot,
    ) -> Result<Vec<(Trap, Lit)>, Memory>
        requires ready { ready self.now }
        requires fits { NodeIsFit (subject self.now) (Code-F.Load register spot.now) }
        requires kept { IsStoreKept (layout (subject self.now)) circuit.old store.old }
        ensures { IfOk result (λ traps. MakesStep (subject self.now) (loads (subject self.now) register spot.now) circuit.old store.old circuit.new store.new traps.items) };

    /// A place takes what a register holds.
    fn store(
        &self,
        circuit: &mut Circuit,
        store: &mut SymStore,
        spot: &Spot,
        register: u32,
    ) -> Result<Vec<(Trap, Lit)>, Memory>
        requires ready { ready self.now }
        requires fits { NodeIsFit (subject self.now) (Code-F.Store spot.now register) }
        requires kept { IsStoreKept (layout (subject self.now)) circuit.old store.old }
        ensures { IfOk result (λ traps. MakesStep (subject self.now) (stores (subject self.now) spot.now register) circuit.old store.old circuit.new store.new traps.items) };

    /// Registers take the results of a call, and cells what it leaves in them.
    fn call(
        &self,
        circuit: &mut Circuit,
        applications: &mut Applications,
        store: &mut SymStore,
        unit: u32,
        inputs: &[u32],
        outputs: &[u32],
    ) -> Result<MadeCall, Memory>
        requires ready { ready self.now }
        requires fits { NodeIsFit (subject self.now) (Code-F.Call unit inputs.now outputs.now) }
        requires world { IsWorldKept (layout (subject self.now)) (world circuit.old applications.old) }
        requires kept { IsStoreKept (layout (subject self.now)) circuit.old store.old }
        ensures { IfOk result (λ made. IsCallOf (subject self.now) (world circuit.old applications.old) store.old (calls unit inputs.now outputs.now) (λ c. request_of c unit inputs.now) (record { step = record { world = world circuit.new applications.new; store = store.new; traps = made.traps.items }; name = meant made.entry; key = made.key.items })) };

    /// Whether a register isn't zero.
    fn test(&self, circuit: &mut Circuit, store: &SymStore, register: u32) -> Result<Lit, Memory>
        requires ready { ready self.now }
        requires fits { NodeIsFit (subject self.now) (Code-F.If register tt tt) }
        requires kept { IsStoreKept (layout (subject self.now)) circuit.old store.now }
        ensures { IfOk result (λ lit. MakesTest (subject self.now) (is_set register) circuit.old store.now circuit.new lit) };
}
