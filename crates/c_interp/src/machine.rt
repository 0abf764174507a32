ghost use Rattle.std.specs.Prelude.{◌≡◌, ℕ, ◌-◌, List, IfOk, OnOk};
ghost use Rattle.rvt_num.specs.declared.values.Value.{Value};
ghost use Rattle.rvt_tree.specs.declared.programs.Program.{Program};
ghost use Rattle.c_meaning.specs.Runs.{run, stop_of_call};
ghost use Rattle.c_interp.specs.Stops.{stop_with};
ghost use Rattle.c_interp.specs.Frames.{halted, going};

use crate::engine::{Engine, activation};
use crate::events::Halt;
use c_places::{Cells, Layouts};
use c_tasks::{Task, put};
use rvt_num::{End, Input, Value};
use rvt_tree::Program;
use std::alloc::{AllocError, Global};
use std::marker::Model;

/// How a run stopped: its end and the steps that it took, or want of a step or of a nested call.
#[derive(Clone, Copy, PartialEq, Eq, Debug)]
pub enum Stop {
    Ended { end: End, steps: u64 },
    Cut,
    Deep,
}

/// A program that can be run, with a stack of its own.
#[derive(Drop)]
pub struct Machine<'a> {
    alloc: Global,
    layouts: Layouts<'a>,
    calls: u32,
    engine: Engine<'a>,
}

impl<'a> Model for Machine<'a> {
    ghost use Rattle.c_interp.specs.Machines.{Setup};

    ghost Value = { Setup };

    ghost use Rattle.std.specs.Coded.{codes};
    ghost use Rattle.rvt_tree.specs.contracts.types.CType as c;
    ghost use Rattle.rvt_tree.specs.contracts.statements.Stmt as s;

    ghost coded = { Prim.hlevel (codes, c.the_row.coded, s.the_row.coded) };

    ghost view = { λ m. record { program = m.layouts; calls = m.calls; store = m.engine.cells.store } };
}

impl<'a> Machine<'a> {
    /// A machine whose runs have at most so many calls in one another.
    ///
    /// Want of memory also where a type of the program has more than 4,096 cells.
    pub fn open(alloc: Global, program: &'a Program, calls: u32) -> Result<Machine<'a>, AllocError>
        ensures program { IfOk result (λ machine. machine.program ≡ program.now) }
        ensures calls { IfOk result (λ machine. machine.calls ≡ calls) }
    {
        let layouts = Layouts::of(alloc, program)?;
        let cells = Cells::new(alloc, &[])?;
        let engine = Engine {
            cells,
            work: activation(alloc, Vec::new(alloc)),
            frames: Vec::new(alloc),
            depth: calls,
        };
        Ok(Machine {
            alloc,
            layouts,
            calls,
            engine,
        })
    }

    /// Runs a function on arguments and a store with at most so many steps.
    ///
    /// Want of memory also where an operator meets numbers of kinds for which C has no such operation,
    /// and where the number of a cell would pass 2^32: a program that was read has neither.
    pub fn run(&mut self, function: u32, input: &Input, steps: u64) -> Result<Stop, AllocError>
        ensures program { self.new.program ≡ self.old.program }
        ensures calls { self.new.calls ≡ self.old.calls }
        ensures stop { IfOk result (λ stop. run self.old.program function input.now.args.items input.now.store.items steps self.old.calls ≡ stop_with stop self.new.store) }
    {
        begin(self.alloc, &mut self.engine, function, input, self.calls)?;
        let (halt, left) = self.engine.finish(self.alloc, &self.layouts, steps)?;
        Ok(stop_of(halt, steps - left))
    }

    /// The store that the last run left.
    pub fn store(&self) -> &[Value]
        ensures { result.now ≡ self.now.store }
    {
        self.engine.cells.store()
    }
}

/// A call of a function is to come, and nothing else.
fn begin<'a>(
    alloc: Global,
    engine: &mut Engine<'a>,
    function: u32,
    input: &Input,
    calls: u32,
) -> Result<(), AllocError>
    ensures { OnOk result ((program : Program) (steps : ℕ) → stop_of_call steps (going program engine.new steps) ≡ run program function input.now.args.items input.now.store.items steps calls) }
{
    let mut work = activation(alloc, Vec::new(alloc));
    work.values = Vec::from_slice(alloc, input.args.as_slice())?;
    put(&mut work.tasks, Task::Call(function, 0))?;
    engine.cells = Cells::new(alloc, input.store.as_slice())?;
    engine.work = work;
    engine.frames = Vec::new(alloc);
    engine.depth = calls;
    Ok(())
}

fn stop_of(halt: Halt, steps: u64) -> Stop
    ensures { (store : List Value) (left before : ℕ) → before - left ≡ steps → stop_of_call before (halted halt store left) ≡ stop_with result store }
{
    match halt {
        Halt::Returned(number) => Stop::Ended {
            end: End::Returned(number),
            steps,
        },
        Halt::Trapped(trap) => Stop::Ended {
            end: End::Trapped(trap),
            steps,
        },
        Halt::Cut => Stop::Cut,
        Halt::Deep => Stop::Deep,
    }
}
