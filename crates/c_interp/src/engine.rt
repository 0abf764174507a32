//! The machine at work.

ghost use Rattle.std.specs.Prelude.{◌≡◌, ℕ, suc, [], ◌∷◌, ◌++◌, ◌+◌, ◌<◌, ◌≤◌, slice_get, Some, IfOk, OnOk, IfNone};
ghost use Rattle.rvt_tree.specs.declared.programs.Program.{Program};
ghost use Rattle.rvt_tree.specs.Syntax.{declaration_with};
ghost use Rattle.rvt_tree.specs.Views.{init_view};
ghost use Rattle.c_meaning.specs.Outcomes.{Returning, go_on, Normally as ends_normally};
ghost use Rattle.c_meaning.specs.Expressions.{result_value};
ghost use Rattle.c_meaning.specs.Runs.{body_of, stepping};
ghost use Rattle.c_tasks.specs.Operands.{operands, with_manner};
ghost use Rattle.c_tasks.specs.Tasks.{after, step, ending, running_statement, Becomes};
ghost use Rattle.c_tasks.specs.Weights.{task_weight, tasks_weight, initializer_weight};
ghost use Rattle.c_steps.specs.Steps.{with_left, coming, progress_weight};
ghost use Rattle.c_interp.specs.Frames.{returned_number, in_caller, fallen_off, gives_result, on_result, whole, going, happening, happening_next, halted, frames_weight, engine_weight, HasStepped};
ghost use Rattle.c_interp.specs.declared.events.Event.TheVariants as E;

use crate::events::{Event, Halt};
use crate::frames::{Caller, Frame, Wait, last_caller};
use c_control::test;
use c_initializers::fill;
use c_meaning::laws::call_unfolds;
use c_places::laws::kept_is_closed;
use c_places::{Cells, Layouts};
use c_steps::{Progress, laws_of_loops, perform, take_task};
use c_tasks::{Manner, Part, Task, Work, put};
use rvt_num::{Num, Trap, Value};
use rvt_tree::{CType, Function, Init, Stmt, Variable};
use sqlite_items::at;
use std::alloc::{AllocError, Global};
use std::mem;

#[derive(Drop)]
pub struct Engine<'a> {
    pub cells: Cells,
    pub work: Work<'a>,
    pub frames: Vec<Frame<'a>>,
    /// How many further calls there may be in one another.
    pub depth: u32,
}

impl<'a> Engine<'a> {
    /// Goes on until the end, with at most so many steps. Gives how many are left.
    pub fn finish(
        &mut self,
        alloc: Global,
        layouts: &Layouts<'a>,
        steps: u64,
    ) -> Result<(Halt, u64), AllocError>
        ensures end { IfOk result (λ r. halted r.0 self.new.cells.store r.1 ≡ going layouts.now self.old steps) }
        ensures left { IfOk result (λ r. r.1 ≤ steps) }
    {
        let mut left = steps;
        'steps: loop {
            let halt = self.go(alloc, layouts, left)?;
            match halt {
                Some(halt) => return Ok((halt, left)),
                None => {}
            }
            left -= 1;
        }
    }

    /// Goes on until a step is taken, of which so many are left, or until the end.
    fn go(
        &mut self,
        alloc: Global,
        layouts: &Layouts<'a>,
        left: u64,
    ) -> Result<Option<Halt>, AllocError>
        ensures { IfOk result (λ halt. HasStepped layouts.now halt self.new left (going layouts.now self.old left)) }
    {
        match self.advance(alloc, layouts) {
            Ok(event) => self.take_step(alloc, layouts, &event, left),
            Err(error) => Err(error),
        }
    }

    /// Does tasks until a step has to be taken, or until the end.
    fn advance(&mut self, alloc: Global, layouts: &Layouts<'a>) -> Result<Event<'a>, AllocError>
        ensures { IfOk result (λ event. (left : ℕ) → happening layouts.now event self.new left ≡ going layouts.now self.old left) }
    {
        'tasks: loop {
            match self.turn(alloc, layouts) {
                Ok(event) => match event {
                    Some(event) => return Ok(event),
                    None => {}
                },
                Err(error) => return Err(error),
            }
        }
    }

    /// One task, or the end of an activation.
    fn turn(
        &mut self,
        alloc: Global,
        layouts: &Layouts<'a>,
    ) -> Result<Option<Event<'a>>, AllocError>
        ensures same { IfOk result (λ event. (left : ℕ) → happening_next layouts.now event self.new left ≡ going layouts.now self.old left) }
        ensures lighter { IfOk result (λ event. IfNone event (engine_weight self.new < engine_weight self.old)) }
    {
        match take_task(&mut self.work) {
            Some(task) => self.do_task(alloc, layouts, task),
            None => self.fall_off(alloc, layouts),
        }
    }

    fn do_task(
        &mut self,
        alloc: Global,
        layouts: &Layouts<'a>,
        task: Task<'a>,
    ) -> Result<Option<Event<'a>>, AllocError>
        ensures same { IfOk result (λ event. (left : ℕ) → happening_next layouts.now event self.new left ≡ whole layouts.now self.old.frames.items (step layouts.now self.old.depth task.entry (after layouts.now self.old.depth self.old.work.tasks.items) (operands self.old.work) (with_left self.old.cells left))) }
        ensures lighter { IfOk result (λ event. IfNone event (engine_weight self.new < engine_weight self.old + task_weight task.entry)) }
    {
        match perform(alloc, layouts, &mut self.cells, &mut self.work, task) {
            Ok(progress) => self.go_on(alloc, layouts, &progress),
            Err(error) => Err(error),
        }
    }

    fn go_on(
        &mut self,
        alloc: Global,
        layouts: &Layouts<'a>,
        progress: &Progress<'a>,
    ) -> Result<Option<Event<'a>>, AllocError>
        ensures same { IfOk result (λ event. (left : ℕ) → happening_next layouts.now event self.new left ≡ whole layouts.now self.old.frames.items (coming layouts.now self.old.depth progress.now self.old.work (with_left self.old.cells left))) }
        ensures lighter { IfOk result (λ event. IfNone event (engine_weight self.new ≤ engine_weight self.old + progress_weight progress.now)) }
    {
        match progress {
            Progress::GoesOn => Ok(None),
            Progress::Traps(trap) => Ok(Some(Event::Traps(*trap))),
            Progress::Returns(number) => self.come_back(alloc, layouts, *number),
            Progress::Calls(function, height) => Ok(Some(Event::Calls(*function, *height))),
            Progress::Tests(s) => Ok(Some(Event::Tests(s))),
            Progress::Initializes(variable, init) => {
                self.initialize(alloc, layouts, *variable, init)?;
                Ok(None)
            }
        }
    }

    // ---- the end of an activation

    /// The tasks of an activation are done.
    fn fall_off(
        &mut self,
        alloc: Global,
        layouts: &Layouts<'a>,
    ) -> Result<Option<Event<'a>>, AllocError>
        requires { self.old.work.tasks.items ≡ [] }
        ensures same { IfOk result (λ event. (left : ℕ) → happening_next layouts.now event self.new left ≡ going layouts.now self.old left) }
        ensures lighter { IfOk result (λ event. IfNone event (engine_weight self.new < engine_weight self.old)) }
    {
        match self.frames.pop() {
            Some(Frame { work, depth, wait }) => match wait {
                Wait::Call(callee, returns, saved) => {
                    self.end_call(
                        alloc,
                        layouts,
                        returns,
                        Caller {
                            work,
                            depth,
                            callee,
                            saved,
                        },
                    )
                }
                Wait::Initializer => {
                    self.end_initializer(work, depth);
                    Ok(None)
                }
            },
            None => {
                let value = self.work.take_value();
                Ok(Some(Event::Returns(returned_number(value))))
            }
        }
    }

    /// A body came to its end.
    fn end_call(
        &mut self,
        alloc: Global,
        layouts: &Layouts<'a>,
        returns: bool,
        caller: Caller<'a>,
    ) -> Result<Option<Event<'a>>, AllocError>
        ensures same { IfOk result (λ event. (left : ℕ) → happening_next layouts.now event self.new left ≡ whole layouts.now self.old.frames.items (go_on (on_result layouts.now caller.entry) (fallen_off returns (in_caller layouts.now caller.entry.callee caller.entry.saved self.old.cells.store left)))) }
        ensures lighter { IfOk result (λ event. IfNone event (engine_weight self.new ≡ tasks_weight caller.entry.work.tasks.items + frames_weight self.old.frames.items)) }
    {
        self.resume(alloc, layouts, caller)?;
        if returns {
            return Ok(Some(Event::Traps(Trap::NoReturn)));
        }
        self.work.give(Value::Null)?;
        Ok(None)
    }

    /// An initializer's cells are in their variable.
    fn end_initializer(&mut self, work: Work<'a>, depth: u32)
        ensures same { (program : Program) (left : ℕ) → going program self.new left ≡ whole program self.old.frames.items (after program depth work.entry.tasks.items (with_manner ends_normally (operands work.entry)) (with_left self.old.cells left)) }
        ensures lighter { engine_weight self.new ≡ tasks_weight work.entry.tasks.items + frames_weight self.old.frames.items }
    {
        self.work = work;
        self.depth = depth;
        self.work.end(Manner::Normally);
    }

    /// A function returned.
    fn come_back(
        &mut self,
        alloc: Global,
        layouts: &Layouts<'a>,
        number: Option<Num>,
    ) -> Result<Option<Event<'a>>, AllocError>
        ensures same { IfOk result (λ event. (left : ℕ) → happening_next layouts.now event self.new left ≡ whole layouts.now self.old.frames.items (Returning number self.old.cells.store left)) }
        ensures lighter { IfOk result (λ event. IfNone event (engine_weight self.new < frames_weight self.old.frames.items)) }
    {
        match last_caller(&mut self.frames) {
            Some(caller) => {
                self.resume(alloc, layouts, caller)?;
                self.work.give(result_value(number))?;
                Ok(None)
            }
            None => Ok(Some(Event::Returns(number))),
        }
    }

    /// The caller is the activation that runs.
    fn resume(
        &mut self,
        alloc: Global,
        layouts: &Layouts<'a>,
        caller: Caller<'a>,
    ) -> Result<(), AllocError>
        ensures cells { OnOk result ((left : ℕ) → with_left self.new.cells left ≡ in_caller layouts.now caller.entry.callee caller.entry.saved self.old.cells.store left) }
        ensures tasks { OnOk result (self.new.work.tasks.items ≡ caller.entry.work.tasks.items) }
        ensures operands { OnOk result (operands self.new.work ≡ operands caller.entry.work) }
        ensures depth { OnOk result (self.new.depth ≡ caller.entry.depth) }
        ensures frames { OnOk result (self.new.frames.items ≡ self.old.frames.items) }
    {
        let Caller {
            work,
            depth,
            callee,
            saved,
        } = caller;
        self.cells.leave(alloc, layouts, callee, saved)?;
        self.work = work;
        self.depth = depth;
        Ok(())
    }

    // ---- the beginning of an activation

    /// An activation begins, with so many further calls in one another, and this one waits.
    fn wait(&mut self, work: Work<'a>, depth: u32, wait: Wait) -> Result<(), AllocError>
        ensures frames { OnOk result (self.new.frames.items ≡ self.old.frames.items ++ record { work = self.old.work; depth = self.old.depth; wait = wait } ∷ []) }
        ensures tasks { OnOk result (self.new.work.tasks.items ≡ work.entry.tasks.items) }
        ensures operands { OnOk result (operands self.new.work ≡ operands work.entry) }
        ensures depth { OnOk result (self.new.depth ≡ depth) }
        ensures cells { OnOk result (self.new.cells ≡ self.old.cells) }
    {
        let waiting = mem::replace(&mut self.work, work);
        self.frames.push(Frame {
            work: waiting,
            depth: self.depth,
            wait,
        })?;
        self.depth = depth;
        Ok(())
    }

    /// The initializer of a variable, which is zero meanwhile.
    fn initialize(
        &mut self,
        alloc: Global,
        layouts: &Layouts<'a>,
        variable: Variable,
        init: &'a Init,
    ) -> Result<(), AllocError>
        ensures same { OnOk result ((left : ℕ) → going layouts.now self.new left ≡ whole layouts.now self.old.frames.items (running_statement layouts.now self.old.depth (declaration_with variable (init_view init.now)) (after layouts.now self.old.depth self.old.work.tasks.items) (operands self.old.work) (with_left self.old.cells left))) }
        ensures lighter { OnOk result (engine_weight self.new ≤ engine_weight self.old + 3 + initializer_weight (init_view init.now)) }
    {
        let zeros = self.cells.cleared_cells(alloc, layouts, variable)?;
        self.cells.clear(layouts, variable);
        let count = zeros.len();
        let mut work = activation(alloc, zeros);
        put(&mut work.tasks, Task::Initialize(variable, 0))?;
        fill(&mut work, init, 0, count)?;
        self.wait(work, self.depth, Wait::Initializer)?;
        Ok(())
    }

    // ---- steps

    /// A step is taken, of which so many are left, or the run ends.
    fn take_step(
        &mut self,
        alloc: Global,
        layouts: &Layouts<'a>,
        event: &Event<'a>,
        left: u64,
    ) -> Result<Option<Halt>, AllocError>
        ensures { IfOk result (λ halt. HasStepped layouts.now halt self.new left (happening layouts.now event.now self.old left)) }
    {
        match event {
            Event::Calls(function, height) => {
                self.call_with_step(alloc, layouts, *function, *height, left)
            }
            Event::Tests(s) => self.test_with_step(layouts, s, left),
            Event::Returns(number) => Ok(Some(Halt::Returned(*number))),
            Event::Traps(trap) => Ok(Some(Halt::Trapped(*trap))),
        }
    }

    fn call_with_step(
        &mut self,
        alloc: Global,
        layouts: &Layouts<'a>,
        number: u32,
        height: usize,
        left: u64,
    ) -> Result<Option<Halt>, AllocError>
        ensures { IfOk result (λ halt. HasStepped layouts.now halt self.new left (happening layouts.now (E.Calls number height) self.old left)) }
    {
        if left == 0 {
            return Ok(Some(Halt::Cut));
        }
        if self.depth == 0 {
            return Ok(Some(Halt::Deep));
        }
        self.call(alloc, layouts, number, height)?;
        Ok(None)
    }

    fn test_with_step(
        &mut self,
        layouts: &Layouts<'a>,
        s: &'a Stmt,
        left: u64,
    ) -> Result<Option<Halt>, AllocError>
        ensures { IfOk result (λ halt. HasStepped layouts.now halt self.new left (happening layouts.now (E.Tests s.entry) self.old left)) }
    {
        if left == 0 {
            return Ok(Some(Halt::Cut));
        }
        self.test(layouts, s)?;
        Ok(None)
    }

    /// The test of a loop.
    fn test(&mut self, layouts: &Layouts<'a>, s: &'a Stmt) -> Result<(), AllocError>
        ensures { OnOk result ((left : ℕ) → going layouts.now self.new left ≡ happening layouts.now (E.Tests s.entry) self.old (suc left)) }
    {
        laws_of_loops(layouts.program());
        test(&mut self.work, s)?;
        Ok(())
    }

    fn call(
        &mut self,
        alloc: Global,
        layouts: &Layouts<'a>,
        number: u32,
        height: usize,
    ) -> Result<(), AllocError>
        requires { 0 < self.old.depth }
        ensures { OnOk result ((left : ℕ) → going layouts.now self.new left ≡ happening layouts.now (E.Calls number height) self.old (suc left)) }
    {
        let function = at(layouts.program().functions.as_slice(), number as usize);
        match function {
            Some(function) => self.enter(alloc, layouts, number, function, height),
            None => {
                call_unfolds(layouts.program());
                self.work.lower(height);
                self.work.give(Value::Null)?;
                Ok(())
            }
        }
    }

    /// The function of this number is entered, with the values above a height.
    fn enter(
        &mut self,
        alloc: Global,
        layouts: &Layouts<'a>,
        number: u32,
        function: &'a Function,
        height: usize,
    ) -> Result<(), AllocError>
        requires deep { 0 < self.old.depth }
        requires function { slice_get layouts.now.functions number ≡ Some function.now }
        ensures { OnOk result ((left : ℕ) → going layouts.now self.new left ≡ happening layouts.now (E.Calls number height) self.old (suc left)) }
    {
        call_unfolds(layouts.program());
        kept_is_closed(layouts.program());
        let arguments = self.work.values_above(height);
        let saved = self
            .cells
            .enter(alloc, layouts, number, function, arguments)?;
        self.work.lower(height);
        let mut work = activation(alloc, Vec::new(alloc));
        begin_body(&mut work, &function.body)?;
        let returns = gives_result(&function.result);
        self.wait(work, self.depth - 1, Wait::Call(number, returns, saved))?;
        Ok(())
    }
}

/// An activation that has nothing to do, and these zeros.
pub fn activation<'a>(alloc: Global, zeros: Vec<Value>) -> Work<'a>
    ensures tasks { result.tasks.items ≡ [] }
    ensures operands { operands result ≡ record { values = []; places = []; manner = ends_normally; zeros = zeros.items } }
{
    Work {
        tasks: Vec::new(alloc),
        values: Vec::new(alloc),
        places: Vec::new(alloc),
        manner: Manner::Normally,
        zeros,
    }
}

/// The body of a function is to come, if it has one.
fn begin_body<'a>(work: &mut Work<'a>, body: &'a Option<Stmt>) -> Result<(), AllocError>
    ensures { OnOk result (Becomes (λ program d. ending program d (body_of program (stepping program d) body.now)) work.old work.new) }
{
    match body {
        Some(body) => put(&mut work.tasks, Task::Statement(Part::Whole, body)),
        None => {
            work.end(Manner::Normally);
            Ok(())
        }
    }
}

/// Whether a function has a result.
fn gives_result(ty: &Option<CType>) -> bool
    ensures { result ≡ gives_result ty.now }
{
    match ty {
        Some(_) => true,
        None => false,
    }
}

/// The number of a value, and none of a pointer.
fn returned_number(value: Value) -> Option<Num>
    ensures { result ≡ returned_number value }
{
    match value {
        Value::Num(number) => Some(number),
        Value::Null => None,
        Value::At(_, _) => None,
    }
}

/// The value of a call.
fn result_value(number: Option<Num>) -> Value
    ensures { result ≡ result_value number }
{
    match number {
        Some(number) => Value::Num(number),
        None => Value::Null,
    }
}
