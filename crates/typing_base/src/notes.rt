//! What going through a file keeps from one phrase to the next.

ghost use Rattle.std.specs.Prelude.{◌≡◌, Some, map, slice_get};
ghost use Rattle.std.specs.Option.{option_copied};
ghost use Rattle.rvt_tree.specs.declared.expressions.Variable.TheVariants as V;
ghost use Rattle.expression_typing.specs.Outcomes.{noting};
ghost use Rattle.expression_typing.specs.Operands.{taken_of, first_taken};
ghost use Rattle.expression_typing.specs.Progress.{nothing_noted, with_call};
ghost use Rattle.file_typing.specs.FunctionNotes.{numbered, next_loop, of_no_function};
ghost use Rattle.file_typing.specs.Objects.{counted_object};
ghost use Rattle.typing_base.specs.Follows.{Becomes};
ghost use Rattle.typing_base.specs.NoteViews.{local_view, call_view, taken_view};
ghost use Rattle.typing_base.specs.Views.{notes_view};

use crate::addresses::{Addresses, Taken};
use crate::faults::{Cause, Fault, broken};
use crate::locals::{Local, Locals};
use rvt_tree::{Name, Place, Variable};
use std::alloc::Global;

/// A call of a function, at its name.
#[derive(Debug, Drop)]
pub struct Call {
    pub function: u32,
    pub name: Name,
    pub place: Place,
}

/// What is noted so far.
#[derive(Drop)]
pub struct Notes {
    /// The parameters and then the locals of the function so far, by their numbers.
    pub locals: Locals,
    pub calls: Vec<Call>,
    pub taken: Addresses,
    loops: u32,
    objects: u32,
    cells: u32,
}

/// What is noted of a function whose body is typed.
#[derive(Drop)]
pub struct BodyNotes {
    pub locals: Locals,
    pub calls: Vec<Call>,
    pub taken: Addresses,
}

impl Notes {
    /// Before the first line of a file.
    pub fn new(alloc: Global) -> Notes
        ensures { notes_view result ≡ nothing_noted }
    {
        Notes {
            locals: Locals::new(alloc),
            calls: Vec::new(alloc),
            taken: Addresses::new(alloc),
            loops: 0,
            objects: 0,
            cells: 0,
        }
    }

    pub fn add_call(&mut self, call: Call) -> Result<(), Fault>
        ensures { Becomes (λ x. x) (noting (with_call (call_view call)) (notes_view self.old)) result self.new }
    {
        self.calls.push(call)?;
        Ok(())
    }

    /// The address of a variable becomes a value: a local becomes an object with its first address.
    pub fn take_address(&mut self, place: Place, variable: Variable) -> Result<(), Fault>
        ensures { Becomes (λ x. x) (taken_of place (Some variable) (notes_view self.old)) result self.new }
    {
        self.take_first(variable)?;
        self.taken.add(Taken { variable, place })?;
        Ok(())
    }

    fn take_first(&mut self, variable: Variable) -> Result<(), Fault>
        ensures { Becomes (λ x. x) (first_taken variable (notes_view self.old)) result self.new }
    {
        match variable {
            Variable::Local(number) => self.take_local(number),
            Variable::Object(_) => Ok(()),
        }
    }

    fn take_local(&mut self, number: u32) -> Result<(), Fault>
        ensures { Becomes (λ x. x) (first_taken (V.Local number) (notes_view self.old)) result self.new }
    {
        if self.taken.has_local(number) {
            return Ok(());
        }
        match at(self.locals.as_slice(), number as usize) {
            Some(local) => {
                let place = local.place;
                let cells = local.cells;
                self.add_object(place, cells)
            }
            None => Ok(()),
        }
    }

    /// One more parameter or local: it gets the next number.
    pub fn number_local(&mut self, local: Local) -> Result<u32, Fault>
        ensures { Becomes (λ number. number) (numbered (local_view local) (notes_view self.old)) result self.new }
    {
        let cells = self.locals.cells() as u64 + local.cells as u64;
        if cells > 4096 {
            return Err(broken(Cause::BeyondLimit, local.place));
        }
        let number = self.locals.as_slice().len();
        if number > 4_294_967_295 {
            return Err(Fault::Memory);
        }
        self.locals.add(local)?;
        Ok(number as u32)
    }

    /// One more loop: loops are numbered from 1.
    pub fn begin_loop(&mut self) -> Result<u32, Fault>
        ensures { Becomes (λ number. number) (next_loop (notes_view self.old)) result self.new }
    {
        if self.loops == 4_294_967_295 {
            return Err(Fault::Memory);
        }
        self.loops += 1;
        Ok(self.loops)
    }

    /// One more object of the file.
    pub fn add_object(&mut self, at: Place, cells: u32) -> Result<(), Fault>
        ensures { Becomes (λ x. x) (counted_object at cells (notes_view self.old)) result self.new }
    {
        let sum = self.cells as u64 + cells as u64;
        if self.objects < 1000 && sum <= 65_536 {
            self.objects += 1;
            self.cells = sum as u32;
            Ok(())
        } else {
            Err(broken(Cause::BeyondLimit, at))
        }
    }

    /// Nothing is noted of a function any more; what was is given away.
    pub fn end_function(&mut self, alloc: Global) -> BodyNotes
        ensures left { notes_view self.new ≡ of_no_function (notes_view self.old) }
        ensures locals { result.locals ≡ self.old.locals }
        ensures calls { result.calls.items ≡ self.old.calls.items }
        ensures taken { result.taken ≡ self.old.taken }
    {
        self.loops = 0;
        BodyNotes {
            locals: std::mem::replace(&mut self.locals, Locals::new(alloc)),
            calls: std::mem::replace(&mut self.calls, Vec::new(alloc)),
            taken: std::mem::replace(&mut self.taken, Addresses::new(alloc)),
        }
    }
}

fn at(locals: &[Local], number: usize) -> Option<&Local>
    ensures { option_copied result ≡ slice_get locals.now number }
{
    locals.get(number)
}
