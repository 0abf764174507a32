ghost use Rattle.std.specs.Prelude.{◌≡◌, ◌+◌, ◌≤◌, [], OnOk, IfOk};
ghost use Rattle.c_meaning.specs.Outcomes.{Normally as ends_normally};
ghost use Rattle.c_tasks.specs.Operands.{operands, with_value, top_value, without_value, with_place, top_place, without_place, with_manner, above, lowered, manner_of};
ghost use Rattle.c_tasks.specs.Tasks.{step, Becomes, TasksBecome};
ghost use Rattle.c_tasks.specs.Weights.{task_weight, tasks_weight};

use crate::manners::Manner;
use crate::tasks::Task;
use c_places::Location;
use rvt_num::Value;
use rvt_tree::Variable;
use std::alloc::{AllocError, Global};

/// What is still to be done in one activation of a function, the next one last, and what waits to be used.
#[derive(Drop)]
pub struct Work<'a> {
    pub tasks: Vec<Task<'a>>,
    pub values: Vec<Value>,
    pub places: Vec<Location>,
    pub manner: Manner,
    pub zeros: Vec<Value>,
}

/// One more task, to be done first.
pub fn put<'a>(tasks: &mut Vec<Task<'a>>, task: Task<'a>) -> Result<(), AllocError>
    ensures next { OnOk result (TasksBecome (λ program d. step program d task.entry) tasks.old.items tasks.new.items) }
    ensures weight { OnOk result (tasks_weight tasks.new.items ≡ tasks_weight tasks.old.items + task_weight task.entry) }
{
    tasks.push(task)?;
    Ok(())
}

impl<'a> Work<'a> {
    /// Nothing to be done.
    pub fn new(alloc: Global) -> Work<'a>
        ensures tasks { result.tasks.items ≡ [] }
        ensures manner { result.manner ≡ Manner.Normally }
    {
        Work {
            tasks: Vec::new(alloc),
            values: Vec::new(alloc),
            places: Vec::new(alloc),
            manner: Manner::Normally,
            zeros: Vec::new(alloc),
        }
    }

    /// One more value.
    pub fn give(&mut self, value: Value) -> Result<(), AllocError>
        ensures operands { OnOk result (operands self.new ≡ with_value value (operands self.old)) }
        ensures tasks { OnOk result (self.new.tasks.items ≡ self.old.tasks.items) }
    {
        self.values.push(value)?;
        Ok(())
    }

    /// The last value, null where there is none.
    pub fn take_value(&mut self) -> Value
        ensures value { result ≡ top_value (operands self.old) }
        ensures operands { operands self.new ≡ without_value (operands self.old) }
        ensures tasks { self.new.tasks.items ≡ self.old.tasks.items }
    {
        match self.values.pop() {
            Some(value) => value,
            None => Value::Null,
        }
    }

    /// One more place.
    pub fn give_place(&mut self, place: Location) -> Result<(), AllocError>
        ensures operands { OnOk result (operands self.new ≡ with_place place (operands self.old)) }
        ensures tasks { OnOk result (self.new.tasks.items ≡ self.old.tasks.items) }
    {
        self.places.push(place)?;
        Ok(())
    }

    /// The last place, the first local where there is none.
    pub fn take_place(&mut self) -> Location
        ensures place { result ≡ top_place (operands self.old) }
        ensures operands { operands self.new ≡ without_place (operands self.old) }
        ensures tasks { self.new.tasks.items ≡ self.old.tasks.items }
    {
        match self.places.pop() {
            Some(place) => place,
            None => Location::new(Variable::Local(0), 0),
        }
    }

    /// How a statement ended.
    pub fn end(&mut self, manner: Manner)
        ensures operands { operands self.new ≡ with_manner (manner_of manner) (operands self.old) }
        ensures tasks { self.new.tasks.items ≡ self.old.tasks.items }
    {
        self.manner = manner;
    }

    /// The values above a height, in the order in which they came.
    pub fn values_above(&self, height: usize) -> &[Value]
        ensures { result.now ≡ above height (operands self.now) }
    {
        let values = self.values.as_slice();
        if height < values.len() {
            &values[height..]
        } else {
            &[]
        }
    }

    /// The values above a height go.
    pub fn lower(&mut self, height: usize)
        ensures operands { operands self.new ≡ lowered height (operands self.old) }
        ensures tasks { self.new.tasks.items ≡ self.old.tasks.items }
    {
        self.values.truncate(height);
    }
}
