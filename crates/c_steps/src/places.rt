//! Tasks on places: what they hold, and what they get (C 6.3.2.1, 6.5.16).

ghost use Rattle.std.specs.Prelude.{◌≡◌, OnOk};
ghost use Rattle.c_tasks.specs.Operands.{operands, top_place};
ghost use Rattle.c_tasks.specs.Tasks.{step, Becomes};
ghost use Rattle.c_tasks.specs.declared.tasks.Task.TheVariants as T;
ghost use Rattle.c_steps.specs.Steps.{Does};
ghost use Rattle.c_steps.specs.declared.progress.Progress.TheVariants.{GoesOn as goes_on};

use c_places::{Cells, Layouts, Location};
use c_tasks::Work;
use rvt_tree::Variable;
use std::alloc::AllocError;

/// The value at a place.
pub fn load(layouts: &Layouts, cells: &Cells, work: &mut Work) -> Result<(), AllocError>
    ensures next { OnOk result (Does layouts.now (λ d. step layouts.now d T.Load) work.old cells.now goes_on work.new cells.now) }
    ensures tasks { OnOk result (work.new.tasks.items ≡ work.old.tasks.items) }
{
    let place = work.take_place();
    work.give(cells.read(layouts, place))?;
    Ok(())
}

/// The value at a place, where the place stays.
pub fn fetch(layouts: &Layouts, cells: &Cells, work: &mut Work) -> Result<(), AllocError>
    ensures next { OnOk result (Does layouts.now (λ d. step layouts.now d T.Fetch) work.old cells.now goes_on work.new cells.now) }
    ensures tasks { OnOk result (work.new.tasks.items ≡ work.old.tasks.items) }
{
    let place = last_place(work);
    work.give(cells.read(layouts, place))?;
    Ok(())
}

/// The last place, the first local where there is none.
fn last_place(work: &Work) -> Location
    ensures { result ≡ top_place (operands work.now) }
{
    match work.places.last() {
        Some(place) => *place,
        None => Location::new(Variable::Local(0), 0),
    }
}

/// A value goes into a place.
pub fn store(layouts: &Layouts, cells: &mut Cells, work: &mut Work)
    ensures next { Does layouts.now (λ d. step layouts.now d T.Store) work.old cells.old goes_on work.new cells.new }
    ensures tasks { work.new.tasks.items ≡ work.old.tasks.items }
{
    let value = work.take_value();
    let place = work.take_place();
    cells.write(layouts, place, value);
}

/// The pointer to a place.
pub fn point(work: &mut Work) -> Result<(), AllocError>
    ensures next { OnOk result (Becomes (λ program d. step program d T.Point) work.old work.new) }
    ensures tasks { OnOk result (work.new.tasks.items ≡ work.old.tasks.items) }
{
    let place = work.take_place();
    work.give(place.pointer())?;
    Ok(())
}

/// The place of a member.
pub fn member(work: &mut Work, cell: u32) -> Result<(), AllocError>
    ensures next { OnOk result (Becomes (λ program d. step program d (T.Member cell)) work.old work.new) }
    ensures tasks { OnOk result (work.new.tasks.items ≡ work.old.tasks.items) }
{
    let aggregate = work.take_place();
    let place = aggregate.beyond(cell)?;
    work.give_place(place)?;
    Ok(())
}
