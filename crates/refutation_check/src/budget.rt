ghost use Rattle.std.specs.Prelude.{◌≡◌, ◌≢◌, ℕ, ◌+◌, ◌<◌, ◌≤◌, ◌^◌, [], ◌∷◌, ◌++◌, ◌↔◌, ℤ, List, length, slice_index, All, Contains, IsTrue, IfOk, IfErr, OnOk};
ghost use Rattle.clause_db.specs.Literal.{variable_of, opposite};
ghost use Rattle.clause_db.specs.Log.{literal_lists, results};
ghost use Rattle.clause_db.specs.Propagation.{PropagationRefutes, StrengthensPropagation, IsBudgetLog};
ghost use Rattle.unit_propagation.specs.Status.{FitsVariables};
ghost use Rattle.refutation_check.specs.Budget.{IsBudgetVerdict, IsFirstBudgetFault, IsBudgetRefusal};
ghost use Rattle.refutation_check.specs.Runs.{IsRootRun};

use crate::fault::{LogFault, NOTHING_NEW, OTHER_LENGTH, PROPAGATION_REFUTES};
use crate::halves::is_new_among;
use crate::lines::fault_of_line;
use crate::orders::{hint_of, order_of, use_at, uses_of};
use crate::places::Places;
use crate::tries::take_back;
use chain_resolution::MarkedClause;
use clause_db::{Clauses, Log, LogLine, Memory, largest_variable};
use std::alloc::Global;
use unit_propagation::{Trail, Watches};

/// Does the result of a line tell propagation something new? The literal of one variable is left out first.
fn strengthens(
    alloc: Global,
    clauses: &Clauses,
    before: &[LogLine],
    trail: &mut Trail,
    watches: &mut Watches,
    line: &LogLine,
    last: u64,
) -> Result<bool, Memory>
    requires fits { All (λ l. variable_of l < length trail.old.places.items) line.now.result.literals.items }
    requires run { IsRootRun (literal_lists clauses.now.list.items ++ results before.now) trail.old watches.old }
    ensures run { IfOk result (λ _. IsRootRun (literal_lists clauses.now.list.items ++ results before.now) trail.new watches.new) }
    ensures answer { IfOk result (λ new. IsTrue new ↔ StrengthensPropagation (literal_lists clauses.now.list.items ++ results before.now) line.now.result.literals.items) }
    ensures variables { length trail.new.places.items ≡ length trail.old.places.items }
{
    if line.result.literals.is_empty() {
        return Ok(false);
    }
    match watches.propagate(clauses, before, trail)? {
        Some(_) => return Ok(false),
        None => {}
    }
    let order = order_of(alloc, &line.result, hint_of(clauses, before, line), last)?;
    let all = Places {
        from: 0,
        to: order.literals.len(),
    };
    let new = is_new_among(clauses, before, trail, watches, &order, all)?;
    take_back(trail, watches, 0);
    Ok(new)
}

/// Does propagation alone refute the clauses?
fn is_refuted(clauses: &Clauses, trail: &mut Trail, watches: &mut Watches) -> Result<bool, Memory>
    requires { IsRootRun (literal_lists clauses.now.list.items ++ []) trail.old watches.old }
    ensures run { IfOk result (λ _. IsRootRun (literal_lists clauses.now.list.items ++ []) trail.new watches.new) }
    ensures answer { IfOk result (λ refuted. IsTrue refuted ↔ PropagationRefutes (literal_lists clauses.now.list.items) []) }
    ensures variables { length trail.new.places.items ≡ length trail.old.places.items }
{
    match watches.propagate(clauses, &[], trail)? {
        Some(_) => Ok(true),
        None => Ok(false),
    }
}

/// What is wrong with a line of a budget log, if something is, where these lines stand before it.
fn budget_fault_of_line(
    alloc: Global,
    marks: &mut MarkedClause,
    clauses: &Clauses,
    before: &[LogLine],
    trail: &mut Trail,
    watches: &mut Watches,
    line: &LogLine,
    last: u64,
) -> Result<Option<u16>, Memory>
    requires { IsRootRun (literal_lists clauses.now.list.items ++ results before.now) trail.old watches.old }
    ensures run { IfOk result (λ _. IsRootRun (literal_lists clauses.now.list.items ++ results before.now) trail.new watches.new) }
    ensures verdict { IfOk result (IsBudgetVerdict (literal_lists clauses.now.list.items ++ results before.now) line.now) }
    ensures variables { length trail.new.places.items ≡ length trail.old.places.items }
{
    let fault = fault_of_line(marks, clauses, before, line)?;
    match fault {
        Some(cause) => return Ok(Some(cause)),
        None => {}
    }
    if strengthens(alloc, clauses, before, trail, watches, line, last)? {
        Ok(None)
    } else {
        Ok(Some(NOTHING_NEW))
    }
}

/// A trail on which nothing is known, and the watches of a list of clauses.
fn root_run(alloc: Global, clauses: &Clauses, variables: u64) -> Result<(Trail, Watches), Memory>
    requires bounded { variables < 2 ^ 60 }
    requires fits { FitsVariables (variables + 1) (literal_lists clauses.now.list.items) }
    ensures { IfOk result (λ both. IsRootRun (literal_lists clauses.now.list.items ++ []) both.0 both.1) }
{
    let trail = Trail::new(alloc, variables as usize)?;
    let watches = Watches::over(alloc, clauses, variables as usize)?;
    Ok((trail, watches))
}

/// Has the log as many lines as the limit says, each of which strengthens propagation, over clauses that
/// propagation alone does not refute?
pub fn check_budget(alloc: Global, clauses: &Clauses, log: &Log, limit: u32) -> Result<(), LogFault>
    ensures budget_log { OnOk result (IsBudgetLog (literal_lists clauses.now.list.items) log.now.lines.items limit) }
    ensures refused { IfErr result (IsBudgetRefusal (literal_lists clauses.now.list.items) log.now.lines.items limit) }
    ensures first_fault { IfErr result (IsFirstBudgetFault (literal_lists clauses.now.list.items) log.now.lines.items limit) }
{
    let total = log.lines.len();
    if total != limit as usize {
        return Err(LogFault::Line(0, OTHER_LENGTH));
    }
    let variables = largest_variable(&clauses.list);
    if variables >= 1 << 59 {
        return Err(LogFault::Memory);
    }
    let (mut trail, mut watches) = match root_run(alloc, clauses, variables) {
        Ok(both) => both,
        Err(_) => return Err(LogFault::Memory),
    };
    let refuted = match is_refuted(clauses, &mut trail, &mut watches) {
        Ok(refuted) => refuted,
        Err(_) => return Err(LogFault::Memory),
    };
    if refuted {
        return Err(LogFault::Line(0, PROPAGATION_REFUTES));
    }
    let uses = match uses_of(alloc, clauses, &log.lines) {
        Ok(uses) => uses,
        Err(_) => return Err(LogFault::Memory),
    };
    let mut marks = MarkedClause::new(alloc);
    for index in 0..total {
        match budget_fault_of_line(
            alloc,
            &mut marks,
            clauses,
            &log.lines[..index],
            &mut trail,
            &mut watches,
            &log.lines[index],
            use_at(&uses, index),
        ) {
            Err(_) => return Err(LogFault::Memory),
            Ok(Some(cause)) => return Err(LogFault::Line(index as u64 + 1, cause)),
            Ok(None) => {}
        }
        match watches.add() {
            Ok(()) => {}
            Err(_) => return Err(LogFault::Memory),
        }
    }
    Ok(())
}
