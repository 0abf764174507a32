ghost use Rattle.std.specs.Prelude.{IfErr, OnOk};
ghost use Rattle.clause_db.specs.Assignment.{IsUnsatisfiable};
ghost use Rattle.clause_db.specs.Log.{literal_lists, IsRefutation};
ghost use Rattle.refutation_check.specs.Faults.{IsFirstFault, IsRefusal};

use crate::fault::{LogFault, NOT_EMPTY_AT_END};
use crate::lines::fault_of_line;
use chain_resolution::MarkedClause;
use clause_db::{Clauses, Log};
use std::alloc::Global;

/// Does the log refute the clauses?
pub fn check_log(alloc: Global, clauses: &Clauses, log: &Log) -> Result<(), LogFault>
    ensures refutation { OnOk result (IsRefutation (literal_lists clauses.now.list.items) log.now.lines.items) }
    ensures unsatisfiable { OnOk result (IsUnsatisfiable (literal_lists clauses.now.list.items)) }
    ensures refused { IfErr result (IsRefusal (literal_lists clauses.now.list.items) log.now.lines.items) }
    ensures first_fault { IfErr result (IsFirstFault (literal_lists clauses.now.list.items) log.now.lines.items) }
{
    let mut marks = MarkedClause::new(alloc);
    let total = log.lines.len();
    for index in 0..total {
        match fault_of_line(&mut marks, clauses, &log.lines[..index], &log.lines[index]) {
            Err(_) => return Err(LogFault::Memory),
            Ok(Some(cause)) => return Err(LogFault::Line(index as u64 + 1, cause)),
            Ok(None) => {}
        }
    }
    if total > 0 && log.lines[total - 1].result.literals.is_empty() {
        Ok(())
    } else {
        Err(LogFault::Line(total as u64, NOT_EMPTY_AT_END))
    }
}
