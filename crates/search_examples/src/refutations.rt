use clause_db::{Clause, Clauses, Log, LogLine, is_clause};
use refutation_check::{LogFault, check_budget, check_log};
use std::alloc::Global;
use std::test::Fail;

fn clause(alloc: Global, literals: &[i64]) -> Result<Clause, Fail> {
    let mut made = Vec::new(alloc);
    made.extend_from_slice(literals)?;
    if !is_clause(&made) {
        return Err("no clause")?;
    }
    Ok(Clause { literals: made })
}

fn list(alloc: Global, variables: u64, all: &[&[i64]]) -> Result<Clauses, Fail> {
    let mut made = Vec::new(alloc);
    for literals in all {
        made.push(clause(alloc, literals)?)?;
    }
    Ok(Clauses {
        list: made,
        variables,
    })
}

fn one_line(
    alloc: Global,
    first: u64,
    pivots: &[(u64, u64)],
    literals: &[i64],
) -> Result<Log, Fail> {
    let mut made = Vec::new(alloc);
    made.extend_from_slice(pivots)?;
    let mut lines = Vec::new(alloc);
    lines.push(LogLine {
        first,
        pivots: made,
        result: clause(alloc, literals)?,
    })?;
    Ok(Log { lines })
}

/// The list of 1; of -1 and 2; of -2, which a log of one line refutes.
fn refuted_list(alloc: Global) -> Result<Clauses, Fail> {
    list(alloc, 2, &[&[1], &[-1, 2], &[-2]])
}

#[test]
fn a_refutation_is_accepted(rt: HostRuntime) -> Result<(), Fail> {
    let alloc = rt.alloc();
    let clauses = refuted_list(alloc)?;
    let log = one_line(alloc, 1, &[(1, 2), (2, 3)], &[])?;
    assert_eq!(rt; check_log(alloc, &clauses, &log), Ok(()));
    assert_eq!(rt;
        check_budget(alloc, &clauses, &log, 1),
        Err(LogFault::Line(0, 57)),
        "propagation refutes this list"
    );
    Ok(())
}

#[test]
fn faults_of_a_refutation(rt: HostRuntime) -> Result<(), Fail> {
    let alloc = rt.alloc();
    let clauses = refuted_list(alloc)?;
    let no_clause = one_line(alloc, 4, &[(1, 2), (2, 3)], &[])?;
    assert_eq!(rt;
        check_log(alloc, &clauses, &no_clause),
        Err(LogFault::Line(1, 51))
    );
    let wrong_pivot = one_line(alloc, 1, &[(2, 2), (2, 3)], &[])?;
    assert_eq!(rt;
        check_log(alloc, &clauses, &wrong_pivot),
        Err(LogFault::Line(1, 52))
    );
    let other_result = one_line(alloc, 1, &[(1, 2), (2, 3)], &[2])?;
    assert_eq!(rt;
        check_log(alloc, &clauses, &other_result),
        Err(LogFault::Line(1, 53))
    );
    let not_empty = one_line(alloc, 1, &[(1, 2)], &[2])?;
    assert_eq!(rt;
        check_log(alloc, &clauses, &not_empty),
        Err(LogFault::Line(1, 54))
    );
    let no_line = Log {
        lines: Vec::new(alloc),
    };
    assert_eq!(rt;
        check_log(alloc, &clauses, &no_line),
        Err(LogFault::Line(0, 54))
    );
    Ok(())
}

#[test]
fn two_variables_with_opposite_signs(rt: HostRuntime) -> Result<(), Fail> {
    let alloc = rt.alloc();
    let clauses = list(alloc, 2, &[&[1, 2], &[-1, -2]])?;
    let empty = one_line(alloc, 1, &[(1, 2)], &[])?;
    assert_eq!(rt;
        check_log(alloc, &clauses, &empty),
        Err(LogFault::Line(1, 52))
    );
    let both = one_line(alloc, 1, &[(1, 2)], &[2])?;
    assert_eq!(rt;
        check_log(alloc, &clauses, &both),
        Err(LogFault::Line(1, 52))
    );
    Ok(())
}

#[test]
fn a_budget_log_is_accepted(rt: HostRuntime) -> Result<(), Fail> {
    let alloc = rt.alloc();
    let clauses = list(alloc, 2, &[&[1, 2], &[-1, 2]])?;
    let log = one_line(alloc, 1, &[(1, 2)], &[2])?;
    assert_eq!(rt; check_budget(alloc, &clauses, &log, 1), Ok(()));
    assert_eq!(rt;
        check_budget(alloc, &clauses, &log, 2),
        Err(LogFault::Line(0, 56))
    );
    let known_clause = one_line(alloc, 1, &[], &[1, 2])?;
    assert_eq!(rt;
        check_budget(alloc, &clauses, &known_clause, 1),
        Err(LogFault::Line(1, 55))
    );
    Ok(())
}

#[test]
fn what_propagation_has_is_nothing_new(rt: HostRuntime) -> Result<(), Fail> {
    let alloc = rt.alloc();
    let clauses = list(alloc, 3, &[&[-1, 2], &[-2, 3]])?;
    let log = one_line(alloc, 1, &[(2, 2)], &[-1, 3])?;
    assert_eq!(rt;
        check_budget(alloc, &clauses, &log, 1),
        Err(LogFault::Line(1, 55))
    );
    Ok(())
}
