use clause_db::{Clause, Clauses, is_clause, largest_variable};
use refutation_check::{check_budget, check_log};
use sat_search::{Found, search};
use std::alloc::Global;
use std::test::Fail;

fn clause(literals: Vec<i64>) -> Result<Clause, Fail> {
    if !is_clause(&literals) {
        return Err("no clause")?;
    }
    Ok(Clause { literals })
}

fn list(alloc: Global, all: &[&[i64]]) -> Result<Clauses, Fail> {
    let mut made = Vec::new(alloc);
    for literals in all {
        made.push(clause(literals.to_vec(alloc)?)?)?;
    }
    Ok(over_its_variables(made))
}

fn over_its_variables(list: Vec<Clause>) -> Clauses {
    let variables = largest_variable(&list);
    Clauses { list, variables }
}

/// What a search came to, once its log is checked.
#[derive(Clone, Copy, Debug, PartialEq, Eq)]
enum Outcome {
    Satisfied,
    Refuted,
    Budget,
}

fn checked(alloc: Global, clauses: &Clauses, limit: u32) -> Result<Outcome, Fail> {
    if limit == 0 {
        return Err("no conflict is allowed")?;
    }
    match search(alloc, clauses, limit)? {
        Found::Satisfied(_, _) => Ok(Outcome::Satisfied),
        Found::Refuted(log) => {
            if check_log(alloc, clauses, &log) != Ok(()) {
                return Err("the refutation is not accepted")?;
            }
            Ok(Outcome::Refuted)
        }
        Found::Budget(log) => {
            if check_budget(alloc, clauses, &log, limit) != Ok(()) {
                return Err("the budget log is not accepted")?;
            }
            Ok(Outcome::Budget)
        }
    }
}

/// The variable for a pigeon in a hole, of at most 8.
fn variable_of(pigeon: u8, hole: u8) -> i64 {
    1 + i64::from(pigeon) * 8 + i64::from(hole)
}

fn not_both(alloc: Global, first: u8, second: u8, hole: u8) -> Result<Clause, Fail> {
    let mut literals = Vec::new(alloc);
    literals.push(-1 - i64::from(first) * 8 - i64::from(hole))?;
    literals.push(-1 - i64::from(second) * 8 - i64::from(hole))?;
    clause(literals)
}

fn some_hole(alloc: Global, pigeon: u8, holes: u8) -> Result<Clause, Fail> {
    let mut literals = Vec::new(alloc);
    for hole in 0..holes {
        literals.push(variable_of(pigeon, hole))?;
    }
    clause(literals)
}

/// Each of some pigeons has a hole, and no two have the same one. There is a pigeon more than holes.
fn pigeons(alloc: Global, holes: u8) -> Result<Clauses, Fail> {
    let mut made = Vec::new(alloc);
    for pigeon in 0..=holes {
        made.push(some_hole(alloc, pigeon, holes)?)?;
    }
    for hole in 0..holes {
        for second in 1..=holes {
            for first in 0..second {
                made.push(not_both(alloc, first, second, hole)?)?;
            }
        }
    }
    Ok(over_its_variables(made))
}

#[test]
fn small_lists(rt: HostRuntime) -> Result<(), Fail> {
    let alloc = rt.alloc();
    let refuted = list(alloc, &[&[1], &[-1, 2], &[-2]])?;
    assert_eq!(rt; checked(alloc, &refuted, 10)?, Outcome::Refuted);
    assert_eq!(rt; checked(alloc, &refuted, 1)?, Outcome::Refuted);
    let empty_clause = list(alloc, &[&[1], &[]])?;
    assert_eq!(rt; checked(alloc, &empty_clause, 10)?, Outcome::Refuted);
    let nothing = list(alloc, &[])?;
    assert_eq!(rt; checked(alloc, &nothing, 1)?, Outcome::Satisfied);
    Ok(())
}

#[test]
fn pigeons_have_no_room(rt: HostRuntime) -> Result<(), Fail> {
    let alloc = rt.alloc();
    for holes in 1..=5 {
        let clauses = pigeons(alloc, holes)?;
        assert_eq!(rt;
            checked(alloc, &clauses, 100000)?,
            Outcome::Refuted,
            "{holes} holes"
        );
    }
    Ok(())
}

#[test]
fn budgets_are_spent(rt: HostRuntime) -> Result<(), Fail> {
    let alloc = rt.alloc();
    let clauses = pigeons(alloc, 4)?;
    for limit in 1..=12 {
        assert_eq!(rt;
            checked(alloc, &clauses, limit)?,
            Outcome::Budget,
            "{limit} conflicts"
        );
    }
    Ok(())
}

/// Clauses of three of eight variables, drawn at random. Going through all assignments (in Python) says which
/// lists can be satisfied.
#[test]
fn random_lists(rt: HostRuntime) -> Result<(), Fail> {
    let alloc = rt.alloc();
    let satisfiable = list(
        alloc,
        &[
            &[-2, 4, -6],
            &[-1, 5, 6],
            &[1, 2, -7],
            &[-2, -6, -8],
            &[1, -2, 7],
            &[-1, -3, -5],
            &[-2, 5, -7],
            &[-1, 2, -5],
            &[-4, 5, 6],
            &[2, 3, 6],
            &[4, -6, 8],
            &[2, 3, 7],
            &[-2, -5, 7],
            &[-4, 5, -6],
            &[-4, 5, -6],
            &[3, -6, 8],
            &[-2, 3, 8],
            &[2, 5, -6],
            &[2, 4, 8],
            &[5, 7, 8],
            &[2, 7, -8],
            &[1, 4, 5],
            &[5, 6, -7],
            &[-1, 4, 6],
            &[2, 4, -6],
            &[1, 2, 8],
            &[-1, -3, 5],
            &[4, 5, 8],
            &[1, 4, -6],
            &[3, 4, 8],
            &[4, 5, -6],
            &[-2, 6, -8],
            &[-2, -3, 6],
            &[-4, 5, 7],
            &[-2, -4, 7],
            &[3, 6, 8],
        ],
    )?;
    assert_eq!(rt; checked(alloc, &satisfiable, 10000)?, Outcome::Satisfied);
    let also_satisfiable = list(
        alloc,
        &[
            &[-2, 5, -6],
            &[1, 3, 6],
            &[-4, -5, 8],
            &[6, -7, -8],
            &[2, -4, 8],
            &[-4, 7, 8],
            &[-1, 2, -3],
            &[3, -6, 8],
            &[-2, 5, -6],
            &[1, -3, -4],
            &[3, 5, -6],
            &[-4, -6, 8],
            &[-2, 3, 5],
            &[-1, 3, 5],
            &[1, -2, -5],
            &[1, 2, -5],
            &[-1, -5, 8],
            &[3, -4, 6],
            &[-4, -5, 6],
            &[4, 7, 8],
            &[2, 6, 8],
            &[-2, -7, 8],
            &[2, -4, 5],
            &[-2, 6, 8],
            &[3, 4, -7],
            &[1, -3, 5],
            &[1, -5, 8],
            &[1, -2, 3],
            &[-3, -4, -7],
            &[-2, -5, -7],
            &[-1, 2, -3],
            &[1, 5, -6],
            &[-1, 3, 4],
            &[3, -5, 7],
            &[2, 3, 8],
            &[2, -5, 8],
        ],
    )?;
    assert_eq!(rt;
        checked(alloc, &also_satisfiable, 10000)?,
        Outcome::Satisfied
    );
    let unsatisfiable = list(
        alloc,
        &[
            &[-1, -3, 8],
            &[-2, -3, 6],
            &[2, 5, -8],
            &[1, -3, -7],
            &[-1, -4, -5],
            &[-1, -4, -6],
            &[4, 5, 6],
            &[4, 5, -6],
            &[2, -4, -8],
            &[3, 4, 7],
            &[-1, -4, 6],
            &[1, -3, 6],
            &[2, 6, -7],
            &[-2, 7, -8],
            &[-3, 6, 7],
            &[-2, 3, -5],
            &[-3, 5, -8],
            &[3, 4, 7],
            &[-3, 5, -6],
            &[2, -5, -7],
            &[-5, -7, 8],
            &[3, -6, -7],
            &[1, 3, -6],
            &[1, -3, -5],
            &[-1, 6, 8],
            &[4, 5, 7],
            &[1, 7, 8],
            &[2, 5, 6],
            &[4, 5, -6],
            &[1, 3, -4],
            &[-3, 4, -5],
            &[-5, -6, -8],
            &[-2, 7, -8],
            &[2, -7, 8],
            &[2, -4, -8],
            &[5, 7, 8],
        ],
    )?;
    assert_eq!(rt; checked(alloc, &unsatisfiable, 10000)?, Outcome::Refuted);
    let also_unsatisfiable = list(
        alloc,
        &[
            &[1, -4, 7],
            &[4, 5, 6],
            &[1, -6, -7],
            &[-2, -7, -8],
            &[-2, 4, 6],
            &[-2, -4, -8],
            &[4, 5, -7],
            &[-3, 6, 8],
            &[-1, 2, -3],
            &[3, -4, -5],
            &[-1, -5, -8],
            &[4, -6, 7],
            &[2, 5, 6],
            &[1, -7, -8],
            &[3, 5, 6],
            &[4, 7, -8],
            &[2, -6, -7],
            &[-3, -6, -8],
            &[-3, -5, 8],
            &[3, 4, 6],
            &[-1, -3, 4],
            &[3, -4, 5],
            &[-2, 3, -6],
            &[-2, 6, -7],
            &[-1, 2, 8],
            &[2, 3, -7],
            &[4, -5, -8],
            &[-2, -5, 6],
            &[-1, 4, -5],
            &[2, 3, 4],
            &[-1, -4, 7],
            &[-3, 5, -7],
            &[5, 6, 8],
            &[4, -6, -7],
            &[1, -5, -8],
            &[2, -4, 5],
        ],
    )?;
    assert_eq!(rt;
        checked(alloc, &also_unsatisfiable, 10000)?,
        Outcome::Refuted
    );
    Ok(())
}
