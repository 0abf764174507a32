use clause_db::{Clause, Clauses, is_clause, largest_variable};
use std::alloc::Global;
use std::test::Fail;
use unit_propagation::{Trail, Value, Watches};

fn clause(alloc: Global, literals: &[i64]) -> Result<Clause, Fail> {
    let mut made = Vec::new(alloc);
    made.extend_from_slice(literals)?;
    if !is_clause(&made) {
        return Err("no clause")?;
    }
    Ok(Clause { literals: made })
}

fn list(alloc: Global, all: &[&[i64]]) -> Result<Clauses, Fail> {
    let mut made = Vec::new(alloc);
    for literals in all {
        made.push(clause(alloc, literals)?)?;
    }
    let variables = largest_variable(&made);
    Ok(Clauses {
        list: made,
        variables,
    })
}

fn propagated(alloc: Global, clauses: &Clauses) -> Result<(Trail, Option<u64>), Fail> {
    let variables = largest_variable(&clauses.list);
    if variables >= 1 << 59 {
        return Err("too many variables")?;
    }
    let mut trail = Trail::new(alloc, variables as usize)?;
    let mut watches = Watches::over(alloc, clauses, variables as usize)?;
    let found = watches.propagate(clauses, &[], &mut trail)?;
    Ok((trail, found))
}

#[test]
fn what_clauses_force(rt: HostRuntime) -> Result<(), Fail> {
    let alloc = rt.alloc();
    // The clause that forces 2 stands before the one that forces 1.
    let clauses = list(alloc, &[&[-1, 2], &[1], &[-2, 3, 4]])?;
    let (trail, found) = propagated(alloc, &clauses)?;
    assert_eq!(rt; found, None);
    assert_eq!(rt; trail.literals.as_slice(), [1, 2].as_slice());
    Ok(())
}

#[test]
fn a_clause_that_comes_false(rt: HostRuntime) -> Result<(), Fail> {
    let alloc = rt.alloc();
    let clauses = list(alloc, &[&[1], &[-1, 2], &[-2]])?;
    let (_trail, found) = propagated(alloc, &clauses)?;
    assert_eq!(rt; found, Some(2));
    Ok(())
}

#[test]
fn a_decision_taken_back(rt: HostRuntime) -> Result<(), Fail> {
    let alloc = rt.alloc();
    let mut trail = Trail::new(alloc, 3)?;
    trail.open_level()?;
    trail.push(-2, 0)?;
    assert_eq!(rt; trail.value(-2), Value::True);
    assert_eq!(rt; trail.value(2), Value::False);
    assert_eq!(rt; trail.value(3), Value::Free);
    trail.cut(0);
    assert_eq!(rt; trail.value(2), Value::Free);
    assert_eq!(rt; trail.literals.len(), 0);
    Ok(())
}
