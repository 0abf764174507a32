use clause_db::{Clause, Clauses, is_clause, largest_variable};
use sat_search::{Found, search};
use std::alloc::Global;
use std::test::Fail;

fn clause(alloc: Global, literals: &[i64]) -> Result<Clause, Fail> {
    let mut made = Vec::new(alloc);
    made.extend_from_slice(literals)?;
    if !is_clause(&made) {
        return Err("no clause")?;
    }
    Ok(Clause { literals: made })
}

fn list(alloc: Global, all: &[&[i64]]) -> Result<Clauses, Fail> {
    let mut made = Vec::new(alloc);
    for literals in all {
        made.push(clause(alloc, literals)?)?;
    }
    let variables = largest_variable(&made);
    Ok(Clauses {
        list: made,
        variables,
    })
}

#[test]
fn nothing_to_satisfy(rt: HostRuntime) -> Result<(), Fail> {
    let alloc = rt.alloc();
    let clauses = list(alloc, &[])?;
    match search(alloc, &clauses, 10)? {
        Found::Satisfied(values, conflicts) => {
            assert_eq!(rt; conflicts, 0);
            assert_eq!(rt; values.len(), 0);
        }
        _ => assert!(rt; false),
    }
    Ok(())
}

#[test]
fn a_conflict_and_then_an_assignment(rt: HostRuntime) -> Result<(), Fail> {
    let alloc = rt.alloc();
    // 1 is made false first, and that makes 2 both. Then 2 is decided as it was last.
    let clauses = list(alloc, &[&[1, 2], &[1, -2], &[-1, 3]])?;
    match search(alloc, &clauses, 2)? {
        Found::Satisfied(values, conflicts) => {
            assert_eq!(rt; conflicts, 1);
            assert_eq!(rt; values.as_slice(), [true, true, true].as_slice());
        }
        _ => assert!(rt; false),
    }
    match search(alloc, &clauses, 1)? {
        Found::Budget(log) => assert_eq!(rt; log.lines.len(), 1),
        _ => assert!(rt; false),
    }
    Ok(())
}
