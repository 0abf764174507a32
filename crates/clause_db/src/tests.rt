use crate::{Clause, Clauses, Log, LogLine, Replay, clause_at, is_clause, largest_variable};
use std::alloc::Global;
use std::test::Fail;

fn clause(alloc: Global, literals: &[i64]) -> Result<Clause, Fail> {
    let mut made = Vec::new(alloc);
    made.extend_from_slice(literals)?;
    if !is_clause(&made) {
        return Err("no clause")?;
    }
    Ok(Clause { literals: made })
}

#[test]
fn room_for_a_clause(rt: HostRuntime) -> Result<(), Fail> {
    let made = Clause::with_room(rt.alloc(), 3)?;
    assert_eq!(rt; made.literals.len(), 0);
    assert!(rt; made.literals.capacity() >= 3);
    Ok(())
}

#[test]
fn a_resolvent(rt: HostRuntime) -> Result<(), Fail> {
    let alloc = rt.alloc();
    let a = clause(alloc, &[-1, 2, 5])?;
    let b = clause(alloc, &[-2, 3, 5])?;
    let mut replay = Replay::new(alloc);
    replay.start(&a)?;
    assert!(rt; replay.resolve_with(&b, 2)?);
    assert_eq!(rt; replay.current.literals.as_slice(), [-1, 3, 5].as_slice());
    // The variable 4 stands in neither clause.
    assert!(rt; !replay.resolve_with(&b, 4)?);
    assert_eq!(rt; replay.current.literals.as_slice(), [-1, 3, 5].as_slice());
    Ok(())
}

#[test]
fn numbers_of_clauses(rt: HostRuntime) -> Result<(), Fail> {
    let alloc = rt.alloc();
    let mut list = Vec::new(alloc);
    list.push(clause(alloc, &[7])?)?;
    let clauses = Clauses { list, variables: 8 };
    let mut lines = Vec::new(alloc);
    lines.push(LogLine {
        first: 1,
        pivots: Vec::new(alloc),
        result: clause(alloc, &[8])?,
    })?;
    let log = Log { lines };
    assert_eq!(rt; largest_variable(&clauses.list), 7);
    let second = clause_at(&clauses, &log.lines, 2).ok_or("no clause")?;
    assert_eq!(rt; second.literals.as_slice(), [8].as_slice());
    assert!(rt; clause_at(&clauses, &log.lines, 3).is_none());
    Ok(())
}

#[test]
fn what_is_no_clause(rt: HostRuntime) {
    assert!(rt; is_clause(&[]));
    assert!(rt; is_clause(&[-1, 2, i64::MAX]));
    assert!(rt; !is_clause(&[0, 1]));
    assert!(rt; !is_clause(&[1, -1]));
    assert!(rt; !is_clause(&[i64::MIN]));
}
