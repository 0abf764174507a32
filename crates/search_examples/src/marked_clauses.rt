use chain_resolution::MarkedClause;
use clause_db::{Clause, is_clause};
use std::alloc::Global;
use std::test::Fail;

fn clause(alloc: Global, literals: &[i64]) -> Result<Clause, Fail> {
    let mut made = Vec::new(alloc);
    made.extend_from_slice(literals)?;
    if !is_clause(&made) {
        return Err("no clause")?;
    }
    Ok(Clause { literals: made })
}

#[test]
fn a_chain(rt: HostRuntime) -> Result<(), Fail> {
    let alloc = rt.alloc();
    let mut marks = MarkedClause::new(alloc);
    marks.start(&clause(alloc, &[-1, 2, 5])?)?;
    assert!(rt; marks.resolve_with(&clause(alloc, &[-2, 3, 5])?, 2)?);
    assert!(rt; marks.is(&clause(alloc, &[-1, 3, 5])?));
    // The variable 4 stands in neither clause.
    assert!(rt; !marks.resolve_with(&clause(alloc, &[-2, 3, 5])?, 4)?);
    assert!(rt; !marks.is(&clause(alloc, &[-1, 3])?));
    assert!(rt; !marks.is(&clause(alloc, &[-1, 3, -5])?));
    marks.start(&clause(alloc, &[-7])?)?;
    assert!(rt; marks.has(-7));
    assert!(rt; marks.is(&clause(alloc, &[-7])?));
    Ok(())
}
