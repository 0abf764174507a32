use aig_build::Circuit;
use cnf_make::clauses;
use std::test::Fail;

#[test]
fn one_gate(rt: HostRuntime) -> Result<(), Fail> {
    let mut circuit = Circuit::new(rt.alloc());
    let x = circuit.input()?;
    let y = circuit.input()?;
    assert!(rt; x.node < circuit.nodes());
    let bad = circuit.and(x.opposite(), y)?;
    assert!(rt; bad.node < circuit.nodes());
    let made = clauses(rt.alloc(), &circuit, bad)?;
    assert_eq!(rt; made.variables, 4);
    assert_eq!(rt; made.list.len(), 5);
    assert_eq!(rt; made.list[0].literals.as_slice(), [1].as_slice());
    assert_eq!(rt; made.list[1].literals.as_slice(), [-2, -4].as_slice());
    assert_eq!(rt; made.list[2].literals.as_slice(), [3, -4].as_slice());
    assert_eq!(rt; made.list[3].literals.as_slice(), [2, -3, 4].as_slice());
    assert_eq!(rt; made.list[4].literals.as_slice(), [4].as_slice());
    Ok(())
}
