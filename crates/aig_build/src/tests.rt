use crate::Circuit;
use std::test::Fail;

#[test]
fn an_input_and_itself_is_no_gate(rt: HostRuntime) -> Result<(), Fail> {
    let mut circuit = Circuit::new(rt.alloc());
    let x = circuit.input()?;
    let before = circuit.nodes();
    assert_eq!(rt; circuit.and(x, x)?, x);
    assert_eq!(rt; circuit.nodes(), before);
    Ok(())
}

#[test]
fn a_gate_is_shared_and_has_its_value(rt: HostRuntime) -> Result<(), Fail> {
    let mut circuit = Circuit::new(rt.alloc());
    let x = circuit.input()?;
    let y = circuit.input()?;
    assert!(rt; x.node < circuit.nodes());
    let gate = circuit.and(x.opposite(), y)?;
    assert!(rt; x.node < circuit.nodes() && y.node < circuit.nodes());
    assert_eq!(rt; circuit.and(y, x.opposite())?, gate);
    assert_eq!(rt; circuit.nodes(), 4);
    assert!(rt; gate.node < circuit.nodes());
    assert_eq!(rt; circuit.inputs(), 2);
    assert_eq!(rt; circuit.gate(3), Some((x.opposite(), y)));
    let mut scratch = [false; 4];
    assert!(rt; circuit.value(gate, &[false, true], &mut scratch));
    assert!(rt; !circuit.value(gate, &[true, true], &mut scratch));
    Ok(())
}
