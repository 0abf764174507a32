use core_ir::{Code, Core, CoreObject, CoreOp, JointCore, Shape, Spot, Unit};
use rvt_num::{Kind, Trap, Value};
use sqlite_items::Items;
use std::alloc::Global;
use std::test::Fail;
use touch_sets::touched_by;

fn object(alloc: Global, addressable: bool, starts: &[(u32, u32)]) -> Result<CoreObject, Fail> {
    let cells = [Shape::Word(Kind::I32)];
    Ok(CoreObject {
        cells: Items::from_slice(alloc, cells.as_slice())?,
        starts: Items::from_slice(alloc, starts)?,
        constant: false,
        addressable,
        contents: Items::new(alloc),
    })
}

// A unit with one register, a pointer to type 7, that owns these objects.
fn unit(alloc: Global, owned: &[u32], own_traps: &[Trap], parts: Vec<Code>) -> Result<Unit, Fail> {
    let registers = [Shape::Pointer(7, false)];
    Ok(Unit {
        inputs: Items::new(alloc),
        registers: Items::from_slice(alloc, registers.as_slice())?,
        results: Items::new(alloc),
        owned: Items::from_slice(alloc, owned)?,
        body: Code::Seq(Items::from_vec(parts)),
        fixed: 0,
        branches: 0,
        derefs: 0,
        own_traps: Items::from_slice(alloc, own_traps)?,
    })
}

fn call(alloc: Global, unit: u32) -> Code {
    Code::Call(unit, Items::new(alloc), Items::new(alloc))
}

fn load(alloc: Global, object: u32) -> Code {
    Code::Load(0, Spot::Cell(object, 0, Items::new(alloc)))
}

// `int G; int g(void) { return G; } int f(void) { int a = g(); G = G + 1; return a - g(); }` beside a unit 2 that calls itself and f,
// a unit 3 with an object 1 of its own whose address it gives to unit 4, and unit 4, which stores through a pointer and divides.
fn old_core(alloc: Global) -> Result<Core, Fail> {
    let mut units = Vec::new(alloc);
    let mut parts = Vec::new(alloc);
    parts.push(load(alloc, 0))?;
    units.push(unit(alloc, [].as_slice(), [].as_slice(), parts)?)?;
    let mut parts = Vec::new(alloc);
    parts.push(call(alloc, 0))?;
    units.push(unit(alloc, [].as_slice(), [].as_slice(), parts)?)?;
    let mut parts = Vec::new(alloc);
    parts.push(call(alloc, 2))?;
    parts.push(call(alloc, 1))?;
    units.push(unit(alloc, [].as_slice(), [].as_slice(), parts)?)?;
    let mut parts = Vec::new(alloc);
    parts.push(Code::Set(0, CoreOp::Const(Value::At(1, 0))))?;
    parts.push(call(alloc, 4))?;
    units.push(unit(alloc, [1].as_slice(), [].as_slice(), parts)?)?;
    let mut parts = Vec::new(alloc);
    parts.push(Code::Store(Spot::Through(0, 0, Items::new(alloc)), 0))?;
    units.push(unit(
        alloc,
        [].as_slice(),
        [Trap::Divide, Trap::Null].as_slice(),
        parts,
    )?)?;
    let mut parts = Vec::new(alloc);
    parts.push(call(alloc, 3))?;
    units.push(unit(alloc, [].as_slice(), [].as_slice(), parts)?)?;
    let mut objects = Vec::new(alloc);
    objects.push(object(alloc, false, [(7, 0)].as_slice())?)?;
    objects.push(object(alloc, true, [(7, 0)].as_slice())?)?;
    objects.push(object(alloc, true, [(6, 0), (7, 0)].as_slice())?)?;
    objects.push(object(alloc, true, [(6, 0)].as_slice())?)?;
    Ok(Core {
        units: Items::from_vec(units),
        objects: Items::from_vec(objects),
    })
}

// One unit that names object 3.
fn new_core(alloc: Global) -> Result<Core, Fail> {
    let mut units = Vec::new(alloc);
    let mut parts = Vec::new(alloc);
    parts.push(load(alloc, 3))?;
    units.push(unit(alloc, [].as_slice(), [Trap::Shift].as_slice(), parts)?)?;
    Ok(Core {
        units: Items::from_vec(units),
        objects: Items::new(alloc),
    })
}

#[test]
fn sets_are_the_least_ones(rt: HostRuntime) -> Result<(), Fail> {
    let alloc = rt.alloc();
    let joint = JointCore {
        old: old_core(alloc)?,
        new_side: new_core(alloc)?,
        pairs: Items::from_slice(alloc, [(0, 0, true)].as_slice())?,
    };
    let touch = touched_by(alloc, &joint)?;
    // object by object, the units of the old version that touch it
    let wanted: [&[bool]; 4] = [
        &[true, true, true, false, false, false],
        &[false, false, false, false, true, false],
        &[false, false, false, true, true, true],
        &[true, false, false, false, false, false],
    ];
    for (object, units) in wanted.iter().enumerate() {
        for (unit, touches) in units.iter().enumerate() {
            assert_eq!(rt; touch.touches(true, unit as u32, object as u32), *touches);
        }
    }
    assert!(rt; touch.touches(false, 0, 0));
    assert!(rt; !touch.touches(false, 1, 0));
    assert!(rt; touch.may_trap(true, 0, Trap::Shift));
    assert!(rt; !touch.may_trap(true, 1, Trap::Shift));
    assert!(rt; touch.may_trap(true, 5, Trap::Divide));
    assert!(rt; touch.may_trap(true, 3, Trap::Null));
    assert!(rt; !touch.may_trap(true, 3, Trap::Index));
    let ends = [true, true, false, true, true, true, false];
    for (unit, ends) in ends.iter().enumerate() {
        assert_eq!(rt; touch.always_ends(true, unit as u32), *ends);
    }
    Ok(())
}
