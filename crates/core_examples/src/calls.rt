use core_ir::{Code, Core, Unit, all_calls, calls_of};
use sqlite_items::{Boxed, Items};
use std::alloc::Global;
use std::test::Fail;

fn call(alloc: Global, unit: u32) -> Code {
    Code::Call(unit, Items::new(alloc), Items::new(alloc))
}

// It calls 7, then 3 or 5 by a choice, then 7 again.
fn body(alloc: Global) -> Result<Code, Fail> {
    let yes = Boxed::new(alloc, call(alloc, 3))?;
    let no = Boxed::new(alloc, call(alloc, 5))?;
    let mut parts = Vec::new(alloc);
    parts.push(call(alloc, 7))?;
    parts.push(Code::If(0, yes, no))?;
    parts.push(call(alloc, 7))?;
    Ok(Code::Seq(Items::from_vec(parts)))
}

fn core(alloc: Global) -> Result<Core, Fail> {
    let unit = Unit {
        inputs: Items::new(alloc),
        registers: Items::new(alloc),
        results: Items::new(alloc),
        owned: Items::new(alloc),
        body: body(alloc)?,
        fixed: 0,
        branches: 1,
        derefs: 0,
        own_traps: Items::new(alloc),
    };
    let mut units = Vec::new(alloc);
    units.push(unit)?;
    Ok(Core {
        units: Items::from_vec(units),
        objects: Items::new(alloc),
    })
}

#[test]
fn calls_come_in_order(rt: HostRuntime) -> Result<(), Fail> {
    let alloc = rt.alloc();
    let core = core(alloc)?;
    assert_eq!(rt;
        all_calls(alloc, &core, 0)?.as_slice(),
        [7, 3, 5, 7].as_slice()
    );
    assert_eq!(rt; calls_of(&core, 0, 2), Some(5));
    assert_eq!(rt; calls_of(&core, 0, 4), None);
    assert_eq!(rt; calls_of(&core, 1, 0), None);
    Ok(())
}
