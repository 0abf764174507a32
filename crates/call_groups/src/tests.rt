use crate::groups;
use core_ir::{Code, Core, JointCore, Unit};
use sqlite_items::Items;
use std::alloc::Global;
use std::test::Fail;

// A unit that calls these, in order.
fn unit(alloc: Global, callees: &[u32]) -> Result<Unit, Fail> {
    let mut parts = Vec::new(alloc);
    for callee in callees {
        parts.push(Code::Call(*callee, Items::new(alloc), Items::new(alloc)))?;
    }
    Ok(Unit {
        inputs: Items::new(alloc),
        registers: Items::new(alloc),
        results: Items::new(alloc),
        owned: Items::new(alloc),
        body: Code::Seq(Items::from_vec(parts)),
        fixed: 0,
        branches: 0,
        derefs: 0,
        own_traps: Items::new(alloc),
    })
}

fn core(alloc: Global, calls: &[&[u32]]) -> Result<Core, Fail> {
    let mut units = Vec::new(alloc);
    for callees in calls {
        units.push(unit(alloc, callees)?)?;
    }
    Ok(Core {
        units: Items::from_vec(units),
        objects: Items::new(alloc),
    })
}

// The first pair calls the second in the old version, the second calls the first in the new one, and the third calls both and a unit
// that stands in no pair.
#[test]
fn calls_of_both_versions_count(rt: HostRuntime) -> Result<(), Fail> {
    let alloc = rt.alloc();
    let old: [&[u32]; 4] = [&[1], &[], &[], &[0, 2]];
    let new: [&[u32]; 3] = [&[0, 1], &[2], &[]];
    let joint = JointCore {
        old: core(alloc, old.as_slice())?,
        new_side: core(alloc, new.as_slice())?,
        pairs: Items::from_slice(alloc, [(3, 0, true), (0, 2, true), (1, 1, true)].as_slice())?,
    };
    let groups = groups(alloc, &joint)?;
    assert_eq!(rt; groups.len(), 2);
    for (group, size) in groups.iter().zip([2, 1].iter()) {
        assert_eq!(rt; group.len(), *size);
    }
    assert!(rt; groups[1].contains(&0));
    Ok(())
}
