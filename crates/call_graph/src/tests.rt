use crate::{Graph, Memory, components};
use std::alloc::Global;
use std::test::Fail;

fn graph_of(alloc: Global, rows: &[&[u32]]) -> Result<Graph, Memory> {
    let mut successors = Vec::new(alloc);
    for row in rows {
        let mut ends = Vec::new(alloc);
        match ends.extend_from_slice(row) {
            Ok(()) => {}
            Err(_) => return Err(Memory),
        }
        match successors.push(ends) {
            Ok(()) => {}
            Err(_) => return Err(Memory),
        }
    }
    Ok(Graph { successors })
}

fn components_of(alloc: Global, graph: &Graph) -> Result<Vec<Vec<u32>>, Memory> {
    if graph.successors.len() > 100 {
        return Err(Memory);
    }
    if !graph.is_closed() {
        return Err(Memory);
    }
    components(alloc, graph)
}

// Eight vertices in three components, from a textbook's figure: the last two reach each other and nothing else.
#[test]
fn groups_come_bottom_up(rt: HostRuntime) -> Result<(), Fail> {
    let alloc = rt.alloc();
    let rows: [&[u32]; 8] = [
        &[1],
        &[2, 4, 5],
        &[3, 6],
        &[2, 7],
        &[0, 5],
        &[6],
        &[5],
        &[3, 6],
    ];
    let graph = graph_of(alloc, rows.as_slice())?;
    let groups = components_of(alloc, &graph)?;
    assert_eq!(rt; groups.len(), 3);
    let wanted: [&[u32]; 3] = [&[5, 6], &[2, 3, 7], &[0, 1, 4]];
    for (group, members) in groups.iter().zip(wanted.iter()) {
        assert_eq!(rt; group.len(), members.len());
        for member in *members {
            assert!(rt; group.contains(member));
        }
    }
    Ok(())
}
