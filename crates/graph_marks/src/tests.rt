use crate::{Graph, Memory, spread};
use std::alloc::Global;
use std::test::Fail;

fn graph_of(alloc: Global, rows: &[&[u32]]) -> Result<Graph, Memory> {
    let mut successors = Vec::new(alloc);
    for row in rows {
        let mut ends = Vec::new(alloc);
        match ends.extend_from_slice(row) {
            Ok(()) => {}
            Err(_) => return Err(Memory),
        }
        match successors.push(ends) {
            Ok(()) => {}
            Err(_) => return Err(Memory),
        }
    }
    Ok(Graph { successors })
}

fn spread_of(
    alloc: Global,
    graph: &Graph,
    seeds: &[bool],
    blocked: &[bool],
) -> Result<Vec<bool>, Memory> {
    let count = graph.successors.len();
    if count > 100 {
        return Err(Memory);
    }
    if seeds.len() != count {
        return Err(Memory);
    }
    if blocked.len() != count {
        return Err(Memory);
    }
    if !graph.is_closed() {
        return Err(Memory);
    }
    spread(alloc, graph, seeds, blocked)
}

// A ring of three with a way out of it, which is blocked at its second vertex.
#[test]
fn marks_stop_at_blocked_vertices(rt: HostRuntime) -> Result<(), Fail> {
    let alloc = rt.alloc();
    let rows: [&[u32]; 6] = [&[1], &[2, 3], &[0], &[4], &[5], &[]];
    let graph = graph_of(alloc, rows.as_slice())?;
    let seeds = [false, false, true, false, false, false];
    let blocked = [false, false, false, false, true, false];
    let marks = spread_of(alloc, &graph, seeds.as_slice(), blocked.as_slice())?;
    assert_eq!(rt;
        marks.as_slice(),
        [true, true, true, true, false, false].as_slice()
    );
    Ok(())
}
