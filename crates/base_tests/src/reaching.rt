//! Graphs: small tables whose answers were worked out by hand, and chains of 100,000 nodes, which would exhaust a recursion.
use graphs::{
    Edge, Seed, bridge, bridge_both_ways, components, cycles_return, on_cycle, postorder, reach,
    reach64,
};
use std::alloc::{AllocError, Global};
use std::test::Fail;

const LONG: usize = 100_000;

fn edge(from: usize, to: usize) -> Edge {
    Edge { from, to }
}

fn count(marked: &[bool]) -> usize {
    marked.iter().filter(|m| **m).count()
}

/// An edge from each node to the next.
fn upward(alloc: Global) -> Result<Vec<Edge>, AllocError> {
    let mut edges = Vec::new(alloc);
    for i in 1..LONG {
        edges.push(edge(i - 1, i))?;
    }
    Ok(edges)
}

/// An edge to each node from the next.
fn downward(alloc: Global) -> Result<Vec<Edge>, AllocError> {
    let mut edges = Vec::new(alloc);
    for i in 1..LONG {
        edges.push(edge(i, i - 1))?;
    }
    Ok(edges)
}

#[test]
fn reached_by_hand(rt: HostRuntime) -> Result<(), Fail> {
    let edges = [
        edge(0, 1),
        edge(1, 2),
        edge(2, 0),
        edge(3, 2),
        edge(7, 3),
        edge(1, 9),
    ];
    let marked = reach(rt.alloc(), 5, &edges, &[1, 8])?;
    assert_eq!(rt;
        marked.as_slice(),
        [true, true, true, false, false].as_slice()
    );
    let none = reach(rt.alloc(), 3, &edges, &[])?;
    assert_eq!(rt; none.as_slice(), [false, false, false].as_slice());
    let empty = reach(rt.alloc(), 0, &edges, &[0])?;
    assert_eq!(rt; empty.len(), 0);
    Ok(())
}

#[test]
fn reached_along_chains(rt: HostRuntime) -> Result<(), Fail> {
    let up = upward(rt.alloc())?;
    let all = reach(rt.alloc(), LONG, &up, &[0])?;
    assert_eq!(rt; count(&all), LONG);
    let down = downward(rt.alloc())?;
    let some = reach(rt.alloc(), LONG, &down, &[9])?;
    assert_eq!(rt; count(&some), 10);
    Ok(())
}

#[test]
fn marks_by_hand(rt: HostRuntime) -> Result<(), Fail> {
    let edges = [
        edge(0, 1),
        edge(1, 2),
        edge(2, 0),
        edge(3, 2),
        edge(7, 3),
        edge(3, 9),
    ];
    let seeds = [
        Seed { node: 0, marks: 1 },
        Seed { node: 3, marks: 6 },
        Seed {
            node: 4,
            marks: 1 << 63,
        },
        Seed { node: 8, marks: 8 },
    ];
    let marks = reach64(rt.alloc(), 5, &edges, &seeds)?;
    assert_eq!(rt; marks.as_slice(), [7, 7, 7, 6, 1 << 63].as_slice());
    Ok(())
}

#[test]
fn orders_by_hand(rt: HostRuntime) -> Result<(), Fail> {
    let edges = [edge(0, 1), edge(0, 2), edge(2, 1), edge(1, 3), edge(9, 0)];
    let order = postorder(rt.alloc(), 4, &edges)?;
    assert_eq!(rt; order.as_slice(), [3, 1, 2, 0].as_slice());
    let up = postorder(rt.alloc(), LONG, &upward(rt.alloc())?)?;
    assert_eq!(rt; up.first().copied(), Some(LONG - 1));
    Ok(())
}

#[test]
fn cycles_by_hand(rt: HostRuntime) -> Result<(), Fail> {
    // 0, 1 and 2 on a cycle, 3 between cycles, 4 on its own, 5 behind it, and 6 on one that leaves the graph.
    let edges = [
        edge(0, 1),
        edge(1, 2),
        edge(2, 0),
        edge(2, 3),
        edge(3, 4),
        edge(4, 4),
        edge(4, 5),
        edge(6, 9),
        edge(9, 6),
    ];
    let found = on_cycle(rt.alloc(), 7, &edges)?;
    assert_eq!(rt;
        found.as_slice(),
        [true, true, true, false, true, false, false].as_slice()
    );
    let component = components(rt.alloc(), 7, &edges)?;
    assert_eq!(rt; component.len(), 7);
    assert_eq!(rt; component[0], component[1]);
    assert_eq!(rt; component[0], component[2]);
    assert_ne!(rt; component[0], component[3]);
    assert_ne!(rt; component[3], component[4]);
    bridge();
    bridge_both_ways();
    cycles_return();
    Ok(())
}

#[test]
fn cycles_along_chains(rt: HostRuntime) -> Result<(), Fail> {
    let mut up = upward(rt.alloc())?;
    let none = on_cycle(rt.alloc(), LONG, &up)?;
    assert_eq!(rt; count(&none), 0);
    up.push(edge(LONG - 1, 1))?;
    let most = on_cycle(rt.alloc(), LONG, &up)?;
    assert_eq!(rt; count(&most), LONG - 1);
    Ok(())
}
