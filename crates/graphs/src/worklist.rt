//! What seeds reach, by a worklist.
ghost use Rattle.std.specs.Prelude.{◌≡◌, ℕ, ◌+◌, ◌<◌, ◌≤◌, ◌++◌, ◌∷◌, [], false, true, length, slice_set, slice_index, slice_index_or, IfOk, OnOk, if◌then◌else◌, replicate};
ghost use Rattle.alg_laws.specs.Least.{table};
ghost use Rattle.graphs.specs.Edges.{reached};
ghost use Rattle.graphs.specs.Rows.{AreRows, IsRow};
ghost use Rattle.graphs.specs.Work.{Spreads, unmarked};
ghost use Rattle.graphs.specs.Components.{Grows};

use super::adjacency::Adjacency;
use super::edge::Edge;
use std::alloc::{AllocError, Global};

/// Marks a node, and puts it on the list if it was not marked.
pub fn mark(marked: &mut [bool], work: &mut Vec<usize>, node: usize) -> Result<(), AllocError>
    requires { node < length marked.old }
    ensures marked { OnOk result (marked.new ≡ slice_set marked.old node true) }
    ensures work { OnOk result (work.new.items ≡ (if slice_index_or marked.old node false then work.old.items else work.old.items ++ node ∷ [])) }
{
    if !marked[node] {
        work.push(node)?;
        marked[node] = true;
    }
    Ok(())
}

/// Marks the seeds.
fn begin(
    edges: &[Edge],
    seeds: &[usize],
    marked: &mut [bool],
    work: &mut Vec<usize>,
) -> Result<(), AllocError>
    requires marked { marked.old ≡ replicate (length marked.old) false }
    requires work { work.old.items ≡ [] }
    ensures { OnOk result (Spreads (length marked.old) edges.now seeds.now seeds.now marked.new work.new.items) }
{
    let n = marked.len();
    for seed in seeds {
        if *seed < n {
            mark(marked, work, *seed)?;
        }
    }
    Ok(())
}

/// Marks all to which the edges of a node lead. Then the node is pending no more.
pub fn visit(
    row: &[usize],
    edges: &[Edge],
    seeds: &[usize],
    marked: &mut [bool],
    work: &mut Vec<usize>,
    node: usize,
) -> Result<(), AllocError>
    requires row { IsRow (length marked.old) edges.now node row.now }
    requires spreads { Spreads (length marked.old) edges.now seeds.now seeds.now marked.old (node ∷ work.old.items) }
    ensures spreads { OnOk result (Spreads (length marked.old) edges.now seeds.now seeds.now marked.new work.new.items) }
    ensures count { OnOk result (unmarked marked.new + length work.new.items ≡ unmarked marked.old + length work.old.items) }
    ensures grows { OnOk result (Grows marked.old work.old.items marked.new work.new.items) }
{
    for target in row {
        mark(marked, work, *target)?;
    }
    Ok(())
}

/// The nodes that the seeds reach in a graph of `n` nodes. For each node it is told whether it is in the least set that has the
/// seeds and, with a node, each to which an edge leads from it. A seed at another number plays no part. The time is linear in the
/// nodes, edges and seeds.
pub fn reach(
    alloc: Global,
    n: usize,
    edges: &[Edge],
    seeds: &[usize],
) -> Result<Vec<bool>, AllocError>
    ensures { IfOk result (λ marked. marked.items ≡ table n (reached n edges.now seeds.now)) }
{
    let rows = Adjacency::new(alloc, n, edges)?;
    let mut marked = vec![in alloc; false; n]?;
    let mut work = Vec::new(alloc);
    begin(edges, seeds, &mut marked, &mut work)?;
    while let Some(node) = work.pop() {
        visit(rows.row(node), edges, seeds, &mut marked, &mut work, node)?;
    }
    Ok(marked)
}
