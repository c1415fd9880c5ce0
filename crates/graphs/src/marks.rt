//! What 64 sets of seeds reach, by one worklist.
ghost use Rattle.std.specs.Prelude.{◌≡◌, ℕ, ◌+◌, ◌<◌, ◌≤◌, ◌==◌, ◌++◌, ◌∷◌, [], length, slice_set, slice_index, IfOk, OnOk, if◌then◌else◌, replicate, bit_or};
ghost use Rattle.graphs.specs.Edges.{reached};
ghost use Rattle.graphs.specs.Rows.{IsRow};
ghost use Rattle.graphs.specs.Marks.{has_mark, seeds_of, spare, Hands};

use super::adjacency::Adjacency;
use super::edge::{Edge, Seed};
use std::alloc::{AllocError, Global};

/// Adds marks to a node, and puts it on the list if it has more than before.
fn add(marks: &mut [u64], work: &mut Vec<usize>, node: usize, added: u64) -> Result<(), AllocError>
    requires { node < length marks.old }
    ensures marks { OnOk result (marks.new ≡ slice_set marks.old node (bit_or (slice_index marks.old node) added)) }
    ensures work { OnOk result (work.new.items ≡ (if bit_or (slice_index marks.old node) added == slice_index marks.old node then work.old.items else work.old.items ++ node ∷ [])) }
    ensures count { OnOk result (spare marks.new + length work.new.items ≤ spare marks.old + length work.old.items) }
{
    let old = marks[node];
    let joined = old | added;
    if joined != old {
        work.push(node)?;
        marks[node] = joined;
    }
    Ok(())
}

/// Gives the seeds their marks.
fn begin(
    edges: &[Edge],
    seeds: &[Seed],
    marks: &mut [u64],
    work: &mut Vec<usize>,
) -> Result<(), AllocError>
    requires marks { marks.old ≡ replicate (length marks.old) 0 }
    requires work { work.old.items ≡ [] }
    ensures { OnOk result (Hands (length marks.old) edges.now seeds.now seeds.now marks.new work.new.items) }
{
    let n = marks.len();
    for seed in seeds {
        if seed.node < n {
            add(marks, work, seed.node, seed.marks)?;
        }
    }
    Ok(())
}

/// Hands on the marks of a node. Then the node is pending no more.
fn give(
    row: &[usize],
    edges: &[Edge],
    seeds: &[Seed],
    marks: &mut [u64],
    work: &mut Vec<usize>,
    node: usize,
) -> Result<(), AllocError>
    requires row { IsRow (length marks.old) edges.now node row.now }
    requires hands { Hands (length marks.old) edges.now seeds.now seeds.now marks.old (node ∷ work.old.items) }
    ensures hands { OnOk result (Hands (length marks.old) edges.now seeds.now seeds.now marks.new work.new.items) }
    ensures count { OnOk result (spare marks.new + length work.new.items ≤ spare marks.old + length work.old.items) }
{
    let handed = marks[node];
    for target in row {
        add(marks, work, *target, handed)?;
    }
    Ok(())
}

/// The marks of the nodes of a graph of `n` nodes: a node has each mark whose seeds reach it, and no other. A seed at another number
/// plays no part. A node hands its marks on at most 64 times, so the time is linear in the nodes, edges and seeds.
pub fn reach64(
    alloc: Global,
    n: usize,
    edges: &[Edge],
    seeds: &[Seed],
) -> Result<Vec<u64>, AllocError>
    ensures len { IfOk result (λ marks. length marks.items ≡ n) }
    ensures marks { IfOk result (λ marks. (j node : ℕ) → j < 64 → node < n → has_mark (slice_index marks.items node) j ≡ reached n edges.now (seeds_of j seeds.now) node) }
{
    let rows = Adjacency::new(alloc, n, edges)?;
    let mut marks = vec![in alloc; 0u64; n]?;
    let mut work = Vec::new(alloc);
    begin(edges, seeds, &mut marks, &mut work)?;
    while let Some(node) = work.pop() {
        give(rows.row(node), edges, seeds, &mut marks, &mut work, node)?;
    }
    Ok(marks)
}
