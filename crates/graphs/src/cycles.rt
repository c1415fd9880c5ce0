//! Nodes that reach each other, by two walks.
ghost use Rattle.std.specs.Prelude.{◌≡◌, ℕ, ◌+◌, ◌<◌, ◌≤◌, ◌++◌, ◌∷◌, [], map, length, slice_index, slice_index_or, true, false, replicate, IfOk, OnOk, IsTrue, ◌↔◌, ◌==◌, ◌&&◌};
ghost use Rattle.alg_laws.specs.Least.{table};
ghost use Rattle.graphs.specs.Edges.{is_edge, reached, reaches};
ghost use Rattle.graphs.specs.Rows.{AreRows};
ghost use Rattle.graphs.specs.Walk.{IsDepthOrder};
ghost use Rattle.graphs.specs.Components.{turned, returns_to, Components, AreTurned, AreComponentsOf};

use super::adjacency::Adjacency;
use super::depth::depth_order;
use super::edge::Edge;
use super::worklist::{mark, visit};
use std::alloc::{AllocError, Global};

/// Each edge turned round.
fn turn(alloc: Global, edges: &[Edge]) -> Result<Vec<Edge>, AllocError>
    ensures { IfOk result (λ back. back.items ≡ map turned edges.now) }
{
    edges
        .iter()
        .map(|edge| Edge {
            from: edge.to,
            to: edge.from,
        })
        .collect(alloc)
}

/// Gives a component to what reaches a node and has none yet.
fn gather(
    rows: &Adjacency,
    edges: &[Edge],
    back: &[Edge],
    roots: &mut Vec<usize>,
    marked: &mut [bool],
    component: &mut [usize],
    work: &mut Vec<usize>,
    root: usize,
) -> Result<(), AllocError>
    requires node { root < length marked.old }
    requires turned { AreTurned edges.now back.now }
    requires rows { AreRows (length marked.old) back.now rows.now.starts.items rows.now.counts.items rows.now.targets.items }
    requires components { Components (length marked.old) edges.now back.now roots.old.items marked.old component.old }
    requires work { work.old.items ≡ [] }
    requires claim { (node : ℕ) → reached (length marked.old) back.now roots.old.items node ≡ false → reaches (length marked.old) edges.now node root ≡ true
        → reaches (length marked.old) edges.now root node ≡ true }
    ensures components { OnOk result (Components (length marked.old) edges.now back.now roots.new.items marked.new component.new) }
    ensures work { OnOk result (work.new.items ≡ []) }
    ensures kept { OnOk result ((z : ℕ) → slice_index_or marked.old z false ≡ true → slice_index_or marked.new z false ≡ true) }
    ensures here { OnOk result (slice_index_or marked.new root false ≡ true) }
{
    if marked[root] {
        return Ok(());
    }
    mark(marked, work, root)?;
    roots.push(root)?;
    while let Some(node) = work.pop() {
        component[node] = root;
        visit(rows.row(node), back, roots, marked, work, node)?;
    }
    Ok(())
}

/// Gives each node its component, from the last of the order to the first.
fn gather_all(
    rows: &Adjacency,
    edges: &[Edge],
    back: &[Edge],
    order: &[usize],
    roots: &mut Vec<usize>,
    marked: &mut [bool],
    component: &mut [usize],
    work: &mut Vec<usize>,
) -> Result<(), AllocError>
    requires turned { AreTurned edges.now back.now }
    requires rows { AreRows (length marked.old) back.now rows.now.starts.items rows.now.counts.items rows.now.targets.items }
    requires order { IsDepthOrder (length marked.old) edges.now order.now }
    requires roots { roots.old.items ≡ [] }
    requires marked { marked.old ≡ replicate (length marked.old) false }
    requires component { component.old ≡ replicate (length marked.old) (length marked.old) }
    requires work { work.old.items ≡ [] }
    ensures { OnOk result (AreComponentsOf (length marked.old) edges.now component.new) }
{
    let n = order.len();
    for i in 0..n {
        let root = order[n - 1 - i];
        gather(rows, edges, back, roots, marked, component, work, root)?;
    }
    Ok(())
}

/// For each node below n a node of its component: two nodes have one component exactly where each reaches the other.
pub fn components(alloc: Global, n: usize, edges: &[Edge]) -> Result<Vec<usize>, AllocError>
    ensures len { IfOk result (λ component. length component.items ≡ n) }
    ensures below { IfOk result (λ component. (node : ℕ) → node < n → slice_index component.items node < n) }
    ensures same { IfOk result (λ component. (node other : ℕ) → node < n → other < n →
        (slice_index component.items node == slice_index component.items other) ≡ (reaches n edges.now node other && reaches n edges.now other node)) }
{
    let rows = Adjacency::new(alloc, n, edges)?;
    let order = depth_order(alloc, n, edges, &rows)?;
    let back = turn(alloc, edges)?;
    let back_rows = Adjacency::new(alloc, n, &back)?;
    let mut roots = Vec::new(alloc);
    let mut marked = vec![in alloc; false; n]?;
    let mut component = vec![in alloc; n; n]?;
    let mut work = Vec::new(alloc);
    gather_all(
        &back_rows,
        edges,
        &back,
        &order,
        &mut roots,
        &mut marked,
        &mut component,
        &mut work,
    )?;
    Ok(component)
}

/// Whether an edge leads from a node to one of its component.
fn is_within(edge: Edge, component: &[usize]) -> bool
    ensures { IsTrue result ↔ ((edge.from < length component.now) × (edge.to < length component.now) × (slice_index component.now edge.from ≡ slice_index component.now edge.to)) }
{
    edge.from < component.len()
        && edge.to < component.len()
        && component[edge.from] == component[edge.to]
}

/// Marks the nodes from which an edge leads within their component.
fn mark_returning(edges: &[Edge], component: &[usize], returning: &mut [bool])
    requires component { AreComponentsOf (length returning.old) edges.now component.now }
    requires returning { returning.old ≡ replicate (length returning.old) false }
    ensures { returning.new ≡ table (length returning.old) (returns_to (length returning.old) edges.now) }
{
    for edge in edges {
        if is_within(*edge, component) {
            returning[edge.from] = true;
        }
    }
}

/// The nodes below n that reach themselves by at least one edge.
pub fn on_cycle(alloc: Global, n: usize, edges: &[Edge]) -> Result<Vec<bool>, AllocError>
    ensures { IfOk result (λ returning. returning.items ≡ table n (returns_to n edges.now)) }
{
    let component = components(alloc, n, edges)?;
    let mut returning = vec![in alloc; false; n]?;
    mark_returning(edges, &component, &mut returning);
    Ok(returning)
}
