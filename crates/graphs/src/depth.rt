//! Walks in depth, with the path in a vector.
ghost use Rattle.std.specs.Prelude.{◌≡◌, ℕ, ◌+◌, ◌-◌, ◌<◌, ◌≤◌, ◌++◌, ◌∷◌, ◌⊎◌, [], false, true, length, slice_index, slice_index_or, IfOk, OnOk, replicate, sum, take};
ghost use Rattle.graphs.specs.Edges.{is_edge, is_in, reaches};
ghost use Rattle.graphs.specs.Rows.{AreRows, AreReadable, row_at};
ghost use Rattle.graphs.specs.Walk.{IsDepthOrder, Walks, AreRowsOf};
ghost use Rattle.graphs.specs.Components.{returns_to};

use super::adjacency::Adjacency;
use super::edge::Edge;
use super::worklist::mark;
use std::alloc::{AllocError, Global};

/// One step: the node that stood last on the path leads on to the next of its targets, or the walk is done with it.
fn advance(
    rows: &Adjacency,
    edges: &[Edge],
    seen: &mut [bool],
    left: &mut [usize],
    stack: &mut Vec<usize>,
    done: &mut Vec<usize>,
    node: usize,
) -> Result<(), AllocError>
    requires rows { AreRows (length seen.old) edges.now rows.now.starts.items rows.now.counts.items rows.now.targets.items }
    requires walks { Walks (length seen.old) edges.now (row_at rows.now.starts.items rows.now.counts.items rows.now.targets.items) seen.old left.old (stack.old.items ++ node ∷ []) done.old.items }
    ensures walks { OnOk result (Walks (length seen.old) edges.now (row_at rows.now.starts.items rows.now.counts.items rows.now.targets.items) seen.new left.new stack.new.items done.new.items) }
    ensures kept { OnOk result ((z : ℕ) → slice_index_or seen.old z false ≡ true → slice_index_or seen.new z false ≡ true) }
    ensures count { OnOk result (sum left.new + length done.old.items + 1 ≡ sum left.old + length done.new.items) }
{
    let remaining = left[node];
    if remaining == 0 {
        done.push(node)?;
        return Ok(());
    }
    let target = rows.row(node)[remaining - 1];
    left[node] = remaining - 1;
    stack.push(node)?;
    mark(seen, stack, target)?;
    Ok(())
}

/// Walks over all that a node reaches and that isn't seen yet.
fn explore(
    rows: &Adjacency,
    edges: &[Edge],
    seen: &mut [bool],
    left: &mut [usize],
    stack: &mut Vec<usize>,
    done: &mut Vec<usize>,
    root: usize,
) -> Result<(), AllocError>
    requires node { root < length seen.old }
    requires rows { AreRows (length seen.old) edges.now rows.now.starts.items rows.now.counts.items rows.now.targets.items }
    requires walks { Walks (length seen.old) edges.now (row_at rows.now.starts.items rows.now.counts.items rows.now.targets.items) seen.old left.old stack.old.items done.old.items }
    requires empty { stack.old.items ≡ [] }
    ensures walks { OnOk result (Walks (length seen.old) edges.now (row_at rows.now.starts.items rows.now.counts.items rows.now.targets.items) seen.new left.new stack.new.items done.new.items) }
    ensures empty { OnOk result (stack.new.items ≡ []) }
    ensures kept { OnOk result ((z : ℕ) → slice_index_or seen.old z false ≡ true → slice_index_or seen.new z false ≡ true) }
    ensures seen { OnOk result (slice_index_or seen.new root false ≡ true) }
{
    mark(seen, stack, root)?;
    while let Some(node) = stack.pop() {
        advance(rows, edges, seen, left, stack, done, node)?;
    }
    Ok(())
}

/// Walks over all nodes.
fn explore_all(
    rows: &Adjacency,
    edges: &[Edge],
    seen: &mut [bool],
    left: &mut [usize],
    stack: &mut Vec<usize>,
    done: &mut Vec<usize>,
) -> Result<(), AllocError>
    requires rows { AreRows (length seen.old) edges.now rows.now.starts.items rows.now.counts.items rows.now.targets.items }
    requires seen { seen.old ≡ replicate (length seen.old) false }
    requires left { left.old ≡ rows.now.counts.items }
    requires stack { stack.old.items ≡ [] }
    requires done { done.old.items ≡ [] }
    ensures { OnOk result (IsDepthOrder (length seen.old) edges.now done.new.items) }
{
    let n = seen.len();
    for root in 0..n {
        explore(rows, edges, seen, left, stack, done, root)?;
    }
    Ok(())
}

/// The nodes below n in the order in which a walk in depth is done with them.
pub fn depth_order(
    alloc: Global,
    n: usize,
    edges: &[Edge],
    rows: &Adjacency,
) -> Result<Vec<usize>, AllocError>
    requires { AreRows n edges.now rows.now.starts.items rows.now.counts.items rows.now.targets.items }
    ensures { IfOk result (λ order. IsDepthOrder n edges.now order.items) }
{
    let mut seen = vec![in alloc; false; n]?;
    let mut left = Vec::from_slice(alloc, &rows.counts)?;
    let mut stack = Vec::new(alloc);
    let mut done = Vec::new(alloc);
    explore_all(rows, edges, &mut seen, &mut left, &mut stack, &mut done)?;
    Ok(done)
}

/// The nodes of a graph of `n` nodes, each once, in an order in which each stands behind all to which its edges lead, but for those
/// that reach it again. Without cycles this is a topological order, targets first. The time is linear in the nodes and edges.
pub fn postorder(alloc: Global, n: usize, edges: &[Edge]) -> Result<Vec<usize>, AllocError>
    ensures len { IfOk result (λ order. length order.items ≡ n) }
    ensures each { IfOk result (λ order. (node : ℕ) → node < n → is_in order.items node ≡ true) }
    ensures behind { IfOk result (λ order. (j target : ℕ) → j < n → target < n → is_edge edges.now (slice_index order.items j) target ≡ true
        → (is_in (take j order.items) target ≡ true) ⊎ (reaches n edges.now target (slice_index order.items j) ≡ true)) }
    ensures sorted { IfOk result (λ order. ((node : ℕ) → node < n → returns_to n edges.now node ≡ false) → (j target : ℕ) → j < n → target < n
        → is_edge edges.now (slice_index order.items j) target ≡ true → is_in (take j order.items) target ≡ true) }
{
    let rows = Adjacency::new(alloc, n, edges)?;
    let order = depth_order(alloc, n, edges, &rows)?;
    Ok(order)
}
