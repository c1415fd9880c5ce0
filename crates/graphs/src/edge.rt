//! Edges of graphs, and seeds with marks.

/// An edge leads from a node to another, or to the same one. Nodes are numbers.
#[derive(Clone, Copy, Debug)]
pub struct Edge {
    pub from: usize,
    pub to: usize,
}

/// A node that has some of 64 marks from the beginning.
#[derive(Clone, Copy, Debug)]
pub struct Seed {
    pub node: usize,
    /// The set of its marks: bit `j` is set where it has mark `j`.
    pub marks: u64,
}
