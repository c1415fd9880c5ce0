//! The kinds of branches, and the unknowns of a module.

/// What the contributions to a branch make of it (Contribution statements, Switch branches).
#[derive(Clone, Copy, Debug, PartialEq, Eq)]
pub enum BranchKind {
    /// No potential is contributed: its flow is the sum of what is.
    Flow,
    /// Potentials of 0 alone are contributed, and under fixed conditions: where one is held, the two nodes are one.
    Collapsing,
    /// A potential is contributed on every path: its flow is an unknown.
    Potential,
}

/// An unknown of a module, by its number in `nodes` or `branches` of `ModuleNames`.
#[derive(Clone, Copy, Debug, PartialEq, Eq)]
pub enum Unknown {
    /// The potential of a node.
    Node(u32),
    /// The flow of a potential branch.
    Branch(u32),
}
