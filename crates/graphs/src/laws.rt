//! Laws of graphs, as contracts of functions with nothing to do.
ghost use Rattle.graphs.specs.Edges.{BridgeLaw, BothWaysLaw};
ghost use Rattle.graphs.specs.Cycles.{CycleLaw};

/// Where a rule is that of edges and seeds, its least set is what the seeds reach along the edges.
pub fn bridge()
    ensures { BridgeLaw }
{}

/// The same, where what follows by the rule and what follows by edges and seeds are each shown from the other.
pub fn bridge_both_ways()
    ensures { BothWaysLaw }
{}

/// A node reaches itself by at least one edge exactly where it lies on a cycle.
pub fn cycles_return()
    ensures { CycleLaw }
{}
