//! Reachability, postorders and strongly connected components of directed graphs, in linear time and without recursion.
//!
//! A graph is a number of nodes and a list of edges. Its nodes are the numbers below that number. An edge at another number plays
//! no part, and an edge may stand in the list more than once. Sets of nodes are least sets of `alg_laws`.
#![tactic(auto)]

mod adjacency;
mod cycles;
mod depth;
mod edge;
mod laws;
mod marks;
mod worklist;

pub use cycles::{components, on_cycle};
pub use depth::postorder;
pub use edge::{Edge, Seed};
pub use laws::{bridge, bridge_both_ways, cycles_return};
pub use marks::reach64;
pub use worklist::reach;
