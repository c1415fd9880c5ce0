//! What follows from the definitions, as the contract of a function with nothing to do: a contract is what the check proves.
ghost use Rattle.c_tree.specs.Blocks.{BlocksOfLists};

/// A block and its flat list determine each other.
#[tactic(auto, using(crate::proofs::Nesting::blocks_of_lists))]
pub fn blocks_of_lists()
    ensures { BlocksOfLists }
{}
