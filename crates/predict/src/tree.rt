//! Parse trees.
ghost use Rattle.std.specs.Prelude.{◌≡◌, ◌<◌, length, slice_get, Some};

use std::marker::Model;

/// A node of a parse tree. It stands for a nonterminal; the tokens of its row have no nodes.
#[derive(Clone, Copy, Debug, PartialEq, Eq)]
pub struct ParseNode {
    /// The row that was chosen.
    pub row: u16,
    /// How many nodes stand directly below it: one for each nonterminal of its row, in order.
    pub children: u32,
}

/// A parse tree: its nodes in pre-order, the root first. Contracts see it as the list of them. A node takes eight bytes.
#[derive(Debug, Drop)]
pub struct ParseTree {
    nodes: Vec<ParseNode>,
}

impl Model for ParseTree {
    ghost use Rattle.std.specs.Prelude.{List};
    ghost use Rattle.predict.specs.declared.tree.ParseNode.{ParseNode};

    ghost Value = { List ParseNode };

    ghost view = { λ t. t.nodes.items };
}

impl ParseTree {
    /// The tree with these nodes.
    pub(crate) fn new(nodes: Vec<ParseNode>) -> ParseTree
        ensures { result ≡ nodes.items }
    {
        ParseTree { nodes }
    }

    /// The nodes, in pre-order.
    pub fn nodes(&self) -> &[ParseNode]
        ensures { result.now ≡ self.now }
    {
        self.nodes.as_slice()
    }

    /// How many nodes it has.
    pub fn len(&self) -> usize
        ensures { result ≡ length self.now }
    {
        self.nodes.len()
    }

    /// The node with this number in pre-order, counted from 0.
    pub fn node(&self, i: usize) -> ParseNode
        requires { i < length self.now }
        ensures { slice_get self.now i ≡ Some result }
    {
        self.nodes[i]
    }
}
