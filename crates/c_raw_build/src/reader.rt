//! Reading a parse tree node by node, in step with the tokens that it spells.
ghost use Rattle.std.specs.Prelude.{◌≡◌, ◌<◌, ◌+◌, ◌^◌, length};
ghost use Rattle.c_raw_build.specs.Placed.{row_of};
ghost use Rattle.c_raw_build.specs.Reading.{TakesRow, Passes, trees, first_tree};

use predict::ParseNode;
use std::marker::Model;

/// What is left to read of a parse tree: its nodes from the next one on, and the index of the next token.
#[derive(Debug, Drop)]
pub(crate) struct Reader<'a> {
    nodes: &'a [ParseNode],
    at: u32,
}

impl<'a> Model for Reader<'a> {
    ghost use Rattle.c_raw_build.specs.Reading.{Ahead};

    ghost Value = { Ahead };

    ghost view = { λ r. record { nodes = r.nodes.now; at = r.at } };
}

impl<'a> Reader<'a> {
    /// At the first node, which begins at the first token.
    pub(crate) fn new(nodes: &'a [ParseNode]) -> Reader<'a>
        ensures nodes { result.nodes ≡ nodes.now }
        ensures at { result.at ≡ 0 }
    {
        Reader { nodes, at: 0 }
    }

    /// The index of the next token.
    pub(crate) fn at(&self) -> u32
        ensures { result ≡ self.now.at }
    {
        self.at
    }

    /// Takes the next node, and answers its row.
    pub(crate) fn row(&mut self) -> u16
        requires { 0 < length self.old.nodes }
        ensures { TakesRow self.old self.new result }
    {
        let Some((node, rest)) = self.nodes.split_first() else {
            unreachable!();
        };
        self.nodes = rest;
        node.row
    }

    /// The row of the next node.
    pub(crate) fn next_row(&self) -> u16
        requires { 0 < length self.now.nodes }
        ensures { result ≡ row_of (first_tree (trees self.now)) }
    {
        self.nodes[0].row
    }

    /// Takes the next node, which is of this row.
    pub(crate) fn take(&mut self, row: u16)
        requires there { 0 < length self.old.nodes }
        requires row { row_of (first_tree (trees self.old)) ≡ row }
        ensures { TakesRow self.old self.new row }
    {
        let taken = self.row();
        prove!(taken == row);
    }

    /// Passes so many tokens, whose indices are of 32 bits.
    pub(crate) fn pass(&mut self, count: u32)
        requires { self.old.at + count < 2 ^ 32 }
        ensures { Passes self.old self.new count }
    {
        self.at += count;
    }
}
