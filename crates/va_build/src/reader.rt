//! Reading a parse tree node by node, in step with the tokens that it spells.
ghost use Rattle.std.specs.Prelude.{◌≡◌, ◌<◌, length};
ghost use Rattle.va_build.specs.Due.{next_row, IsTailDue};
ghost use Rattle.va_build.specs.Reading.{TakesEnd, TakesRow, TakesToken};

use crate::operators::{TailRow, tail_row};
use predict::ParseNode;
use std::marker::Model;

/// What is left to read of a parse tree: its nodes from the next one on, and the index of the next token.
#[derive(Debug, Drop)]
pub struct Reader<'a> {
    nodes: &'a [ParseNode],
    at: u32,
}

impl<'a> Model for Reader<'a> {
    ghost use Rattle.va_build.specs.Reading.{Ahead};

    ghost Value = { Ahead };

    ghost view = { λ r. record { nodes = r.nodes.now; at = r.at } };
}

impl<'a> Reader<'a> {
    /// At the first node, which begins at the first token.
    pub fn new(nodes: &'a [ParseNode]) -> Reader<'a>
        ensures nodes { result.nodes ≡ nodes.now }
        ensures at { result.at ≡ 0 }
    {
        Reader { nodes, at: 0 }
    }

    /// The index of the next token.
    pub fn at(&self) -> u32
        ensures { result ≡ self.now.at }
    {
        self.at
    }

    /// Takes the next node, and answers its row.
    pub fn enter(&mut self) -> u16
        requires { 0 < length self.old.nodes }
        ensures { TakesRow self.old self.new result }
    {
        let Some((node, rest)) = self.nodes.split_first() else {
            unreachable!();
        };
        self.nodes = rest;
        node.row
    }

    /// The row of the next node, which is not taken.
    pub fn peek(&self) -> u16
        requires { 0 < length self.now.nodes }
        ensures { result ≡ next_row self.now }
    {
        let Some((node, _)) = self.nodes.split_first() else {
            unreachable!();
        };
        node.row
    }

    /// Passes the next token, and answers its index. A text has 2000000 tokens at most, and its end.
    pub fn pass(&mut self) -> u32
        requires { self.old.at < 2000000 }
        ensures { TakesToken self.old self.new result }
    {
        let at = self.at;
        self.at += 1;
        at
    }

    /// Takes the next node where it ends the operators behind an operand, and says whether it does.
    pub fn take_end(&mut self) -> bool
        requires { IsTailDue self.old }
        ensures { TakesEnd result self.old self.new }
    {
        match tail_row(self.peek()) {
            TailRow::End => {
                self.enter();
                true
            }
            TailRow::Operator(_) => false,
        }
    }
}
