//! The rows of the grammar of Verilog-A, by their parts.
ghost use Rattle.std.specs.Prelude.{◌≡◌};
ghost use Rattle.va_grammar.specs.Parts.{symbol_of};

use crate::nonterminal::Nonterminal;
use crate::rows::Part::{Rule, Token};
pub use crate::tables::ROWS;
use crate::terminal::Terminal;
use predict::Symbol;

/// One part of a row.
#[derive(Clone, Copy, Debug, PartialEq, Eq)]
pub enum Part {
    /// A token of this kind.
    Token(Terminal),
    /// A nonterminal.
    Rule(Nonterminal),
}

impl Part {
    /// The part as the parser knows it.
    pub fn symbol(self) -> Symbol
        ensures { result ≡ symbol_of self }
    {
        match self {
            Token(terminal) => Symbol::Kind(terminal.number()),
            Rule(nonterminal) => Symbol::Left(nonterminal.number()),
        }
    }
}
