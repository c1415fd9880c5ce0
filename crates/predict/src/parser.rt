//! The parser.
ghost use Rattle.std.specs.Prelude.{◌≡◌, ℕ, ◌<◌, ◌^◌, true, false, [], ◌∷◌, ◌++◌, length, reverse, IfOk, OnOk, IsErrOf, MatchResult};
ghost use Rattle.predict.specs.declared.symbol.Symbol.TheVariants.{Kind, Left};
ghost use Rattle.predict.specs.Rules.{IsRow, nonterminal_count};
ghost use Rattle.predict.specs.Sentence.{IsSentence, IsParsed, IsFirstBad, EndsWith};
ghost use Rattle.predict.specs.Stack.{Takes, Refuses, node_of};

use crate::grammar::Grammar;
use crate::symbol::Symbol;
use crate::tree::{ParseNode, ParseTree};
use std::alloc::{AllocError, Global};

/// Why there is no parse tree.
#[derive(Clone, Copy, Debug, PartialEq, Eq)]
pub enum ParseErr {
    /// The kind with this number, counted from 0, is the first bad one: some sentence begins with those before it,
    /// and none with those up to it.
    At(usize),
    /// Memory was refused.
    NoMemory,
}

impl From<AllocError> for ParseErr {
    ghost use Rattle.predict.specs.declared.parser.ParseErr.TheVariants.{NoMemory};

    ghost from_gives = { λ _ e. e ≡ NoMemory };

    fn from(_: AllocError) -> Self {
        ParseErr::NoMemory
    }
}

/// The one parse tree of these kinds, where they are a sentence.
///
/// The kinds are those of a text's tokens, in order, and end with the end kind. `At` blames the first bad one: some
/// sentence begins with the kinds before it, and none with the kinds up to it. Each step of the parser takes a kind or
/// makes a node of the tree, and its stack grows with the nesting of the text alone.
pub fn parse<G: Grammar>(alloc: Global, grammar: &G, kinds: &[u16]) -> Result<ParseTree, ParseErr>
    requires { EndsWith (G.rules grammar.now).end_kind kinds.now }
    ensures parsed { IfOk result (IsParsed (G.rules grammar.now) kinds.now) }
    ensures sentence { IsSentence (G.rules grammar.now) kinds.now → MatchResult result (λ _. Unit) (λ e. e ≡ ParseErr.NoMemory) }
    ensures blamed { (at : ℕ) → IsErrOf result (ParseErr.At at) → IsFirstBad (G.rules grammar.now) kinds.now at }
{
    let mut parser = begin(alloc, grammar)?;
    for (at, kind) in kinds.iter().enumerate() {
        if !parser.take(grammar, *kind)? {
            return Err(ParseErr::At(at));
        }
    }
    Ok(parser.into_tree())
}

/// A text that is read so far.
#[derive(Drop)]
struct Parser {
    /// What is left to read, its first symbol at the end.
    stack: Vec<Symbol>,
    /// The nodes so far, in pre-order.
    nodes: Vec<ParseNode>,
}

/// Before the first kind.
fn begin<G: Grammar>(alloc: Global, grammar: &G) -> Result<Parser, AllocError>
    ensures stack { IfOk result (λ p. reverse p.stack.items ≡ Left (G.rules grammar.now).start ∷ Kind (G.rules grammar.now).end_kind ∷ []) }
    ensures nodes { IfOk result (λ p. p.nodes.items ≡ []) }
{
    let mut stack = Vec::new(alloc);
    stack.push(Symbol::Kind(grammar.end_kind()))?;
    stack.push(Symbol::Left(grammar.start()))?;
    let nodes = Vec::new(alloc);
    Ok(Parser { stack, nodes })
}

impl Parser {
    /// Takes the next kind, and answers whether something that begins with it is left to read.
    fn take<G: Grammar>(&mut self, grammar: &G, kind: u16) -> Result<bool, AllocError>
        requires { G.is_open grammar.now (reverse self.old.stack.items) }
        ensures taken { IfOk result (λ b. b ≡ true → Takes (G.rules grammar.now) kind (reverse self.old.stack.items) self.old.nodes.items (reverse self.new.stack.items) self.new.nodes.items) }
        ensures left { IfOk result (λ b. b ≡ true → G.is_open grammar.now (reverse self.new.stack.items)) }
        ensures ended { IfOk result (λ b. b ≡ true → kind ≡ (G.rules grammar.now).end_kind → reverse self.new.stack.items ≡ []) }
        ensures refused { IfOk result (λ b. b ≡ false → Refuses (G.rules grammar.now) kind (reverse self.old.stack.items) self.old.nodes.items) }
    {
        while let Some(symbol) = self.stack.pop() {
            match symbol {
                Symbol::Kind(wanted) => return Ok(wanted == kind),
                Symbol::Left(left) => match grammar.row(left, kind) {
                    None => return Ok(false),
                    Some(row) => self.expand(grammar, row)?,
                },
            }
        }
        Ok(false)
    }

    /// Lets a nonterminal give way to this row.
    fn expand<G: Grammar>(&mut self, grammar: &G, row: u16) -> Result<(), AllocError>
        requires { IsRow (G.rules grammar.now) row }
        ensures stack { OnOk result (reverse self.new.stack.items ≡ (G.rules grammar.now).symbols row ++ reverse self.old.stack.items) }
        ensures nodes { OnOk result (self.new.nodes.items ≡ self.old.nodes.items ++ node_of (G.rules grammar.now) row ∷ []) }
        ensures few { OnOk result (length ((G.rules grammar.now).symbols row) < 2 ^ 32) }
    {
        let children = push_row(&mut self.stack, grammar, row)?;
        self.nodes.push(ParseNode { row, children })?;
        Ok(())
    }

    /// The tree of a text that is read.
    fn into_tree(self) -> ParseTree
        ensures { result ≡ self.nodes.items }
    {
        ParseTree::new(self.nodes)
    }
}

/// Puts the symbols of a row in front of what is left to read. Answers how many of them are nonterminals.
fn push_row<G: Grammar>(stack: &mut Vec<Symbol>, grammar: &G, row: u16) -> Result<u32, AllocError>
    requires { IsRow (G.rules grammar.now) row }
    ensures pushed { OnOk result (reverse stack.new.items ≡ (G.rules grammar.now).symbols row ++ reverse stack.old.items) }
    ensures counted { IfOk result (λ n. n ≡ nonterminal_count ((G.rules grammar.now).symbols row)) }
    ensures few { OnOk result (length ((G.rules grammar.now).symbols row) < 2 ^ 32) }
{
    let count = grammar.count(row);
    let mut children = 0;
    for i in (0..count).rev() {
        let symbol = grammar.symbol(row, i);
        children += nonterminals(symbol);
        stack.push(symbol)?;
    }
    Ok(children)
}

/// 1 for a nonterminal, else 0.
fn nonterminals(symbol: Symbol) -> u32
    ensures { result ≡ nonterminal_count (symbol ∷ []) }
{
    match symbol {
        Symbol::Kind(_) => 0,
        Symbol::Left(_) => 1,
    }
}
