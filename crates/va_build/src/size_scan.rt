//! Where the first node of depth 501 begins and where the 65th module has its name, read from a parse tree without recursion.
//!
//! A depth or a number of operators that does not fit 32 bits is answered as want of memory is: no tree so deep fits.
ghost use Rattle.std.specs.Prelude.{◌≡◌, ◌≤◌, ℕ, [], ◌∷◌, ◌++◌, List, map, reverse, slice_get, IfOk, IfSome, OnOk, MatchOption};
ghost use Rattle.predict.specs.declared.symbol.Symbol.TheVariants.{Left};
ghost use Rattle.va_base.specs.declared.expanded.Expanded.{Expanded};
ghost use Rattle.va_grammar.specs.Parts.{symbol_of};
ghost use Rattle.va_build.specs.Reading.{row_symbols, trees_of, first_tree, later_trees};
ghost use Rattle.va_build.specs.SizeDeep.{earlier};
ghost use Rattle.va_build.specs.SizeRows as depths;
ghost use Rattle.va_build.specs.Due.{AreDerived};
ghost use Rattle.va_build.specs.SizeScan.{AreFew, many, NothingDue, ComesNext, due_parts};
ghost use Rattle.va_build.specs.Width.{width};

use crate::size_links::tree_links;
use crate::size_rules::{Due, Rule, depth_below, depth_last, opened, row_parts, row_rule};
use predict::{ParseNode, Symbol};
use std::alloc::{AllocError, Global};
use va_grammar::nonterminal::Nonterminal;
use va_grammar::rows::Part;

/// How many modules a text may have.
const MODULES: u32 = 64;

/// What a parse tree shows.
#[derive(Clone, Copy, Debug, PartialEq, Eq)]
pub(crate) struct Found {
    /// The lowest index at which a node of depth 501 begins.
    pub deep: Option<u32>,
    /// The index of the name of the 65th module.
    pub extra: Option<u32>,
}

/// Looks through a parse tree.
pub(crate) fn scan(alloc: Global, nodes: &[ParseNode]) -> Result<Found, AllocError>
    requires derived { AreDerived (Left 0 ∷ []) (trees_of nodes.now) }
    requires whole { later_trees (trees_of nodes.now) ≡ [] }
    requires fits { width (first_tree (trees_of nodes.now)) ≤ 2000000 }
    ensures deep { IfOk result (λ f. (e : Expanded) → f.deep ≡ depths.deep_in e 0 1 0 (first_tree (trees_of nodes.now))) }
    ensures within { IfOk result (λ f. IfSome f.deep (λ at. at ≤ width (first_tree (trees_of nodes.now)))) }
    ensures extra { IfOk result (λ f. (e : Expanded) → f.extra ≡ slice_get (depths.modules_in e 0 0 (first_tree (trees_of nodes.now))) 64) }
{
    let mut links = tree_links(alloc, nodes)?;
    let mut ahead = begin(alloc)?;
    let mut deep = None;
    let mut names = Names {
        room: MODULES,
        extra: None,
    };
    for node in nodes {
        let Some(link) = links.pop() else {
            unreachable!();
        };
        let Some((left, depth)) = ahead.next() else {
            unreachable!();
        };
        let rule = row_rule(left, node.row);
        deep = least(deep, opened(rule, ahead.at, depth, link));
        names.count(left, ahead.at);
        ahead.open(rule, depth, node.row, link)?;
    }
    Ok(Found {
        deep,
        extra: names.extra,
    })
}

/// The lower of two indices that may be missing.
fn least(a: Option<u32>, b: Option<u32>) -> Option<u32>
    ensures { result ≡ earlier a b }
{
    match (a, b) {
        (None, _) => b,
        (Some(_), None) => a,
        (Some(x), Some(y)) => Some(x.min(y)),
    }
}

/// How many modules may still come, and the name of the first that is too many.
#[derive(Clone, Copy, Debug)]
struct Names {
    room: u32,
    extra: Option<u32>,
}

impl Names {
    /// Counts a module, where one begins at this index: where the nonterminal is that of modules.
    fn count(&mut self, left: u16, at: u32)
        requires { at ≤ 2000000 }
        ensures { (rest : List ℕ) → many self.new.extra self.new.room rest ≡ many self.old.extra self.old.room (depths.name_opened left at ++ rest) }
    {
        if left == Nonterminal::ModuleDeclaration.number() {
            self.take(at + 1);
        }
    }

    /// Takes the name of the next module.
    fn take(&mut self, name: u32)
        ensures { (rest : List ℕ) → many self.new.extra self.new.room rest ≡ many self.old.extra self.old.room (name ∷ rest) }
    {
        if self.extra.is_some() {
            return;
        }
        if self.room == 0 {
            self.extra = Some(name);
        } else {
            self.room -= 1;
        }
    }
}

/// What is still to be read, its first symbol at the end, and the index of the next token.
#[derive(Drop)]
struct Ahead {
    due: Vec<Due>,
    at: u32,
}

/// Before a whole text, whose outermost nodes have the depth 1.
fn begin(alloc: Global) -> Result<Ahead, AllocError>
    ensures due { IfOk result (λ a. reverse a.due.items ≡ depths.due (Left 0) 1 ∷ []) }
    ensures at { IfOk result (λ a. a.at ≡ 0) }
{
    let mut due = Vec::new(alloc);
    due.push(Due {
        symbol: Symbol::Left(Nonterminal::Source.number()),
        depth: 1,
    })?;
    Ok(Ahead { due, at: 0 })
}

impl Ahead {
    /// Passes tokens, and takes the nonterminal behind them with its depth. None where tokens alone are due.
    fn next(&mut self) -> Option<(u16, u32)>
        requires { AreFew (reverse self.old.due.items) self.old.at }
        ensures { MatchOption result (NothingDue (reverse self.old.due.items) self.old.at) (λ p. ComesNext (reverse self.old.due.items) self.old.at p.0 p.1 (reverse self.new.due.items) self.new.at) }
    {
        while let Some(due) = self.due.pop() {
            match due.symbol {
                Symbol::Kind(_) => self.at += 1,
                Symbol::Left(left) => return Some((left, due.depth)),
            }
        }
        None
    }

    /// Lets a nonterminal of this depth give way to a row that does this to depths and has so many links.
    fn open(&mut self, rule: Rule, depth: u32, row: u16, links: u32) -> Result<(), AllocError>
        ensures due { OnOk result (reverse self.new.due.items ≡ depths.dues (row_symbols row) (depths.depth_below rule depth links) (depths.depth_last rule depth) ++ reverse self.old.due.items) }
        ensures at { OnOk result (self.new.at ≡ self.old.at) }
    {
        let below = depth_below(rule, depth, links)?;
        let last = depth_last(rule, depth)?;
        push_row(&mut self.due, row_parts(row), below, last)?;
        Ok(())
    }
}

/// Puts the parts of a row in front of what is due: the last has one depth, all others have another.
fn push_row(due: &mut Vec<Due>, parts: &[Part], below: u32, last: u32) -> Result<(), AllocError>
    ensures { OnOk result (reverse due.new.items ≡ depths.dues (map symbol_of parts.now) below last ++ reverse due.old.items) }
{
    if let Some((tail, front)) = parts.split_last() {
        push_part(due, *tail, last)?;
        push_parts(due, front, below)?;
    }
    Ok(())
}

/// Puts a part in front of what is due.
fn push_part(due: &mut Vec<Due>, part: Part, depth: u32) -> Result<(), AllocError>
    ensures { OnOk result (reverse due.new.items ≡ depths.due (symbol_of part) depth ∷ reverse due.old.items) }
{
    due.push(Due {
        symbol: part.symbol(),
        depth,
    })?;
    Ok(())
}

/// Puts parts of one depth in front of what is due.
fn push_parts(due: &mut Vec<Due>, parts: &[Part], depth: u32) -> Result<(), AllocError>
    ensures { OnOk result (reverse due.new.items ≡ due_parts depth parts.now ++ reverse due.old.items) }
{
    for i in (0..parts.len()).rev() {
        push_part(due, parts[i], depth)?;
    }
    Ok(())
}
