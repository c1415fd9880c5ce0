//! Grammars whose rows are chosen by the next token.
ghost use Rattle.std.specs.Prelude.{◌≡◌, ℕ, ◌<◌, ◌^◌, Bool, List, Option, Some, length, slice_get};
ghost use Rattle.predict.specs.declared.symbol.Symbol.{Symbol};
ghost use Rattle.predict.specs.Rules.{Rules, IsRow};
ghost use Rattle.predict.specs.Laws.{NoLeftRecursion, NoDeadEnd};

use crate::symbol::Symbol;

/// A grammar whose rows are chosen by the next token.
///
/// Nonterminals, rows and kinds of tokens are numbers. Its two laws are what makes the parser end and blame rightly;
/// where the rows are written as a table, a test of the table shows both (see `specs/Table.antt`).
pub trait Grammar {
    /// What the functions below answer: the rules that a tree keeps to.
    ghost rules: { Self → Rules };

    /// A number for each nonterminal, for the first law.
    ghost rank: { Self → ℕ → ℕ };

    /// The nonterminals that may spell nothing, for the first law.
    ghost empty: { Self → ℕ → Bool };

    /// The lists of symbols that may be left to read, for the second law.
    ghost is_open: { Self → List Symbol → Type 0 };

    /// The nonterminal of a whole text.
    fn start(&self) -> u16
        ensures { result ≡ (rules self.now).start };

    /// The kind that ends each list of kinds.
    fn end_kind(&self) -> u16
        ensures { result ≡ (rules self.now).end_kind };

    /// The row that the nonterminal gives way to where this kind comes next; None where it has none.
    fn row(&self, left: u16, next: u16) -> Option<u16>
        ensures { result ≡ (rules self.now).row_at left next };

    /// The number of symbols of a row, which fits 32 bits.
    fn count(&self, row: u16) -> usize
        requires { IsRow (rules self.now) row }
        ensures count { result ≡ length ((rules self.now).symbols row) }
        ensures few { result < 2 ^ 32 };

    /// The symbol with this number in a row, counted from 0.
    fn symbol(&self, row: u16, i: usize) -> Symbol
        requires row { IsRow (rules self.now) row }
        requires within { i < length ((rules self.now).symbols row) }
        ensures { slice_get ((rules self.now).symbols row) i ≡ Some result };

    /// No nonterminal leads back to itself before a token is taken. So only so many rows are chosen at one token.
    ghost no_left_recursion: { (g : Self) → NoLeftRecursion (rules g) (rank g) (empty g) };

    /// Whatever may be left to read can be read to its end. So what was read before a bad token begins some sentence.
    ghost no_dead_end: { (g : Self) → NoDeadEnd (rules g) (is_open g) };
}
