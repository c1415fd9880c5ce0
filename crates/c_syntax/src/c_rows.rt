//! The grammar of C files, as the parser reads it.
ghost use Rattle.std.specs.Prelude.{◌≡◌, ℕ, ◌<◌, ◌^◌, Some, None, length, map, slice_get};
ghost use Rattle.predict.specs.Rules.{IsRow};
ghost use Rattle.predict.specs.FirstFit.{IsFirstFit, IsRowOf, NoneFits};
ghost use Rattle.c_syntax.specs.grammar.Sets.{c_grammar, c_rules, c_table};
ghost use Rattle.c_syntax.specs.grammar.Choices as choices;

use crate::row_tables::{KINDS, NEXT_KINDS, NEXT_ROWS, NONTERMINALS, ROWS};
use predict::{Grammar, Symbol};

/// The rows of C files (see `specs/grammar/Rows.antt`).
///
/// `row` answers the only row of the nonterminal that fits the next token: that can begin with it, or that can be empty where
/// the token can follow the nonterminal.
#[derive(Clone, Copy, Debug)]
pub struct CRows;

impl Grammar for CRows {
    ghost use Rattle.predict.specs.Table.{table_open};
    ghost use Rattle.c_syntax.specs.grammar.Sets.{c_rules, c_table};
    ghost use Rattle.c_syntax.specs.grammar.Evidence.{c_evidence};
    ghost use Rattle.c_syntax.specs.grammar.Laws.{c_no_left_recursion, c_no_dead_end};

    ghost rules = { λ _. c_rules };

    ghost rank = { λ _. c_evidence.rank };

    ghost empty = { λ _. c_evidence.empty };

    ghost is_open = { λ _. table_open c_table c_evidence };

    ghost no_left_recursion = { λ _. c_no_left_recursion };

    ghost no_dead_end = { λ _. c_no_dead_end };

    fn start(&self) -> u16 {
        0
    }

    fn end_kind(&self) -> u16 {
        0
    }

    fn row(&self, left: u16, next: u16) -> Option<u16>
        ensures ruled { result ≡ c_rules.row_at left next }
        ensures first { (row : ℕ) → result ≡ Some row → IsFirstFit c_grammar left next row }
        ensures written { (row : ℕ) → result ≡ Some row → IsRowOf c_grammar row left (c_rules.symbols row) }
        ensures none { result ≡ None → NoneFits c_grammar left next }
    {
        row_at(left, next)
    }

    fn count(&self, row: u16) -> usize {
        symbols(row).len()
    }

    fn symbol(&self, row: u16, i: usize) -> Symbol {
        symbol_numbered(symbols(row)[i])
    }
}

/// A symbol by its number: kinds come first, and nonterminals behind them.
fn symbol_numbered(number: u16) -> Symbol
    ensures { result ≡ choices.symbol_numbered number }
{
    if number < KINDS {
        Symbol::Kind(number)
    } else {
        Symbol::Left(number - KINDS)
    }
}

/// The numbers of the symbols of a row.
fn symbols(row: u16) -> &'static [u16]
    requires { IsRow c_rules row }
    ensures { map choices.symbol_numbered result.now ≡ c_rules.symbols row }
{
    ROWS[row as usize]
}

/// The place of a kind in a list.
fn place_of_kind(kinds: &[u16], next: u16) -> Option<usize>
    ensures { result ≡ choices.kind_place kinds.now next }
{
    for (place, kind) in kinds.iter().enumerate() {
        if *kind == next {
            return Some(place);
        }
    }
    None
}

/// The row with this place in a list.
fn row_in(rows: &[u16], place: usize) -> Option<u16>
    ensures { result ≡ slice_get rows.now place }
{
    if place < rows.len() {
        Some(rows[place])
    } else {
        None
    }
}

/// The kinds at which rows of a nonterminal are chosen.
fn kinds_at(left: u16) -> &'static [u16]
    requires { left < 72 }
    ensures { result.now ≡ choices.next_kinds c_table.rows left }
{
    NEXT_KINDS[left as usize]
}

/// And for each the row.
fn rows_at(left: u16) -> &'static [u16]
    requires { left < 72 }
    ensures { result.now ≡ choices.next_rows 0 c_table.rows left }
{
    NEXT_ROWS[left as usize]
}

/// The row that a nonterminal gives way to where this kind comes next.
fn row_at(left: u16, next: u16) -> Option<u16>
    ensures { result ≡ c_rules.row_at left next }
{
    if left as usize >= NONTERMINALS {
        return None;
    }
    match place_of_kind(kinds_at(left), next) {
        Some(place) => row_in(rows_at(left), place),
        None => None,
    }
}
