//! The grammar of Verilog-A, as the parser reads it.
ghost use Rattle.std.specs.Prelude.{◌≡◌, ℕ, ◌<◌, ◌^◌, Some, None, length, map, slice_get};
ghost use Rattle.predict.specs.Rules.{IsRow};
ghost use Rattle.va_grammar.specs.Cells.{row_of};
ghost use Rattle.predict.specs.FirstFit.{IsFirstFit, IsRowOf, NoneFits};
ghost use Rattle.va_grammar.specs.Parts.{symbol_of};
ghost use Rattle.va_grammar.specs.Sets.{va_grammar, va_rules};

use crate::nonterminal::Nonterminal;
use crate::rows::Part;
use crate::tables::{FIRST_ROWS, KINDS, NONTERMINALS, ROW_AT, ROWS};
use crate::terminal::Terminal;
use predict::{Grammar, Symbol};

/// The rows of Verilog-A (see `specs/Rows.antt`).
///
/// `row` answers the first written row of the nonterminal that fits the next token: that can begin with it, or that can
/// be empty where the token can follow the nonterminal. So an `else` belongs to the nearest `if` (Conditional statements),
/// and binary operators associate to the left (Expressions).
#[derive(Clone, Copy, Debug)]
pub struct VaRows;

impl Grammar for VaRows {
    ghost use Rattle.predict.specs.Table.{table_open};
    ghost use Rattle.va_grammar.specs.Sets.{va_rules, va_table};
    ghost use Rattle.va_grammar.specs.Evidence.{va_evidence};
    ghost use Rattle.va_grammar.specs.VaLaws.{va_no_left_recursion, va_no_dead_end};

    ghost rules = { λ _. va_rules };

    ghost rank = { λ _. va_evidence.rank };

    ghost empty = { λ _. va_evidence.empty };

    ghost is_open = { λ _. table_open va_table va_evidence };

    ghost no_left_recursion = { λ _. va_no_left_recursion };

    ghost no_dead_end = { λ _. va_no_dead_end };

    fn start(&self) -> u16 {
        Nonterminal::Source.number()
    }

    fn end_kind(&self) -> u16 {
        Terminal::EndOfText.number()
    }

    fn row(&self, left: u16, next: u16) -> Option<u16>
        ensures ruled { result ≡ va_rules.row_at left next }
        ensures first { (row : ℕ) → result ≡ Some row → IsFirstFit va_grammar left next row }
        ensures written { (row : ℕ) → result ≡ Some row → IsRowOf va_grammar row left (va_rules.symbols row) }
        ensures none { result ≡ None → NoneFits va_grammar left next }
    {
        row_at(left, next)
    }

    fn count(&self, row: u16) -> usize {
        parts(row).len()
    }

    fn symbol(&self, row: u16, i: usize) -> Symbol {
        parts(row)[i].symbol()
    }
}

/// The parts of a row.
fn parts(row: u16) -> &'static [Part]
    requires { IsRow va_rules row }
    ensures { map symbol_of result.now ≡ va_rules.symbols row }
{
    ROWS[row as usize]
}

/// The row that a nonterminal gives way to where this kind comes next.
fn row_at(left: u16, next: u16) -> Option<u16>
    ensures { result ≡ va_rules.row_at left next }
{
    if left as usize >= NONTERMINALS || next as usize >= KINDS {
        return None;
    }
    row_in(
        FIRST_ROWS[left as usize],
        ROW_AT[left as usize][next as usize],
    )
}

/// The row that a cell of the table tells, where the first row of its nonterminal has this number.
fn row_in(first_row: u8, cell: u8) -> Option<u16>
    ensures { result ≡ row_of first_row cell }
{
    match cell {
        b'0'..=b'9' => Some(first_row as u16 + (cell - b'0') as u16),
        _ => None,
    }
}
