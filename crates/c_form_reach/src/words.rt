//! The cell and the collapse flag that a statement sets.
ghost use Rattle.std.specs.Prelude.{◌≡◌};
ghost use Rattle.c_tree.specs.rules.Bodies.{set_cells, set_flags};
ghost use Rattle.c_raw.specs.Blocks.{simple_view};
ghost use Rattle.c_form.specs.Blames.{Blames};
ghost use Rattle.c_form_reach.specs.Settings as settings;

use c_form::blame::blame;
use c_raw::{At, RawSimple};
use c_tree::CCell;

/// The cell that a statement sets.
pub fn cell_set(statement: &RawSimple) -> Option<At<CCell>>
    ensures { settings.listed result ≡ set_cells (simple_view statement.now) }
{
    match statement {
        RawSimple::SetCell { cell, .. } => Some(*cell),
        _ => None,
    }
}

/// The collapse flag that a statement sets.
pub fn flag_set(statement: &RawSimple) -> Option<At<u32>>
    ensures { settings.listed result ≡ set_flags (simple_view statement.now) }
{
    match statement {
        RawSimple::SetCollapse { pair, .. } => Some(*pair),
        _ => None,
    }
}

/// Blames the word of the cell, or of the flag, that a statement sets.
pub fn words_set(least: &mut Option<usize>, statement: &RawSimple)
    ensures { Blames least.old least.new (settings.words_set (simple_view statement.now)) }
{
    match statement {
        RawSimple::SetCell { cell, .. } => blame(least, cell.at as usize + 2),
        RawSimple::SetCollapse { pair, .. } => blame(least, pair.at as usize + 2),
        _ => {}
    }
}
