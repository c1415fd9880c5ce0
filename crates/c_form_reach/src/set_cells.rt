//! The cells that were set before, by the names of their fields.
ghost use Rattle.std.specs.Prelude.{◌≡◌, ◌||◌, not, false, ℕ, List, IfOk, OnOk};
ghost use Rattle.std.specs.Str.{bytes_eq};
ghost use Rattle.c_tree.specs.declared.body.CCell.{CCell as SpecCell};
ghost use Rattle.c_tree.specs.rules.Reach.{same_cell};
ghost use Rattle.c_form_reach.specs.Settings.{has_name, was_set};

use c_raw::field_names::field_name;
use c_tree::{CCell, Level};
use indexmap::IndexSet;
use std::alloc::Global;
use va_base::NoMemory;

/// The names of the fields of each struct that were set.
#[derive(Drop)]
pub struct SetCells {
    pub instance: IndexSet<Vec<u8>>,
    pub model: IndexSet<Vec<u8>>,
}

/// No cell was set.
pub fn no_cells(alloc: Global) -> SetCells
    ensures { (cell : SpecCell) → was_set result cell ≡ false }
{
    SetCells {
        instance: IndexSet::new(alloc),
        model: IndexSet::new(alloc),
    }
}

/// Enters a name, and tells whether it is new.
fn enter_name(names: &mut IndexSet<Vec<u8>>, name: Vec<u8>) -> Result<bool, NoMemory>
    ensures fresh { IfOk result (λ fresh. fresh ≡ not (has_name names.old name.items)) }
    ensures after { OnOk result ((other : List ℕ) → has_name names.new other ≡ (bytes_eq other name.items || has_name names.old other)) }
{
    let fresh = names.insert(name)?;
    Ok(fresh)
}

/// Enters a cell, and tells whether it is new.
pub fn enter_cell(alloc: Global, seen: &mut SetCells, cell: CCell) -> Result<bool, NoMemory>
    ensures fresh { IfOk result (λ fresh. fresh ≡ not (was_set seen.old cell)) }
    ensures after { OnOk result ((other : SpecCell) → was_set seen.new other ≡ (same_cell cell other || was_set seen.old other)) }
{
    let name = field_name(alloc, cell.field)?;
    match cell.level {
        Level::Instance => enter_name(&mut seen.instance, name),
        Level::Model => enter_name(&mut seen.model, name),
    }
}
