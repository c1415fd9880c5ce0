//! Cells that a text names are there, with the type that is needed.
ghost use Rattle.std.specs.Prelude.{◌≡◌, OnOk};
ghost use Rattle.c_tree.specs.SameType as type_equality;
ghost use Rattle.c_tree.specs.rules.Fields as rule;
ghost use Rattle.c_raw.specs.Blocks.{at_view};
ghost use Rattle.c_form.specs.FieldTypes as field_types;

use crate::blame::blame_unless;
use crate::cell_types::{CellTypes, cell_type};
use alg_laws::Ty;
use c_raw::At;
use c_tree::CCell;
use std::alloc::Global;
use va_base::NoMemory;

/// A cell that a body or a row names, at its word.
pub fn cell_missing(
    alloc: Global,
    least: &mut Option<usize>,
    types: &CellTypes,
    cell: At<CCell>,
) -> Result<(), NoMemory>
    ensures { OnOk result (field_types.BlamesByTypes types.now least.old least.new
        (λ m. rule.cell_missing m (at_view cell))) }
{
    let found = cell_type(alloc, types, cell.value)?;
    blame_unless(least, found.is_some(), cell.at as usize + 2);
    Ok(())
}

fn same_type(left: Ty, right: Ty) -> bool
    ensures { result ≡ type_equality.same_type left right }
{
    matches!(
        (left, right),
        (Ty::Integer, Ty::Integer) | (Ty::Real, Ty::Real)
    )
}

/// Whether a type is there and is the one that is wanted.
pub fn has_type(wanted: Ty, found: Option<Ty>) -> bool
    ensures { result ≡ field_types.has_type wanted found }
{
    match found {
        Some(ty) => same_type(ty, wanted),
        None => false,
    }
}
