//! A staged module of which set-up stores nothing.
ghost use Rattle.std.specs.Prelude.{◌≡◌, []};
ghost use Rattle.ssa_ir.specs.Stages.{IsDerived, IsStaged};

use crate::body::Body;
use crate::stages::{Derived, Staged};
use std::alloc::Global;
use va_base::Items;

/// The same, with no values that set-up stores for the evaluations.
pub fn without_cells(alloc: Global, derived: Derived) -> Staged
    requires { IsDerived derived }
    ensures staged { IsStaged result }
    ensures module { result.module ≡ derived.module }
    ensures body { result.body ≡ derived.body }
    ensures rows { result.rows ≡ derived.rows }
    ensures operating_point { result.operating_point ≡ derived.operating_point }
    ensures flags { result.flags ≡ derived.flags }
    ensures entries { result.entries ≡ derived.entries }
    ensures cells { result.cells ≡ [] }
{
    Staged {
        module: derived.module,
        body: derived.body,
        rows: derived.rows,
        operating_point: derived.operating_point,
        flags: derived.flags,
        entries: derived.entries,
        stored: Body {
            instructions: Items::new(Vec::new(alloc)),
            free: 0,
        },
        cell_types: Items::new(Vec::new(alloc)),
        cells: Items::new(Vec::new(alloc)),
    }
}
