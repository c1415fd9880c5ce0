//! Statements: what is declared, set or tested has the type that is wanted.
ghost use Rattle.std.specs.Prelude.{◌≡◌, OnOk};
ghost use Rattle.c_tree.specs.rules.Types as rule;
ghost use Rattle.c_tree.specs.rules.Fields as fields;
ghost use Rattle.c_raw.specs.Blocks.{at_view, simple_view};
ghost use Rattle.c_form.specs.Scopes.{in_scope};
ghost use Rattle.c_form_types.specs.Places.{BlamesAt, item_blamed};

use crate::atom_types::{Walk, wanted, wanted_by};
use crate::right_sides::right_differs;
use alg_laws::Ty;
use c_form::cell_types::cell_type;
use c_form::scope::local_type;
use c_raw::{At, RawSimple, RawStatement};
use c_tree::{CAtom, CCell};
use va_base::NoMemory;

/// An atom to which a local is set.
fn local_set(
    walk: &Walk,
    least: &mut Option<usize>,
    number: u32,
    value: At<CAtom>,
) -> Result<(), NoMemory>
    ensures { OnOk result (BlamesAt walk.now least.old least.new
        (λ p. rule.wanted_by p.tree p.body p.known (rule.type_of_local number p.known) (at_view value))) }
{
    let ty = local_type(walk.scope, number);
    wanted_by(walk, least, ty, value)?;
    Ok(())
}

/// An atom to which a cell is set.
fn cell_set(
    walk: &Walk,
    least: &mut Option<usize>,
    cell: CCell,
    value: At<CAtom>,
) -> Result<(), NoMemory>
    ensures { OnOk result (BlamesAt walk.now least.old least.new
        (λ p. rule.wanted_by p.tree p.body p.known (fields.cell_type p.tree cell) (at_view value))) }
{
    let ty = cell_type(walk.alloc, walk.types.cells, cell)?;
    wanted_by(walk, least, ty, value)?;
    Ok(())
}

fn simple_differs(
    walk: &Walk,
    least: &mut Option<usize>,
    statement: &RawSimple,
) -> Result<(), NoMemory>
    ensures { OnOk result (BlamesAt walk.now least.old least.new
        (λ p. rule.simple_differs p.tree p.body p.known (simple_view statement.now))) }
{
    match statement {
        RawSimple::Constant { ty, at, right, .. } => {
            right_differs(walk, least, *ty, *at, right)?
        }
        RawSimple::Join { .. } => {}
        RawSimple::Head { ty, first, .. } => wanted(walk, least, *ty, *first)?,
        RawSimple::Assign { local, value } => { local_set(walk, least, local.value, *value)? }
        RawSimple::SetCell { cell, value } => { cell_set(walk, least, cell.value, *value)? }
        RawSimple::SetCollapse { value, .. } => { wanted(walk, least, Ty::Integer, *value)? }
        RawSimple::Report { .. } => {}
    }
    Ok(())
}

/// A statement of a body at a place where these types are known.
pub fn statement_differs(
    walk: &Walk,
    least: &mut Option<usize>,
    statement: &RawStatement,
) -> Result<(), NoMemory>
    ensures { OnOk result (BlamesAt walk.now least.old least.new
        (λ p. in_scope (item_blamed p.tree p.body) p.known statement.now)) }
{
    match statement {
        RawStatement::Simple(inner) => simple_differs(walk, least, inner)?,
        RawStatement::Leave { test, .. } => { wanted(walk, least, Ty::Integer, *test)? }
        RawStatement::If { test } => wanted(walk, least, Ty::Integer, *test)?,
        RawStatement::For => {}
        RawStatement::End { .. } => {}
    }
    Ok(())
}
