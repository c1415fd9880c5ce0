//! The fields that access rows, load functions and nodes name.
ghost use Rattle.std.specs.Prelude.{◌≡◌, OnOk, map};
ghost use Rattle.std.specs.List.{flat_map};
ghost use Rattle.alg_laws.specs.declared.number.Ty.TheVariants.{Real};
ghost use Rattle.c_tree.specs.rules.Fields as rule;
ghost use Rattle.c_raw.specs.Blocks.{at_view};
ghost use Rattle.c_raw.specs.Views.{access_view, flag_view, load_view, loads_view, node_view};
ghost use Rattle.c_form.specs.CellUses as cell_uses;
ghost use Rattle.c_form.specs.FieldTypes.{BlamesByTypes};

use crate::blame::blame_unless;
use crate::cell_checks::{cell_missing, has_type};
use crate::cell_types::{CellTypes, cell_type, instance_type};
use alg_laws::Ty;
use c_raw::{At, RawAccess, RawLoad, RawLoads, RawNode};
use c_tree::{CCell, CField, LoadFactor};
use std::alloc::Global;
use va_base::NoMemory;

/// The given flag that an access row sets is an integer.
fn access_flag(
    alloc: Global,
    least: &mut Option<usize>,
    types: &CellTypes,
    flag: Option<At<CCell>>,
) -> Result<(), NoMemory>
    ensures { OnOk result (BlamesByTypes types.now least.old least.new
        (λ m. rule.access_flag m (flag_view flag))) }
{
    if let Some(cell) = flag {
        let found = cell_type(alloc, types, cell.value)?;
        blame_unless(least, has_type(Ty::Integer, found), cell.at as usize + 2);
    }
    Ok(())
}

fn access_row(
    alloc: Global,
    least: &mut Option<usize>,
    types: &CellTypes,
    row: RawAccess,
) -> Result<(), NoMemory>
    ensures { OnOk result (BlamesByTypes types.now least.old least.new
        (λ m. rule.access_cells m (access_view row))) }
{
    access_flag(alloc, least, types, row.flag)?;
    cell_missing(alloc, least, types, row.cell)?;
    Ok(())
}

pub fn access_rows(
    alloc: Global,
    least: &mut Option<usize>,
    types: &CellTypes,
    list: &[RawAccess],
) -> Result<(), NoMemory>
    ensures { OnOk result (BlamesByTypes types.now least.old least.new
        (λ m. flat_map (rule.access_cells m) (map access_view list.now))) }
{
    for row in list {
        access_row(alloc, least, types, *row)?;
    }
    Ok(())
}

/// A cell of the instance that a load reads.
fn factor(
    alloc: Global,
    least: &mut Option<usize>,
    types: &CellTypes,
    found: At<LoadFactor>,
) -> Result<(), NoMemory>
    ensures { OnOk result (BlamesByTypes types.now least.old least.new
        (λ m. cell_uses.factor_missing m (at_view found))) }
{
    if let LoadFactor::Cell(field) = found.value {
        let ty = instance_type(alloc, types, field)?;
        blame_unless(least, ty.is_some(), found.at as usize + 2);
    }
    Ok(())
}

fn factors(
    alloc: Global,
    least: &mut Option<usize>,
    types: &CellTypes,
    list: &[At<LoadFactor>],
) -> Result<(), NoMemory>
    ensures { OnOk result (BlamesByTypes types.now least.old least.new
        (λ m. flat_map (cell_uses.factor_missing m) (map at_view list.now))) }
{
    for found in list {
        factor(alloc, least, types, *found)?;
    }
    Ok(())
}

fn load(
    alloc: Global,
    least: &mut Option<usize>,
    types: &CellTypes,
    found: &RawLoad,
) -> Result<(), NoMemory>
    ensures { OnOk result (BlamesByTypes types.now least.old least.new
        (λ m. rule.load_cells m (load_view found.now))) }
{
    factor(alloc, least, types, found.first)?;
    factors(alloc, least, types, found.more.as_list())?;
    Ok(())
}

fn loads(
    alloc: Global,
    least: &mut Option<usize>,
    types: &CellTypes,
    list: &[RawLoad],
) -> Result<(), NoMemory>
    ensures { OnOk result (BlamesByTypes types.now least.old least.new
        (λ m. flat_map (rule.load_cells m) (map load_view list.now))) }
{
    for found in list {
        load(alloc, least, types, found)?;
    }
    Ok(())
}

/// The cells that the load functions read.
pub fn loads_cells(
    alloc: Global,
    least: &mut Option<usize>,
    types: &CellTypes,
    all: &RawLoads,
) -> Result<(), NoMemory>
    ensures { OnOk result (BlamesByTypes types.now least.old least.new
        (λ m. flat_map (rule.load_cells m) (rule.all_loads (loads_view all.now)))) }
{
    loads(alloc, least, types, all.residual_resist.as_list())?;
    loads(alloc, least, types, all.residual_react.as_list())?;
    loads(alloc, least, types, all.jacobian_resist.as_list())?;
    loads(alloc, least, types, all.jacobian_react.as_list())?;
    loads(alloc, least, types, all.jacobian_tran.as_list())?;
    loads(alloc, least, types, all.spice_rhs_dc.as_list())?;
    loads(alloc, least, types, all.spice_rhs_tran.as_list())?;
    Ok(())
}

/// A cell that a node names is a double.
fn node_cell(
    alloc: Global,
    least: &mut Option<usize>,
    types: &CellTypes,
    field: At<CField>,
) -> Result<(), NoMemory>
    ensures { OnOk result (BlamesByTypes types.now least.old least.new
        (λ m. rule.unlike Real (rule.instance_type m field.value) field.at)) }
{
    let found = instance_type(alloc, types, field.value)?;
    blame_unless(least, has_type(Ty::Real, found), field.at as usize);
    Ok(())
}

fn node(
    alloc: Global,
    least: &mut Option<usize>,
    types: &CellTypes,
    found: &RawNode,
) -> Result<(), NoMemory>
    ensures { OnOk result (BlamesByTypes types.now least.old least.new
        (λ m. rule.node_cells m (node_view found.now))) }
{
    node_cell(alloc, least, types, found.resist)?;
    node_cell(alloc, least, types, found.react)?;
    Ok(())
}

pub fn nodes(
    alloc: Global,
    least: &mut Option<usize>,
    types: &CellTypes,
    list: &[RawNode],
) -> Result<(), NoMemory>
    ensures { OnOk result (BlamesByTypes types.now least.old least.new
        (λ m. flat_map (rule.node_cells m) (map node_view list.now))) }
{
    for found in list {
        node(alloc, least, types, found)?;
    }
    Ok(())
}
