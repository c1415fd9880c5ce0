//! In a load function `alpha`, `x` and `dst` stand only where the function has that argument, and each cell that it reads is a
//! double.
ghost use Rattle.std.specs.Prelude.{◌≡◌, OnOk, map};
ghost use Rattle.std.specs.List.{flat_map};
ghost use Rattle.c_tree.specs.Raw as raw_tree;
ghost use Rattle.c_tree.specs.rules.Reach.{double_or_missing, factor_reached, load_reached, loads_reached, target_reached};
ghost use Rattle.c_raw.specs.Blocks.{at_view};
ghost use Rattle.c_raw.specs.Views.{load_view, loads_view, module_view};
ghost use Rattle.c_form.specs.Blames.{Blames};
ghost use Rattle.c_form.specs.FieldTypes.{BlamesByTypes, HasTypes};

use crate::load_arguments::{has_alpha, has_dst, has_solution};
use alg_laws::Ty;
use c_form::blame::{blame, blame_unless};
use c_form::cell_types::{CellTypes, cell_types, instance_type};
use c_raw::{At, RawLoad, RawLoads, RawModule};
use c_tree::{LoadFactor, LoadFunction, LoadTarget};
use std::alloc::Global;
use va_base::NoMemory;

fn target(least: &mut Option<usize>, function: LoadFunction, found: At<LoadTarget>)
    ensures { Blames least.old least.new (target_reached function (at_view found)) }
{
    if let LoadTarget::Node(_) = found.value {
        blame_unless(least, has_dst(function), found.at as usize);
    }
}

/// A cell that is read is a double, where it is there.
fn double_cell(least: &mut Option<usize>, found: Option<Ty>, at: usize)
    ensures { Blames least.old least.new (double_or_missing found at) }
{
    if let Some(Ty::Integer) = found {
        blame(least, at);
    }
}

fn factor(
    alloc: Global,
    least: &mut Option<usize>,
    types: &CellTypes,
    function: LoadFunction,
    found: At<LoadFactor>,
) -> Result<(), NoMemory>
    ensures { OnOk result (BlamesByTypes types.now least.old least.new
        (λ m. factor_reached m function (at_view found))) }
{
    match found.value {
        LoadFactor::Alpha => blame_unless(least, has_alpha(function), found.at as usize),
        LoadFactor::Cell(field) => {
            let ty = instance_type(alloc, types, field)?;
            double_cell(least, ty, found.at as usize + 2);
        }
        LoadFactor::Solution(_) => blame_unless(least, has_solution(function), found.at as usize),
    }
    Ok(())
}

fn factors(
    alloc: Global,
    least: &mut Option<usize>,
    types: &CellTypes,
    function: LoadFunction,
    list: &[At<LoadFactor>],
) -> Result<(), NoMemory>
    ensures { OnOk result (BlamesByTypes types.now least.old least.new
        (λ m. flat_map (factor_reached m function) (map at_view list.now))) }
{
    for found in list {
        factor(alloc, least, types, function, *found)?;
    }
    Ok(())
}

fn load(
    alloc: Global,
    least: &mut Option<usize>,
    types: &CellTypes,
    function: LoadFunction,
    found: &RawLoad,
) -> Result<(), NoMemory>
    ensures { OnOk result (BlamesByTypes types.now least.old least.new
        (λ m. load_reached m function (load_view found.now))) }
{
    target(least, function, found.target);
    factor(alloc, least, types, function, found.first)?;
    factors(alloc, least, types, function, found.more.as_list())?;
    Ok(())
}

fn loads(
    alloc: Global,
    least: &mut Option<usize>,
    types: &CellTypes,
    function: LoadFunction,
    list: &[RawLoad],
) -> Result<(), NoMemory>
    ensures { OnOk result (BlamesByTypes types.now least.old least.new
        (λ m. flat_map (load_reached m function) (map load_view list.now))) }
{
    for found in list {
        load(alloc, least, types, function, found)?;
    }
    Ok(())
}

fn all_loads(
    alloc: Global,
    least: &mut Option<usize>,
    types: &CellTypes,
    all: &RawLoads,
) -> Result<(), NoMemory>
    ensures { OnOk result ((m : raw_tree.RawModule) → HasTypes types.now m → raw_tree.RawModule.loads m ≡ loads_view all.now
        → Blames least.old least.new (loads_reached 0 m)) }
{
    let function = LoadFunction::ResidualResist;
    loads(alloc, least, types, function, all.of(function))?;
    let function = LoadFunction::ResidualReact;
    loads(alloc, least, types, function, all.of(function))?;
    let function = LoadFunction::JacobianResist;
    loads(alloc, least, types, function, all.of(function))?;
    let function = LoadFunction::JacobianReact;
    loads(alloc, least, types, function, all.of(function))?;
    let function = LoadFunction::JacobianTran;
    loads(alloc, least, types, function, all.of(function))?;
    let function = LoadFunction::SpiceRhsDc;
    loads(alloc, least, types, function, all.of(function))?;
    let function = LoadFunction::SpiceRhsTran;
    loads(alloc, least, types, function, all.of(function))?;
    Ok(())
}

/// Blames what the load functions of a module may not speak of.
pub fn module_loads(
    alloc: Global,
    least: &mut Option<usize>,
    tree: &RawModule,
) -> Result<(), NoMemory>
    ensures { OnOk result (Blames least.old least.new (loads_reached 0 (module_view tree.now))) }
{
    let types = cell_types(alloc, tree)?;
    all_loads(alloc, least, &types, &tree.loads)?;
    Ok(())
}
