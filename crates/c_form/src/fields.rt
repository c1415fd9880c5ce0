//! Rule 2 of form, fields: each field that is named exists in its struct with the type that is needed there, and no struct has two
//! fields of one name.
ghost use Rattle.std.specs.Prelude.{◌≡◌, OnOk, IfOk, map, true};
ghost use Rattle.std.specs.List.{flat_map, enumerate_from, list_all};
ghost use Rattle.c_tree.specs.Form.{least_of};
ghost use Rattle.c_tree.specs.Raw as raw_tree;
ghost use Rattle.c_tree.specs.rules.Bodies as bodies;
ghost use Rattle.c_tree.specs.rules.Fields as rule;
ghost use Rattle.c_raw.specs.Blocks.{at_view, simple_view};
ghost use Rattle.c_raw.specs.Views.{file_view, has_bodies, module_has_bodies, module_view};
ghost use Rattle.c_form.specs.Blames.{Blames};
ghost use Rattle.c_form.specs.Bodies.{body_view, is_one_block};
ghost use Rattle.c_form.specs.CellUses.{atom_missing};
ghost use Rattle.c_form.specs.FieldTypes.{BlamesByTypes, HasTypes};

use crate::body::{Body, bodies_of};
use crate::cell_checks::cell_missing;
use crate::cell_types::{CellTypes, cell_types};
use crate::field_names::twice;
use crate::field_rows::{access_rows, loads_cells, nodes};
use crate::items::{ItemRule, in_items};
use c_raw::{At, RawFile, RawModule, RawSimple};
use c_tree::CAtom;
use std::alloc::Global;
use va_base::NoMemory;

fn atom(
    alloc: Global,
    least: &mut Option<usize>,
    types: &CellTypes,
    found: At<CAtom>,
) -> Result<(), NoMemory>
    ensures { OnOk result (BlamesByTypes types.now least.old least.new
        (λ m. atom_missing m (at_view found))) }
{
    if let CAtom::Cell(cell) = found.value {
        cell_missing(
            alloc,
            least,
            types,
            At {
                at: found.at,
                value: cell,
            },
        )?;
    }
    Ok(())
}

/// The cell that a statement sets.
fn cell_set(
    alloc: Global,
    least: &mut Option<usize>,
    types: &CellTypes,
    statement: &RawSimple,
) -> Result<(), NoMemory>
    ensures { OnOk result (BlamesByTypes types.now least.old least.new
        (λ m. flat_map (rule.cell_missing m) (bodies.set_cells (simple_view statement.now)))) }
{
    if let RawSimple::SetCell { cell, .. } = statement {
        cell_missing(alloc, least, types, *cell)?;
    }
    Ok(())
}

/// The types of the fields of a body's module.
#[derive(Drop)]
struct Cells<'a> {
    types: &'a CellTypes,
}

impl<'a> ItemRule for Cells<'a> {
    ghost subject = { raw_tree.RawModule };

    ghost knows = { λ cells m. HasTypes cells.types.now m };

    ghost in_atom = { atom_missing };

    ghost in_simple = { λ m s. flat_map (rule.cell_missing m) (bodies.set_cells s) };

    fn blame_atom(
        &self,
        alloc: Global,
        least: &mut Option<usize>,
        found: At<CAtom>,
    ) -> Result<(), NoMemory> {
        atom(alloc, least, self.types, found)
    }

    fn blame_simple(
        &self,
        alloc: Global,
        least: &mut Option<usize>,
        statement: &RawSimple,
    ) -> Result<(), NoMemory> {
        cell_set(alloc, least, self.types, statement)
    }
}

fn one_body(
    alloc: Global,
    least: &mut Option<usize>,
    types: &CellTypes,
    body: &Body,
) -> Result<(), NoMemory>
    requires { is_one_block body.now ≡ true }
    ensures { OnOk result (BlamesByTypes types.now least.old least.new
        (λ m. flat_map (rule.cell_missing m) (rule.body_cells (body_view body.now)))) }
{
    in_items(alloc, least, &Cells { types }, body)?;
    Ok(())
}

fn all_bodies(
    alloc: Global,
    least: &mut Option<usize>,
    types: &CellTypes,
    list: &[Body],
) -> Result<(), NoMemory>
    requires { list_all is_one_block list.now ≡ true }
    ensures { OnOk result (BlamesByTypes types.now least.old least.new
        (λ m. flat_map (λ b. flat_map (rule.cell_missing m) (rule.body_cells b)) (map body_view list.now))) }
{
    for body in list {
        one_body(alloc, least, types, body)?;
    }
    Ok(())
}

fn one_module(
    alloc: Global,
    least: &mut Option<usize>,
    index: usize,
    tree: &RawModule,
) -> Result<(), NoMemory>
    requires { module_has_bodies tree.now ≡ true }
    ensures { OnOk result (Blames least.old least.new (rule.fields_of_module index (module_view tree.now))) }
{
    let types = cell_types(alloc, tree)?;
    twice(alloc, least, tree.model_fields.as_list())?;
    twice(alloc, least, tree.inst_fields.as_list())?;
    let list = bodies_of(alloc, tree)?;
    all_bodies(alloc, least, &types, &list)?;
    access_rows(alloc, least, &types, tree.access.as_list())?;
    loads_cells(alloc, least, &types, &tree.loads)?;
    nodes(alloc, least, &types, tree.nodes.as_list())?;
    Ok(())
}

fn modules(alloc: Global, least: &mut Option<usize>, list: &[RawModule]) -> Result<(), NoMemory>
    requires { list_all module_has_bodies list.now ≡ true }
    ensures { OnOk result (Blames least.old least.new
        (flat_map (λ p. rule.fields_of_module p.0 p.1) (enumerate_from 0 (map module_view list.now)))) }
{
    for (index, tree) in list.iter().enumerate() {
        one_module(alloc, least, index, tree)?;
    }
    Ok(())
}

/// The least token at which a field is named that its struct doesn't have, or that has not the type that is needed there, or
/// which has the name of an earlier field of its struct. None where there is no such field.
pub fn fields_fault(alloc: Global, raw: &RawFile) -> Result<Option<usize>, NoMemory>
    requires { has_bodies raw.now ≡ true }
    ensures { IfOk result (λ least. least ≡ least_of (rule.fields_exist (file_view raw.now))) }
{
    let mut least = None;
    modules(alloc, &mut least, raw.modules.as_list())?;
    Ok(least)
}
