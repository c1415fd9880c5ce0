//! Numbers of nodes, entries, pairs and ids are in range.
ghost use Rattle.std.specs.Prelude.{◌≡◌, OnOk, map, true};
ghost use Rattle.std.specs.List.{flat_map, list_all};
ghost use Rattle.c_tree.specs.Raw as raw_tree;
ghost use Rattle.c_tree.specs.rules.Bodies as bodies;
ghost use Rattle.c_tree.specs.rules.Fields.{all_loads};
ghost use Rattle.c_tree.specs.rules.Tables as rule;
ghost use Rattle.c_raw.specs.Blocks.{at_view, simple_view};
ghost use Rattle.c_raw.specs.Views.{load_view, loads_view, module_has_bodies, module_view};
ghost use Rattle.c_form.specs.Blames.{Blames};
ghost use Rattle.c_form.specs.Bodies.{body_view, is_one_block};
ghost use Rattle.c_form.specs.Parts as parts;

use crate::blame::blame_unless;
use crate::body::{Body, bodies_of};
use crate::count::{entry_count, id_count, node_count, pair_count};
use crate::items::{ItemRule, in_items};
use c_raw::{At, RawLoad, RawLoads, RawModule, RawSimple};
use c_tree::{CAtom, LoadFactor, LoadTarget};
use std::alloc::Global;
use va_base::NoMemory;

/// A number that has to be below another.
pub fn below(least: &mut Option<usize>, count: usize, number: u32, at: usize)
    ensures { Blames least.old least.new (rule.below count number at) }
{
    blame_unless(least, (number as usize) < count, at);
}

fn unknown(least: &mut Option<usize>, tree: &RawModule, atom: At<CAtom>)
    ensures { Blames least.old least.new (parts.unknown_number (module_view tree.now) (at_view atom)) }
{
    if let CAtom::Unknown(node) = atom.value {
        below(least, node_count(tree), node, atom.at as usize + 6);
    }
}

/// The number of a collapse flag that a statement sets, or the id that it reports.
fn simple_numbers(least: &mut Option<usize>, tree: &RawModule, statement: &RawSimple)
    ensures { Blames least.old least.new (parts.simple_numbers (module_view tree.now) (simple_view statement.now)) }
{
    match statement {
        RawSimple::SetCollapse { pair, .. } => {
            below(least, pair_count(tree), pair.value, pair.at as usize + 4)
        }
        RawSimple::Report { id } => below(least, id_count(tree), id.value, id.at as usize + 4),
        _ => {}
    }
}

/// The module whose tables the numbers are for.
#[derive(Drop)]
struct Numbers<'a> {
    tree: &'a RawModule,
}

impl<'a> ItemRule for Numbers<'a> {
    ghost subject = { raw_tree.RawModule };

    ghost knows = { λ numbers m. module_view numbers.tree.now ≡ m };

    ghost in_atom = { parts.unknown_number };

    ghost in_simple = { parts.simple_numbers };

    fn blame_atom(
        &self,
        _alloc: Global,
        least: &mut Option<usize>,
        atom: At<CAtom>,
    ) -> Result<(), NoMemory> {
        unknown(least, self.tree, atom);
        Ok(())
    }

    fn blame_simple(
        &self,
        _alloc: Global,
        least: &mut Option<usize>,
        statement: &RawSimple,
    ) -> Result<(), NoMemory> {
        simple_numbers(least, self.tree, statement);
        Ok(())
    }
}

/// The numbers in a body.
pub fn body_numbers(
    alloc: Global,
    least: &mut Option<usize>,
    tree: &RawModule,
    body: &Body,
) -> Result<(), NoMemory>
    requires { is_one_block body.now ≡ true }
    ensures { OnOk result (Blames least.old least.new (rule.body_numbers (module_view tree.now) (body_view body.now))) }
{
    in_items(alloc, least, &Numbers { tree }, body)?;
    Ok(())
}

fn target(least: &mut Option<usize>, tree: &RawModule, found: At<LoadTarget>)
    ensures { Blames least.old least.new (rule.target_number (module_view tree.now) (at_view found)) }
{
    match found.value {
        LoadTarget::Node(node) => below(least, node_count(tree), node, found.at as usize + 6),
        LoadTarget::EntryResist(entry) => {
            below(least, entry_count(tree), entry, found.at as usize + 5)
        }
        LoadTarget::EntryReact(entry) => {
            below(least, entry_count(tree), entry, found.at as usize + 5)
        }
    }
}

fn factor(least: &mut Option<usize>, tree: &RawModule, found: At<LoadFactor>)
    ensures { Blames least.old least.new (rule.factor_number (module_view tree.now) (at_view found)) }
{
    if let LoadFactor::Solution(node) = found.value {
        below(least, node_count(tree), node, found.at as usize + 6);
    }
}

fn factors(least: &mut Option<usize>, tree: &RawModule, list: &[At<LoadFactor>])
    ensures { Blames least.old least.new (flat_map (rule.factor_number (module_view tree.now)) (map at_view list.now)) }
{
    for found in list {
        factor(least, tree, *found);
    }
}

fn load(least: &mut Option<usize>, tree: &RawModule, found: &RawLoad)
    ensures { Blames least.old least.new (rule.load_numbers (module_view tree.now) (load_view found.now)) }
{
    target(least, tree, found.target);
    factor(least, tree, found.first);
    factors(least, tree, found.more.as_list());
}

fn loads(least: &mut Option<usize>, tree: &RawModule, list: &[RawLoad])
    ensures { Blames least.old least.new (flat_map (rule.load_numbers (module_view tree.now)) (map load_view list.now)) }
{
    for found in list {
        load(least, tree, found);
    }
}

/// The numbers in the load functions.
pub fn loads_numbers(least: &mut Option<usize>, tree: &RawModule, all: &RawLoads)
    ensures { Blames least.old least.new
        (flat_map (rule.load_numbers (module_view tree.now)) (all_loads (loads_view all.now))) }
{
    loads(least, tree, all.residual_resist.as_list());
    loads(least, tree, all.residual_react.as_list());
    loads(least, tree, all.jacobian_resist.as_list());
    loads(least, tree, all.jacobian_react.as_list());
    loads(least, tree, all.jacobian_tran.as_list());
    loads(least, tree, all.spice_rhs_dc.as_list());
    loads(least, tree, all.spice_rhs_tran.as_list());
}

fn all_bodies(
    alloc: Global,
    least: &mut Option<usize>,
    tree: &RawModule,
    list: &[Body],
) -> Result<(), NoMemory>
    requires { list_all is_one_block list.now ≡ true }
    ensures { OnOk result (Blames least.old least.new
        (flat_map (rule.body_numbers (module_view tree.now)) (map body_view list.now))) }
{
    for body in list {
        body_numbers(alloc, least, tree, body)?;
    }
    Ok(())
}

/// The numbers in the bodies.
pub fn bodies_numbers(
    alloc: Global,
    least: &mut Option<usize>,
    tree: &RawModule,
) -> Result<(), NoMemory>
    requires { module_has_bodies tree.now ≡ true }
    ensures { OnOk result (Blames least.old least.new
        (flat_map (rule.body_numbers (module_view tree.now)) (bodies.bodies_of (module_view tree.now)))) }
{
    let list = bodies_of(alloc, tree)?;
    all_bodies(alloc, least, tree, &list)?;
    Ok(())
}
