//! Rule 9 of form, tables: numbers of nodes, entries and ids are in range, parameters stand in the order of their kinds, and each
//! number that the file writes is what its tables have.
ghost use Rattle.std.specs.Prelude.{◌≡◌, IfOk, OnOk, map, true};
ghost use Rattle.std.specs.List.{flat_map, enumerate_from, list_all};
ghost use Rattle.c_tree.specs.Form.{least_of};
ghost use Rattle.c_tree.specs.rules.Tables.{numbers_of_module, tables_agree};
ghost use Rattle.c_raw.specs.Views.{file_view, has_bodies, module_has_bodies, module_view};
ghost use Rattle.c_form.specs.Blames.{Blames};

use crate::descriptors::{counts_agree, descriptors_agree};
use crate::entries::{access, entries, nodes_fields, pairs, params, sizes_agree};
use crate::kinds::kinds_in_order;
use crate::ranges::{bodies_numbers, loads_numbers};
use c_raw::{RawFile, RawModule};
use std::alloc::Global;
use va_base::NoMemory;

fn one_module(
    alloc: Global,
    least: &mut Option<usize>,
    index: usize,
    tree: &RawModule,
) -> Result<(), NoMemory>
    requires { module_has_bodies tree.now ≡ true }
    ensures { OnOk result (Blames least.old least.new (numbers_of_module index (module_view tree.now))) }
{
    bodies_numbers(alloc, least, tree)?;
    loads_numbers(least, tree, &tree.loads);
    access(least, tree, tree.access.as_list());
    sizes_agree(least, tree);
    nodes_fields(least, tree.nodes.as_list());
    pairs(least, tree, tree.collapse.as_list());
    entries(least, tree, tree.entries.as_list());
    params(least, tree.params.as_list());
    kinds_in_order(least, tree.params.as_list());
    Ok(())
}

fn modules(alloc: Global, least: &mut Option<usize>, list: &[RawModule]) -> Result<(), NoMemory>
    requires { list_all module_has_bodies list.now ≡ true }
    ensures { OnOk result (Blames least.old least.new
        (flat_map (λ p. numbers_of_module p.0 p.1) (enumerate_from 0 (map module_view list.now)))) }
{
    for (index, tree) in list.iter().enumerate() {
        one_module(alloc, least, index, tree)?;
    }
    Ok(())
}

/// The least token at which a number or a table disagrees with another: a number out of range, an element that names another's
/// field, a kind out of its order, a count or a size that the tables don't have. None where all agree.
pub fn tables_fault(alloc: Global, raw: &RawFile) -> Result<Option<usize>, NoMemory>
    requires { has_bodies raw.now ≡ true }
    ensures { IfOk result (λ least. least ≡ least_of (tables_agree (file_view raw.now))) }
{
    let mut least = None;
    modules(alloc, &mut least, raw.modules.as_list())?;
    counts_agree(&mut least, raw);
    descriptors_agree(&mut least, raw.modules.as_list(), raw.descriptors.as_list());
    Ok(least)
}
