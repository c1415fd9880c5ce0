//! The numbers of the descriptors agree with the tables of their modules.
ghost use Rattle.std.specs.Prelude.{◌≡◌, ◌∷◌, [], drop, map};
ghost use Rattle.c_tree.specs.rules.Tables as rule;
ghost use Rattle.c_raw.specs.Views.{descriptor_view, file_view, module_view};
ghost use Rattle.c_form.specs.Blames.{Blames};

use crate::blame::blame_unless;
use crate::count::{entry_count, node_count, pair_count};
use crate::kinds::{instance_count, opvar_count, parameter_count};
use crate::numbering::wants;
use c_raw::{RawDescriptor, RawFile, RawModule};

fn descriptor(least: &mut Option<usize>, tree: &RawModule, found: &RawDescriptor)
    ensures { Blames least.old least.new (rule.descriptor_numbers (module_view tree.now) (descriptor_view found.now)) }
{
    let params = tree.params.as_list();
    wants(least, node_count(tree), found.num_nodes);
    blame_unless(
        least,
        found.num_terminals.value <= found.num_nodes.value,
        found.num_terminals.at as usize,
    );
    wants(least, entry_count(tree), found.num_entries);
    wants(least, pair_count(tree), found.num_collapsible);
    wants(least, parameter_count(params), found.num_params);
    wants(least, instance_count(params), found.num_instance_params);
    wants(least, opvar_count(params), found.num_opvars);
}

/// The descriptor at a place, where there is one, has the tables of a module.
fn descriptor_at(
    least: &mut Option<usize>,
    tree: &RawModule,
    index: usize,
    descriptors: &[RawDescriptor],
)
    ensures { Blames least.old least.new
        (rule.descriptors_agree (module_view tree.now ∷ []) (map descriptor_view (drop index descriptors.now))) }
{
    if index < descriptors.len() {
        descriptor(least, tree, &descriptors[index]);
    }
}

/// Each descriptor has the tables of its module.
pub fn descriptors_agree(
    least: &mut Option<usize>,
    modules: &[RawModule],
    descriptors: &[RawDescriptor],
)
    ensures { Blames least.old least.new (rule.descriptors_agree (map module_view modules.now) (map descriptor_view descriptors.now)) }
{
    for (index, tree) in modules.iter().enumerate() {
        descriptor_at(least, tree, index, descriptors);
    }
}

/// There is one descriptor for each module.
pub fn counts_agree(least: &mut Option<usize>, raw: &RawFile)
    ensures { Blames least.old least.new (rule.counts_agree (file_view raw.now)) }
{
    let count = raw.modules.as_list().len();
    let written = raw.num_descriptors.value as usize;
    let agree = written == count && raw.descriptors.as_list().len() == count;
    blame_unless(least, agree, raw.num_descriptors.at as usize);
}
