//! The lengths of a module's tables.
ghost use Rattle.std.specs.Prelude.{◌≡◌, length};
ghost use Rattle.c_tree.specs.Raw as raw_tree;
ghost use Rattle.c_raw.specs.Views.{module_view};

use c_raw::RawModule;

pub fn node_count(tree: &RawModule) -> usize
    ensures { result ≡ length (raw_tree.RawModule.nodes (module_view tree.now)) }
{
    tree.nodes.as_list().len()
}

pub fn entry_count(tree: &RawModule) -> usize
    ensures { result ≡ length (raw_tree.RawModule.entries (module_view tree.now)) }
{
    tree.entries.as_list().len()
}

pub fn pair_count(tree: &RawModule) -> usize
    ensures { result ≡ length (raw_tree.RawModule.collapse (module_view tree.now)) }
{
    tree.collapse.as_list().len()
}

/// How many parameters and operating-point variables there are. An id is below it.
pub fn id_count(tree: &RawModule) -> usize
    ensures { result ≡ length (raw_tree.RawModule.params (module_view tree.now)) }
{
    tree.params.as_list().len()
}
