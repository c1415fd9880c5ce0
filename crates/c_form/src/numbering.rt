//! Rule 1 of form, numbering: modules, functions and descriptors are numbered in order from 0, and the number in each C name is that of its module.
ghost use Rattle.std.specs.Prelude.{◌≡◌, map};
ghost use Rattle.std.specs.List.{flat_map, enumerate_from};
ghost use Rattle.c_tree.specs.Form.{least_of};
ghost use Rattle.c_tree.specs.Raw as raw_tree;
ghost use Rattle.c_tree.specs.rules.Numbering as rule;
ghost use Rattle.c_raw.specs.Blocks.{at_view};
ghost use Rattle.c_raw.specs.Views.{descriptor_view, file_view, function_view, module_view};
ghost use Rattle.c_form.specs.Blames.{Blames};

use crate::blame::blame_unless;
use c_raw::{At, RawDescriptor, RawFile, RawFunction, RawModule};

/// A number that has to be a certain one.
pub fn wants(least: &mut Option<usize>, wanted: usize, number: At<u32>)
    ensures { Blames least.old least.new (rule.wants wanted (at_view number)) }
{
    blame_unless(least, number.value as usize == wanted, number.at as usize);
}

fn numbers(least: &mut Option<usize>, wanted: usize, list: &[At<u32>])
    ensures { Blames least.old least.new (flat_map (rule.wants wanted) (map at_view list.now)) }
{
    for number in list {
        wants(least, wanted, *number);
    }
}

fn functions(least: &mut Option<usize>, list: &[RawFunction])
    ensures { Blames least.old least.new
        (flat_map (λ p. rule.wants p.0 (raw_tree.RawFunction.number p.1)) (enumerate_from 0 (map function_view list.now))) }
{
    for (index, function) in list.iter().enumerate() {
        wants(least, index, function.number);
    }
}

fn one_module(least: &mut Option<usize>, k: usize, tree: &RawModule)
    ensures { Blames least.old least.new (rule.numbered_module k (module_view tree.now)) }
{
    numbers(least, k, tree.numbers.as_list());
    functions(least, tree.functions.as_list());
}

fn modules(least: &mut Option<usize>, list: &[RawModule])
    ensures { Blames least.old least.new
        (flat_map (λ p. rule.numbered_module p.0 p.1) (enumerate_from 0 (map module_view list.now))) }
{
    for (index, tree) in list.iter().enumerate() {
        one_module(least, index, tree);
    }
}

fn descriptors(least: &mut Option<usize>, list: &[RawDescriptor])
    ensures { Blames least.old least.new
        (flat_map (λ p. flat_map (rule.wants p.0) (raw_tree.RawDescriptor.numbers p.1)) (enumerate_from 0 (map descriptor_view list.now))) }
{
    for (index, descriptor) in list.iter().enumerate() {
        numbers(least, index, descriptor.numbers.as_list());
    }
}

/// The least token at which a number is not the one that its place asks for: the module's number in a C name, or a function's
/// number. None where each is.
pub fn numbering_fault(raw: &RawFile) -> Option<usize>
    ensures { result ≡ least_of (rule.numbered_in_order (file_view raw.now)) }
{
    let mut least = None;
    modules(&mut least, raw.modules.as_list());
    descriptors(&mut least, raw.descriptors.as_list());
    least
}
