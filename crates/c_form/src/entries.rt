//! The elements of a module's tables agree with their places and with each other.
ghost use Rattle.std.specs.Prelude.{◌≡◌, map};
ghost use Rattle.std.specs.List.{flat_map, enumerate_from};
ghost use Rattle.c_tree.specs.rules.Tables as rule;
ghost use Rattle.c_raw.specs.Blocks.{at_view};
ghost use Rattle.c_raw.specs.Views.{access_view, entry_view, module_view, node_view, pair_view, param_view};
ghost use Rattle.c_form.specs.Blames.{Blames};
ghost use Rattle.c_form.specs.Parts as parts;

use crate::blame::{blame, blame_unless};
use crate::count::{entry_count, id_count, node_count, pair_count};
use crate::field::{is_react, is_resist};
use crate::numbering::wants;
use crate::ranges::below;
use c_raw::{At, RawAccess, RawEntry, RawModule, RawNode, RawPair, RawParam};

/// The array sizes in the instance's struct.
pub fn sizes_agree(least: &mut Option<usize>, tree: &RawModule)
    ensures { Blames least.old least.new (rule.sizes_agree (module_view tree.now)) }
{
    wants(least, node_count(tree).max(1), tree.sizes.node);
    wants(least, entry_count(tree).max(1), tree.sizes.jr);
    wants(least, entry_count(tree).max(1), tree.sizes.jq);
    wants(least, pair_count(tree).max(1), tree.sizes.col);
}

/// The fields that an element of the nodes names.
fn node_fields(least: &mut Option<usize>, row: usize, node: &RawNode)
    ensures { Blames least.old least.new (rule.node_fields (row, node_view node.now)) }
{
    blame_unless(
        least,
        is_resist(node.resist.value, row),
        node.resist.at as usize,
    );
    blame_unless(
        least,
        is_react(node.react.value, row),
        node.react.at as usize,
    );
}

pub fn nodes_fields(least: &mut Option<usize>, list: &[RawNode])
    ensures { Blames least.old least.new (flat_map rule.node_fields (enumerate_from 0 (map node_view list.now))) }
{
    for (index, node) in list.iter().enumerate() {
        node_fields(least, index, node);
    }
}

/// The second node of a pair.
fn second_below(least: &mut Option<usize>, count: usize, second: At<Option<u32>>)
    ensures { Blames least.old least.new (rule.second_below count (at_view second)) }
{
    if let Some(node) = second.value {
        below(least, count, node, second.at as usize);
    }
}

fn pair(least: &mut Option<usize>, tree: &RawModule, found: RawPair)
    ensures { Blames least.old least.new (rule.pair_numbers (module_view tree.now) (pair_view found)) }
{
    below(
        least,
        node_count(tree),
        found.first.value,
        found.first.at as usize,
    );
    second_below(least, node_count(tree), found.second);
}

pub fn pairs(least: &mut Option<usize>, tree: &RawModule, list: &[RawPair])
    ensures { Blames least.old least.new (flat_map (rule.pair_numbers (module_view tree.now)) (map pair_view list.now)) }
{
    for found in list {
        pair(least, tree, *found);
    }
}

/// An entry has a second node.
fn no_reference(least: &mut Option<usize>, second: At<Option<u32>>)
    ensures { Blames least.old least.new (rule.no_reference (at_view second)) }
{
    if second.value.is_none() {
        blame(least, second.at as usize);
    }
}

/// The offset of the reactive part is there where the entry has that part, and it has the entry's number.
fn offset_agrees(least: &mut Option<usize>, entry: usize, react: bool, offset: At<Option<u32>>)
    ensures { Blames least.old least.new (rule.offset_agrees entry react (at_view offset)) }
{
    match offset.value {
        None => blame_unless(least, !react, offset.at as usize),
        Some(number) => {
            blame_unless(least, react, offset.at as usize);
            blame_unless(least, number as usize == entry, offset.at as usize + 6);
        }
    }
}

fn entry(least: &mut Option<usize>, tree: &RawModule, index: usize, found: RawEntry)
    ensures { Blames least.old least.new (rule.entry_numbers (module_view tree.now) (index, entry_view found)) }
{
    pair(least, tree, found.pair);
    no_reference(least, found.pair.second);
    offset_agrees(least, index, found.react, found.react_offset);
}

pub fn entries(least: &mut Option<usize>, tree: &RawModule, list: &[RawEntry])
    ensures { Blames least.old least.new
        (flat_map (rule.entry_numbers (module_view tree.now)) (enumerate_from 0 (map entry_view list.now))) }
{
    for (index, found) in list.iter().enumerate() {
        entry(least, tree, index, *found);
    }
}

/// How many aliases a parameter has.
fn aliases_agree(least: &mut Option<usize>, param: &RawParam)
    ensures { Blames least.old least.new (rule.aliases_agree (param_view param.now)) }
{
    wants(
        least,
        param.names.as_list().len().saturating_sub(1),
        param.num_alias,
    );
}

pub fn params(least: &mut Option<usize>, list: &[RawParam])
    ensures { Blames least.old least.new (flat_map rule.aliases_agree (map param_view list.now)) }
{
    for param in list {
        aliases_agree(least, param);
    }
}

/// The id of an access row.
fn access_number(least: &mut Option<usize>, tree: &RawModule, row: &RawAccess)
    ensures { Blames least.old least.new (parts.access_number (module_view tree.now) (access_view row.now)) }
{
    below(least, id_count(tree), row.id.value, row.id.at as usize);
}

pub fn access(least: &mut Option<usize>, tree: &RawModule, list: &[RawAccess])
    ensures { Blames least.old least.new (flat_map (parts.access_number (module_view tree.now)) (map access_view list.now)) }
{
    for row in list {
        access_number(least, tree, row);
    }
}
