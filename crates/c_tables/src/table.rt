//! The lines of a module's tables.
ghost use Rattle.std.specs.Prelude.{◌≡◌, ◌++◌, ◌∷◌, [], OnOk, codes, decimal, map};
ghost use Rattle.std.specs.List.{flat_map, enumerate_from};
ghost use Rattle.va_base.specs.Tables.{node_text, entry_text, pair_text, parameter_text, module_text, tables_text, line_of, parts_text, second_text};
ghost use Rattle.c_tree.specs.TablesOf.{node_line, entry_line, pair_line, parameter_line, module_tables};
ghost use Rattle.c_tables.specs.Prints.{Prints};

use crate::line::{put_index, put_name, put_number, put_quoted, put_word};
use crate::parameter::put_parameters;
use c_tree::{CModule, EntryRow, NodeRow, PairRow};
use std::alloc::AllocError;

/// Node number i.
fn put_node(out: &mut Vec<u8>, i: usize, node: &NodeRow) -> Result<(), AllocError>
    ensures { OnOk result (Prints out.old.items out.new.items (node_text (i, node_line node.now))) }
{
    put_word(out, "node", " ")?;
    put_index(out, i, " ")?;
    put_name(out, &node.name, " ")?;
    put_quoted(out, &node.units, " ")?;
    put_quoted(out, &node.residual_units, "\n")?;
    Ok(())
}

fn put_nodes(out: &mut Vec<u8>, nodes: &[NodeRow]) -> Result<(), AllocError>
    ensures { OnOk result (Prints out.old.items out.new.items
        (flat_map node_text (enumerate_from 0 (map node_line nodes.now)))) }
{
    for (index, node) in nodes.iter().enumerate() {
        put_node(out, index, node)?;
    }
    Ok(())
}

/// Which parts an entry has.
fn parts_word(resist: bool, react: bool) -> &'static str
    ensures { result.now ≡ parts_text resist react }
{
    match (resist, react) {
        (true, true) => "rx",
        (true, false) => "r",
        (false, true) => "x",
        (false, false) => "",
    }
}

fn put_entry(out: &mut Vec<u8>, entry: EntryRow) -> Result<(), AllocError>
    ensures { OnOk result (Prints out.old.items out.new.items (entry_text (entry_line entry))) }
{
    put_word(out, "entry", " ")?;
    put_number(out, entry.row, " ")?;
    put_number(out, entry.col, " ")?;
    put_word(out, parts_word(entry.resist, entry.react), "\n")?;
    Ok(())
}

fn put_entries(out: &mut Vec<u8>, entries: &[EntryRow]) -> Result<(), AllocError>
    ensures { OnOk result (Prints out.old.items out.new.items (flat_map entry_text (map entry_line entries.now))) }
{
    for entry in entries {
        put_entry(out, *entry)?;
    }
    Ok(())
}

/// The node into which another may collapse, or the reference node, at the end of a line.
fn put_second(out: &mut Vec<u8>, second: Option<u32>) -> Result<(), AllocError>
    ensures { OnOk result (Prints out.old.items out.new.items (second_text second ++ codes "\n")) }
{
    match second {
        None => put_word(out, "ref", "\n"),
        Some(node) => put_number(out, node, "\n"),
    }
}

fn put_pair(out: &mut Vec<u8>, pair: PairRow) -> Result<(), AllocError>
    ensures { OnOk result (Prints out.old.items out.new.items (pair_text (pair_line pair))) }
{
    put_word(out, "collapse", " ")?;
    put_number(out, pair.first, " ")?;
    put_second(out, pair.second)?;
    Ok(())
}

fn put_pairs(out: &mut Vec<u8>, pairs: &[PairRow]) -> Result<(), AllocError>
    ensures { OnOk result (Prints out.old.items out.new.items (flat_map pair_text (map pair_line pairs.now))) }
{
    for pair in pairs {
        put_pair(out, *pair)?;
    }
    Ok(())
}

/// The line of a module's name.
fn put_module_name(out: &mut Vec<u8>, tree: &CModule) -> Result<(), AllocError>
    ensures { OnOk result (Prints out.old.items out.new.items (line_of (codes "module") (tree.now.name ∷ []))) }
{
    put_word(out, "module", " ")?;
    put_name(out, &tree.name, "\n")?;
    Ok(())
}

/// The line of a module's ports: how many of its unknowns they are.
fn put_ports(out: &mut Vec<u8>, ports: u32) -> Result<(), AllocError>
    ensures { OnOk result (Prints out.old.items out.new.items (line_of (codes "ports") (decimal ports ∷ []))) }
{
    put_word(out, "ports", " ")?;
    put_number(out, ports, "\n")?;
    Ok(())
}

fn put_module(out: &mut Vec<u8>, tree: &CModule) -> Result<(), AllocError>
    ensures { OnOk result (Prints out.old.items out.new.items (module_text (module_tables tree.now))) }
{
    put_module_name(out, tree)?;
    put_ports(out, tree.ports)?;
    put_nodes(out, tree.nodes.as_list())?;
    put_entries(out, tree.entries.as_list())?;
    put_pairs(out, tree.collapse.as_list())?;
    put_parameters(out, tree.params.as_list())?;
    Ok(())
}

/// The tables of some modules, in order.
pub fn put_modules(out: &mut Vec<u8>, modules: &[CModule]) -> Result<(), AllocError>
    ensures { OnOk result (Prints out.old.items out.new.items (tables_text (map module_tables modules.now))) }
{
    for tree in modules {
        put_module(out, tree)?;
    }
    Ok(())
}
