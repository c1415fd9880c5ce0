//! The tables of a module.
ghost use Rattle.std.specs.Prelude.{◌≡◌, OnOk, ◌++◌, codes, true};
ghost use Rattle.std.specs.List.{flat_map, enumerate_from};
ghost use Rattle.c_tree.specs.Words as words_spec;
ghost use Rattle.c_tree.specs.Words.{marked, with_commas, template, numbered, string_word, unsigned};
ghost use Rattle.c_tree.specs.Text as text;
ghost use Rattle.c_tree.specs.Text.{offset_words, node_words, second_word, pair_words, react_offset_words, parts_words, entry_words, parameter_type_word, kind_word, parameter_words, elements_words, tables_words};
ghost use Rattle.c_print.specs.Prints.{Prints};

use crate::words::{
    put_count, put_indexed, put_integer, put_string, put_template, put_unsigned, put_word,
};
use c_tree::{CModule, EntryRow, NodeRow, PairRow, ParamKind, ParamRow};
use std::alloc::AllocError;
use va_base::Name;

/// The offset of a field of the instance, by its name.
pub fn put_offset(out: &mut Vec<u8>, k: usize, field: &str) -> Result<(), AllocError>
    ensures { OnOk result (Prints out.old.items out.new.items (offset_words k field.now)) }
{
    put_template(out, "offsetof (")?;
    put_indexed(out, "inst_", k)?;
    put_word(out, b",")?;
    put_word(out, field.as_bytes())?;
    put_word(out, b")")?;
    Ok(())
}

/// The offset of a field of the instance, by its letter and its number.
fn put_row_offset(out: &mut Vec<u8>, k: usize, letter: &str, index: usize) -> Result<(), AllocError>
    ensures { OnOk result (Prints out.old.items out.new.items (offset_words k (numbered letter.now index))) }
{
    put_template(out, "offsetof (")?;
    put_indexed(out, "inst_", k)?;
    put_word(out, b",")?;
    put_indexed(out, letter, index)?;
    put_word(out, b")")?;
    Ok(())
}

/// Node number i of module k.
fn put_node(out: &mut Vec<u8>, k: usize, i: usize, node: &NodeRow) -> Result<(), AllocError>
    ensures { OnOk result (Prints out.old.items out.new.items (node_words k i node.now)) }
{
    put_template(out, "{ .name =")?;
    put_string(out, &node.name)?;
    put_template(out, ", .units =")?;
    put_string(out, &node.units)?;
    put_template(out, ", .residual_units =")?;
    put_string(out, &node.residual_units)?;
    put_template(out, ", .resist_residual_off =")?;
    put_row_offset(out, k, "r", i)?;
    put_template(out, ", .react_residual_off =")?;
    put_row_offset(out, k, "q", i)?;
    put_template(
        out,
        ", .resist_limit_rhs_off = UINT32_MAX , .react_limit_rhs_off = UINT32_MAX , .is_flow =",
    )?;
    put_integer(out, node.is_flow)?;
    put_word(out, b"}")?;
    Ok(())
}

fn put_second(out: &mut Vec<u8>, second: Option<u32>) -> Result<(), AllocError>
    ensures { OnOk result (Prints out.old.items out.new.items (words_spec.word (second_word second))) }
{
    match second {
        None => put_word(out, b"UINT32_MAX"),
        Some(node) => put_unsigned(out, node),
    }
}

fn put_pair(out: &mut Vec<u8>, pair: PairRow) -> Result<(), AllocError>
    ensures { OnOk result (Prints out.old.items out.new.items (pair_words pair)) }
{
    put_template(out, "{ .node_1 =")?;
    put_unsigned(out, pair.first)?;
    put_template(out, ", .node_2 =")?;
    put_second(out, pair.second)?;
    put_word(out, b"}")?;
    Ok(())
}

/// The offset of the pointer to the reactive part of entry e.
fn put_pointer_offset(out: &mut Vec<u8>, k: usize, e: usize) -> Result<(), AllocError>
    ensures { OnOk result (Prints out.old.items out.new.items (react_offset_words k e true)) }
{
    put_template(out, "offsetof (")?;
    put_indexed(out, "inst_", k)?;
    put_template(out, ", jq [")?;
    put_count(out, e)?;
    put_template(out, "] )")?;
    Ok(())
}

fn put_react_offset(out: &mut Vec<u8>, k: usize, e: usize, react: bool) -> Result<(), AllocError>
    ensures { OnOk result (Prints out.old.items out.new.items (react_offset_words k e react)) }
{
    match react {
        true => put_pointer_offset(out, k, e),
        false => put_word(out, b"UINT32_MAX"),
    }
}

/// Which parts an entry has.
fn put_parts(out: &mut Vec<u8>, resist: bool, react: bool) -> Result<(), AllocError>
    ensures { OnOk result (Prints out.old.items out.new.items (parts_words resist react)) }
{
    match (resist, react) {
        (true, true) => put_template(out, "JACOBIAN_ENTRY_RESIST | JACOBIAN_ENTRY_REACT"),
        (true, false) => put_word(out, b"JACOBIAN_ENTRY_RESIST"),
        (false, true) => put_word(out, b"JACOBIAN_ENTRY_REACT"),
        (false, false) => Ok(()),
    }
}

/// Entry number e of module k.
fn put_entry(out: &mut Vec<u8>, k: usize, e: usize, entry: EntryRow) -> Result<(), AllocError>
    ensures { OnOk result (Prints out.old.items out.new.items (entry_words k e entry)) }
{
    put_template(out, "{ .nodes = { .node_1 =")?;
    put_unsigned(out, entry.row)?;
    put_template(out, ", .node_2 =")?;
    put_unsigned(out, entry.col)?;
    put_template(out, "} , .react_ptr_off =")?;
    put_react_offset(out, k, e, entry.react)?;
    put_template(out, ", .flags =")?;
    put_parts(out, entry.resist, entry.react)?;
    put_word(out, b"}")?;
    Ok(())
}

fn put_parameter_type(out: &mut Vec<u8>, integer: bool) -> Result<(), AllocError>
    ensures { OnOk result (Prints out.old.items out.new.items (words_spec.word (parameter_type_word integer))) }
{
    match integer {
        true => put_word(out, b"PARA_TY_INT"),
        false => put_word(out, b"PARA_TY_REAL"),
    }
}

fn put_kind(out: &mut Vec<u8>, kind: ParamKind) -> Result<(), AllocError>
    ensures { OnOk result (Prints out.old.items out.new.items (words_spec.word (kind_word kind))) }
{
    match kind {
        ParamKind::Inst => put_word(out, b"PARA_KIND_INST"),
        ParamKind::Model => put_word(out, b"PARA_KIND_MODEL"),
        ParamKind::Opvar => put_word(out, b"PARA_KIND_OPVAR"),
    }
}

/// Names as strings, with a comma before each.
fn put_more_names(out: &mut Vec<u8>, names: &[Name]) -> Result<(), AllocError>
    ensures { OnOk result (Prints out.old.items out.new.items
        (marked (codes ",") (λ name. words_spec.word (string_word name)) names.now)) }
{
    for name in names {
        put_word(out, b",")?;
        put_string(out, name)?;
    }
    Ok(())
}

/// Names as strings, with a comma between each two.
fn put_names(out: &mut Vec<u8>, names: &[Name]) -> Result<(), AllocError>
    ensures { OnOk result (Prints out.old.items out.new.items
        (with_commas (λ name. words_spec.word (string_word name)) names.now)) }
{
    if names.is_empty() {
        return Ok(());
    }
    put_string(out, &names[0])?;
    put_more_names(out, &names[1..])?;
    Ok(())
}

/// How many of the names are aliases.
fn alias_count(names: &[Name]) -> usize
    ensures { result ≡ text.alias_count names.now }
{
    if names.is_empty() { 0 } else { names.len() - 1 }
}

fn put_parameter(out: &mut Vec<u8>, parameter: &ParamRow) -> Result<(), AllocError>
    ensures { OnOk result (Prints out.old.items out.new.items (parameter_words parameter.now)) }
{
    let names = parameter.names.as_list();
    put_template(out, "{ .name = ( char * [ ] ) {")?;
    put_names(out, names)?;
    put_template(out, "} , .num_alias =")?;
    put_count(out, alias_count(names))?;
    put_template(out, ", .description =")?;
    put_string(out, &parameter.description)?;
    put_template(out, ", .units =")?;
    put_string(out, &parameter.units)?;
    put_template(out, ", .flags =")?;
    put_parameter_type(out, parameter.integer)?;
    put_word(out, b"|")?;
    put_kind(out, parameter.kind)?;
    put_template(out, ", .len = 0u }")?;
    Ok(())
}

fn put_nodes(out: &mut Vec<u8>, k: usize, nodes: &[NodeRow]) -> Result<(), AllocError>
    ensures { OnOk result (Prints out.old.items out.new.items
        (flat_map (λ p. node_words k p.0 p.1 ++ words_spec.word (codes ",")) (enumerate_from 0 nodes.now))) }
{
    for (index, node) in nodes.iter().enumerate() {
        put_node(out, k, index, node)?;
        put_word(out, b",")?;
    }
    Ok(())
}

fn put_entries(out: &mut Vec<u8>, k: usize, entries: &[EntryRow]) -> Result<(), AllocError>
    ensures { OnOk result (Prints out.old.items out.new.items
        (flat_map (λ p. entry_words k p.0 p.1 ++ words_spec.word (codes ",")) (enumerate_from 0 entries.now))) }
{
    for (index, entry) in entries.iter().enumerate() {
        put_entry(out, k, index, *entry)?;
        put_word(out, b",")?;
    }
    Ok(())
}

fn put_pairs(out: &mut Vec<u8>, pairs: &[PairRow]) -> Result<(), AllocError>
    ensures { OnOk result (Prints out.old.items out.new.items
        (flat_map (λ pair. pair_words pair ++ words_spec.word (codes ",")) pairs.now)) }
{
    for pair in pairs {
        put_pair(out, *pair)?;
        put_word(out, b",")?;
    }
    Ok(())
}

fn put_parameters(out: &mut Vec<u8>, parameters: &[ParamRow]) -> Result<(), AllocError>
    ensures { OnOk result (Prints out.old.items out.new.items
        (flat_map (λ parameter. parameter_words parameter ++ words_spec.word (codes ",")) parameters.now)) }
{
    for parameter in parameters {
        put_parameter(out, parameter)?;
        put_word(out, b",")?;
    }
    Ok(())
}

fn put_node_table(out: &mut Vec<u8>, k: usize, nodes: &[NodeRow]) -> Result<(), AllocError>
    ensures { OnOk result (Prints out.old.items out.new.items
        (elements_words (λ p. node_words k p.0 p.1) (enumerate_from 0 nodes.now))) }
{
    put_nodes(out, k, nodes)?;
    put_template(out, "{ 0 } } ;")?;
    Ok(())
}

fn put_entry_table(out: &mut Vec<u8>, k: usize, entries: &[EntryRow]) -> Result<(), AllocError>
    ensures { OnOk result (Prints out.old.items out.new.items
        (elements_words (λ p. entry_words k p.0 p.1) (enumerate_from 0 entries.now))) }
{
    put_entries(out, k, entries)?;
    put_template(out, "{ 0 } } ;")?;
    Ok(())
}

fn put_pair_table(out: &mut Vec<u8>, pairs: &[PairRow]) -> Result<(), AllocError>
    ensures { OnOk result (Prints out.old.items out.new.items (elements_words pair_words pairs.now)) }
{
    put_pairs(out, pairs)?;
    put_template(out, "{ 0 } } ;")?;
    Ok(())
}

fn put_parameter_table(out: &mut Vec<u8>, parameters: &[ParamRow]) -> Result<(), AllocError>
    ensures { OnOk result (Prints out.old.items out.new.items (elements_words parameter_words parameters.now)) }
{
    put_parameters(out, parameters)?;
    put_template(out, "{ 0 } } ;")?;
    Ok(())
}

/// The tables of module k.
pub fn put_tables(out: &mut Vec<u8>, k: usize, tree: &CModule) -> Result<(), AllocError>
    ensures { OnOk result (Prints out.old.items out.new.items (tables_words k tree.now)) }
{
    put_word(out, b"OsdiNode")?;
    put_indexed(out, "nodes_", k)?;
    put_template(out, "[ ] = {")?;
    put_node_table(out, k, tree.nodes.as_list())?;
    put_word(out, b"OsdiJacobianEntry")?;
    put_indexed(out, "entries_", k)?;
    put_template(out, "[ ] = {")?;
    put_entry_table(out, k, tree.entries.as_list())?;
    put_word(out, b"OsdiNodePair")?;
    put_indexed(out, "collapse_", k)?;
    put_template(out, "[ ] = {")?;
    put_pair_table(out, tree.collapse.as_list())?;
    put_word(out, b"OsdiParamOpvar")?;
    put_indexed(out, "params_", k)?;
    put_template(out, "[ ] = {")?;
    put_parameter_table(out, tree.params.as_list())?;
    Ok(())
}
