//! The descriptors, and what a host looks for first.
ghost use Rattle.std.specs.Prelude.{◌≡◌, OnOk, ◌++◌, codes, length};
ghost use Rattle.std.specs.List.{flat_map, enumerate_from};
ghost use Rattle.c_tree.specs.Words as words_spec;
ghost use Rattle.c_tree.specs.Words.{template, unsigned};
ghost use Rattle.c_tree.specs.Text as text;
ghost use Rattle.c_tree.specs.Text.{count_kinds, table_fields_words, parameter_fields_words, offset_fields_words, function_fields_words, descriptor_words, elements_words, end_words};
ghost use Rattle.c_print.specs.Prints.{Prints};

use crate::load::put_load_fields;
use crate::table::put_offset;
use crate::words::{put_count, put_indexed, put_string, put_template, put_unsigned, put_word};
use c_tree::{CModule, ParamKind, ParamRow};
use std::alloc::AllocError;

fn is_instance_kind(kind: ParamKind) -> bool
    ensures { result ≡ text.is_instance_kind kind }
{
    matches!(kind, ParamKind::Inst)
}

fn is_parameter_kind(kind: ParamKind) -> bool
    ensures { result ≡ text.is_parameter_kind kind }
{
    matches!(kind, ParamKind::Inst | ParamKind::Model)
}

fn is_opvar_kind(kind: ParamKind) -> bool
    ensures { result ≡ text.is_opvar_kind kind }
{
    matches!(kind, ParamKind::Opvar)
}

/// How many parameters of instances there are.
fn instance_count(rows: &[ParamRow]) -> usize
    ensures { result ≡ count_kinds text.is_instance_kind rows.now }
{
    let mut count = 0;
    for row in rows {
        if is_instance_kind(row.kind) {
            count += 1;
        }
    }
    count
}

/// How many parameters there are.
fn parameter_count(rows: &[ParamRow]) -> usize
    ensures { result ≡ count_kinds text.is_parameter_kind rows.now }
{
    let mut count = 0;
    for row in rows {
        if is_parameter_kind(row.kind) {
            count += 1;
        }
    }
    count
}

/// How many operating-point variables there are.
fn opvar_count(rows: &[ParamRow]) -> usize
    ensures { result ≡ count_kinds text.is_opvar_kind rows.now }
{
    let mut count = 0;
    for row in rows {
        if is_opvar_kind(row.kind) {
            count += 1;
        }
    }
    count
}

fn put_node_count(out: &mut Vec<u8>, tree: &CModule) -> Result<(), AllocError>
    ensures { OnOk result (Prints out.old.items out.new.items (words_spec.word (unsigned (length tree.now.nodes)))) }
{
    put_count(out, tree.nodes.as_list().len())?;
    Ok(())
}

fn put_entry_count(out: &mut Vec<u8>, tree: &CModule) -> Result<(), AllocError>
    ensures { OnOk result (Prints out.old.items out.new.items (words_spec.word (unsigned (length tree.now.entries)))) }
{
    put_count(out, tree.entries.as_list().len())?;
    Ok(())
}

fn put_pair_count(out: &mut Vec<u8>, tree: &CModule) -> Result<(), AllocError>
    ensures { OnOk result (Prints out.old.items out.new.items (words_spec.word (unsigned (length tree.now.collapse)))) }
{
    put_count(out, tree.collapse.as_list().len())?;
    Ok(())
}

fn put_parameter_count(out: &mut Vec<u8>, tree: &CModule) -> Result<(), AllocError>
    ensures { OnOk result (Prints out.old.items out.new.items
        (words_spec.word (unsigned (count_kinds text.is_parameter_kind tree.now.params)))) }
{
    put_count(out, parameter_count(tree.params.as_list()))?;
    Ok(())
}

fn put_instance_count(out: &mut Vec<u8>, tree: &CModule) -> Result<(), AllocError>
    ensures { OnOk result (Prints out.old.items out.new.items
        (words_spec.word (unsigned (count_kinds text.is_instance_kind tree.now.params)))) }
{
    put_count(out, instance_count(tree.params.as_list()))?;
    Ok(())
}

fn put_opvar_count(out: &mut Vec<u8>, tree: &CModule) -> Result<(), AllocError>
    ensures { OnOk result (Prints out.old.items out.new.items
        (words_spec.word (unsigned (count_kinds text.is_opvar_kind tree.now.params)))) }
{
    put_count(out, opvar_count(tree.params.as_list()))?;
    Ok(())
}

/// The fields of the tables, in the descriptor of module k.
fn put_table_fields(out: &mut Vec<u8>, k: usize, tree: &CModule) -> Result<(), AllocError>
    ensures { OnOk result (Prints out.old.items out.new.items (table_fields_words k tree.now)) }
{
    put_template(out, "{ .name =")?;
    put_string(out, &tree.name)?;
    put_template(out, ", .num_nodes =")?;
    put_node_count(out, tree)?;
    put_template(out, ", .num_terminals =")?;
    put_unsigned(out, tree.ports)?;
    put_template(out, ", .nodes =")?;
    put_indexed(out, "nodes_", k)?;
    put_template(out, ", .num_jacobian_entries =")?;
    put_entry_count(out, tree)?;
    put_template(out, ", .jacobian_entries =")?;
    put_indexed(out, "entries_", k)?;
    put_template(out, ", .num_collapsible =")?;
    put_pair_count(out, tree)?;
    put_template(out, ", .collapsible =")?;
    put_indexed(out, "collapse_", k)?;
    Ok(())
}

/// The fields of the parameters.
fn put_parameter_fields(out: &mut Vec<u8>, k: usize, tree: &CModule) -> Result<(), AllocError>
    ensures { OnOk result (Prints out.old.items out.new.items (parameter_fields_words k tree.now)) }
{
    put_template(out, ", .collapsed_offset =")?;
    put_offset(out, k, "col")?;
    put_template(
        out,
        ", .noise_sources = 0 , .num_noise_src = 0u , .num_params =",
    )?;
    put_parameter_count(out, tree)?;
    put_template(out, ", .num_instance_params =")?;
    put_instance_count(out, tree)?;
    put_template(out, ", .num_opvars =")?;
    put_opvar_count(out, tree)?;
    put_template(out, ", .param_opvar =")?;
    put_indexed(out, "params_", k)?;
    Ok(())
}

/// The offsets and sizes.
fn put_offset_fields(out: &mut Vec<u8>, k: usize) -> Result<(), AllocError>
    ensures { OnOk result (Prints out.old.items out.new.items (offset_fields_words k)) }
{
    put_template(out, ", .node_mapping_offset =")?;
    put_offset(out, k, "node")?;
    put_template(out, ", .jacobian_ptr_resist_offset =")?;
    put_offset(out, k, "jr")?;
    put_template(
        out,
        ", .num_states = 0u , .state_idx_off = 0u , .bound_step_offset = UINT32_MAX , .instance_size = sizeof (",
    )?;
    put_indexed(out, "inst_", k)?;
    put_template(out, ") , .model_size = sizeof (")?;
    put_indexed(out, "model_", k)?;
    put_word(out, b")")?;
    Ok(())
}

/// The fields of the functions.
fn put_function_fields(out: &mut Vec<u8>, k: usize) -> Result<(), AllocError>
    ensures { OnOk result (Prints out.old.items out.new.items (function_fields_words k)) }
{
    put_template(out, ", .access =")?;
    put_indexed(out, "access_", k)?;
    put_template(out, ", .setup_model =")?;
    put_indexed(out, "setup_model_", k)?;
    put_template(out, ", .setup_instance =")?;
    put_indexed(out, "setup_instance_", k)?;
    put_template(out, ", .eval =")?;
    put_indexed(out, "eval_", k)?;
    put_template(
        out,
        ", .load_noise = 0 , .load_limit_rhs_resist = load_nothing , .load_limit_rhs_react = load_nothing",
    )?;
    put_load_fields(out, k)?;
    Ok(())
}

/// The descriptor of module k.
fn put_descriptor(out: &mut Vec<u8>, k: usize, tree: &CModule) -> Result<(), AllocError>
    ensures { OnOk result (Prints out.old.items out.new.items (descriptor_words k tree.now)) }
{
    put_table_fields(out, k, tree)?;
    put_parameter_fields(out, k, tree)?;
    put_offset_fields(out, k)?;
    put_function_fields(out, k)?;
    put_word(out, b"}")?;
    Ok(())
}

fn put_descriptors(out: &mut Vec<u8>, modules: &[CModule]) -> Result<(), AllocError>
    ensures { OnOk result (Prints out.old.items out.new.items
        (flat_map (λ p. descriptor_words p.0 p.1 ++ words_spec.word (codes ",")) (enumerate_from 0 modules.now))) }
{
    for (index, tree) in modules.iter().enumerate() {
        put_descriptor(out, index, tree)?;
        put_word(out, b",")?;
    }
    Ok(())
}

fn put_descriptor_table(out: &mut Vec<u8>, modules: &[CModule]) -> Result<(), AllocError>
    ensures { OnOk result (Prints out.old.items out.new.items
        (elements_words (λ p. descriptor_words p.0 p.1) (enumerate_from 0 modules.now))) }
{
    put_descriptors(out, modules)?;
    put_template(out, "{ 0 } } ;")?;
    Ok(())
}

/// The version, and the descriptors of these modules.
pub fn put_end(out: &mut Vec<u8>, modules: &[CModule]) -> Result<(), AllocError>
    ensures { OnOk result (Prints out.old.items out.new.items (end_words modules.now)) }
{
    put_template(
        out,
        "const uint32_t OSDI_VERSION_MAJOR = 0u ; const uint32_t OSDI_VERSION_MINOR = 3u ;",
    )?;
    put_template(out, "const uint32_t OSDI_NUM_DESCRIPTORS =")?;
    put_count(out, modules.len())?;
    put_word(out, b";")?;
    put_template(out, "const OsdiDescriptor OSDI_DESCRIPTORS [ ] = {")?;
    put_descriptor_table(out, modules)?;
    Ok(())
}
