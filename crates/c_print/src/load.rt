//! The load functions.
ghost use Rattle.std.specs.Prelude.{OnOk, ◌++◌, codes};
ghost use Rattle.std.specs.List.{flat_map};
ghost use Rattle.c_tree.specs.Words as words_spec;
ghost use Rattle.c_tree.specs.Words.{marked, template, numbered, unsigned};
ghost use Rattle.c_tree.specs.Text.{field_word, target_words, sign_word, factor_words, load_words, load_name, load_arguments, load_function_words, loads_words, load_field_words, load_functions};
ghost use Rattle.c_print.specs.Prints.{Prints};

use crate::function::put_instance;
use crate::value::{put_field, put_unknown};
use crate::words::{put_indexed, put_template, put_unsigned, put_word};
use c_tree::{CField, CLoad, CLoads, LoadFactor, LoadFunction, LoadSign, LoadTarget};
use std::alloc::AllocError;

fn put_node_target(out: &mut Vec<u8>, node: u32) -> Result<(), AllocError>
    ensures { OnOk result (Prints out.old.items out.new.items
        (template (codes "dst [ inst -> node [") ++ words_spec.word (unsigned node) ++ template (codes "] ]"))) }
{
    put_template(out, "dst [ inst -> node [")?;
    put_unsigned(out, node)?;
    put_template(out, "] ]")?;
    Ok(())
}

fn put_resist_target(out: &mut Vec<u8>, entry: u32) -> Result<(), AllocError>
    ensures { OnOk result (Prints out.old.items out.new.items
        (template (codes "* inst -> jr [") ++ words_spec.word (unsigned entry) ++ words_spec.word (codes "]"))) }
{
    put_template(out, "* inst -> jr [")?;
    put_unsigned(out, entry)?;
    put_word(out, b"]")?;
    Ok(())
}

fn put_react_target(out: &mut Vec<u8>, entry: u32) -> Result<(), AllocError>
    ensures { OnOk result (Prints out.old.items out.new.items
        (template (codes "* inst -> jq [") ++ words_spec.word (unsigned entry) ++ words_spec.word (codes "]"))) }
{
    put_template(out, "* inst -> jq [")?;
    put_unsigned(out, entry)?;
    put_word(out, b"]")?;
    Ok(())
}

fn put_target(out: &mut Vec<u8>, target: LoadTarget) -> Result<(), AllocError>
    ensures { OnOk result (Prints out.old.items out.new.items (target_words target)) }
{
    match target {
        LoadTarget::Node(node) => put_node_target(out, node),
        LoadTarget::EntryResist(entry) => put_resist_target(out, entry),
        LoadTarget::EntryReact(entry) => put_react_target(out, entry),
    }
}

fn put_sign(out: &mut Vec<u8>, sign: LoadSign) -> Result<(), AllocError>
    ensures { OnOk result (Prints out.old.items out.new.items (words_spec.word (sign_word sign))) }
{
    match sign {
        LoadSign::Put => put_word(out, b"="),
        LoadSign::Add => put_word(out, b"+="),
        LoadSign::Subtract => put_word(out, b"-="),
    }
}

fn put_cell_factor(out: &mut Vec<u8>, field: CField) -> Result<(), AllocError>
    ensures { OnOk result (Prints out.old.items out.new.items (template (codes "inst ->") ++ words_spec.word (field_word field))) }
{
    put_template(out, "inst ->")?;
    put_field(out, field)?;
    Ok(())
}

fn put_factor(out: &mut Vec<u8>, factor: LoadFactor) -> Result<(), AllocError>
    ensures { OnOk result (Prints out.old.items out.new.items (factor_words factor)) }
{
    match factor {
        LoadFactor::Alpha => put_word(out, b"alpha"),
        LoadFactor::Cell(field) => put_cell_factor(out, field),
        LoadFactor::Solution(unknown) => put_unknown(out, unknown),
    }
}

/// Factors, with a star before each.
fn put_more_factors(out: &mut Vec<u8>, factors: &[LoadFactor]) -> Result<(), AllocError>
    ensures { OnOk result (Prints out.old.items out.new.items (marked (codes "*") factor_words factors.now)) }
{
    for factor in factors {
        put_word(out, b"*")?;
        put_factor(out, *factor)?;
    }
    Ok(())
}

fn put_load(out: &mut Vec<u8>, load: &CLoad) -> Result<(), AllocError>
    ensures { OnOk result (Prints out.old.items out.new.items (load_words load.now)) }
{
    put_target(out, load.target)?;
    put_sign(out, load.sign)?;
    put_factor(out, load.first)?;
    put_more_factors(out, load.more.as_list())?;
    put_word(out, b";")?;
    Ok(())
}

fn put_load_statements(out: &mut Vec<u8>, loads: &[CLoad]) -> Result<(), AllocError>
    ensures { OnOk result (Prints out.old.items out.new.items (flat_map load_words loads.now)) }
{
    for load in loads {
        put_load(out, load)?;
    }
    Ok(())
}

/// The name of a load function of module k.
fn put_load_name(out: &mut Vec<u8>, function: LoadFunction, k: usize) -> Result<(), AllocError>
    ensures { OnOk result (Prints out.old.items out.new.items (words_spec.word (load_name function ++ numbered (codes "_") k))) }
{
    match function {
        LoadFunction::ResidualResist => put_indexed(out, "load_residual_resist_", k),
        LoadFunction::ResidualReact => put_indexed(out, "load_residual_react_", k),
        LoadFunction::JacobianResist => put_indexed(out, "load_jacobian_resist_", k),
        LoadFunction::JacobianReact => put_indexed(out, "load_jacobian_react_", k),
        LoadFunction::JacobianTran => put_indexed(out, "load_jacobian_tran_", k),
        LoadFunction::SpiceRhsDc => put_indexed(out, "load_spice_rhs_dc_", k),
        LoadFunction::SpiceRhsTran => put_indexed(out, "load_spice_rhs_tran_", k),
    }
}

/// The arguments of a load function behind the instance and the model.
fn put_load_arguments(out: &mut Vec<u8>, function: LoadFunction) -> Result<(), AllocError>
    ensures { OnOk result (Prints out.old.items out.new.items (load_arguments function)) }
{
    match function {
        LoadFunction::ResidualResist => put_template(out, ", double * dst"),
        LoadFunction::ResidualReact => put_template(out, ", double * dst"),
        LoadFunction::JacobianResist => Ok(()),
        LoadFunction::JacobianReact => put_template(out, ", double alpha"),
        LoadFunction::JacobianTran => put_template(out, ", double alpha"),
        LoadFunction::SpiceRhsDc => put_template(out, ", double * dst , double * x"),
        LoadFunction::SpiceRhsTran => put_template(
            out,
            ", double * dst , double * x , double alpha",
        ),
    }
}

fn put_load_function(
    out: &mut Vec<u8>,
    k: usize,
    function: LoadFunction,
    loads: &[CLoad],
) -> Result<(), AllocError>
    ensures { OnOk result (Prints out.old.items out.new.items (load_function_words k function loads.now)) }
{
    put_template(out, "static void")?;
    put_load_name(out, function, k)?;
    put_template(out, "( void * ip , void * mp")?;
    put_load_arguments(out, function)?;
    put_template(out, ") {")?;
    put_instance(out, k)?;
    put_load_statements(out, loads)?;
    put_word(out, b"}")?;
    Ok(())
}

/// The load functions of module k, in their order.
pub fn put_loads(out: &mut Vec<u8>, k: usize, loads: &CLoads) -> Result<(), AllocError>
    ensures { OnOk result (Prints out.old.items out.new.items (loads_words k loads.now)) }
{
    put_load_function(
        out,
        k,
        LoadFunction::ResidualResist,
        loads.residual_resist.as_list(),
    )?;
    put_load_function(
        out,
        k,
        LoadFunction::ResidualReact,
        loads.residual_react.as_list(),
    )?;
    put_load_function(
        out,
        k,
        LoadFunction::JacobianResist,
        loads.jacobian_resist.as_list(),
    )?;
    put_load_function(
        out,
        k,
        LoadFunction::JacobianReact,
        loads.jacobian_react.as_list(),
    )?;
    put_load_function(
        out,
        k,
        LoadFunction::JacobianTran,
        loads.jacobian_tran.as_list(),
    )?;
    put_load_function(
        out,
        k,
        LoadFunction::SpiceRhsDc,
        loads.spice_rhs_dc.as_list(),
    )?;
    put_load_function(
        out,
        k,
        LoadFunction::SpiceRhsTran,
        loads.spice_rhs_tran.as_list(),
    )?;
    Ok(())
}

/// The name of a load function's field in the descriptor.
fn put_load_field_name(out: &mut Vec<u8>, function: LoadFunction) -> Result<(), AllocError>
    ensures { OnOk result (Prints out.old.items out.new.items (words_spec.word (codes "." ++ load_name function))) }
{
    match function {
        LoadFunction::ResidualResist => put_word(out, b".load_residual_resist"),
        LoadFunction::ResidualReact => put_word(out, b".load_residual_react"),
        LoadFunction::JacobianResist => put_word(out, b".load_jacobian_resist"),
        LoadFunction::JacobianReact => put_word(out, b".load_jacobian_react"),
        LoadFunction::JacobianTran => put_word(out, b".load_jacobian_tran"),
        LoadFunction::SpiceRhsDc => put_word(out, b".load_spice_rhs_dc"),
        LoadFunction::SpiceRhsTran => put_word(out, b".load_spice_rhs_tran"),
    }
}

fn put_load_field(out: &mut Vec<u8>, k: usize, function: LoadFunction) -> Result<(), AllocError>
    ensures { OnOk result (Prints out.old.items out.new.items (load_field_words k function)) }
{
    put_word(out, b",")?;
    put_load_field_name(out, function)?;
    put_word(out, b"=")?;
    put_load_name(out, function, k)?;
    Ok(())
}

/// The fields of the load functions in the descriptor of module k.
pub fn put_load_fields(out: &mut Vec<u8>, k: usize) -> Result<(), AllocError>
    ensures { OnOk result (Prints out.old.items out.new.items (flat_map (load_field_words k) load_functions)) }
{
    put_load_field(out, k, LoadFunction::ResidualResist)?;
    put_load_field(out, k, LoadFunction::ResidualReact)?;
    put_load_field(out, k, LoadFunction::JacobianResist)?;
    put_load_field(out, k, LoadFunction::JacobianReact)?;
    put_load_field(out, k, LoadFunction::JacobianTran)?;
    put_load_field(out, k, LoadFunction::SpiceRhsDc)?;
    put_load_field(out, k, LoadFunction::SpiceRhsTran)?;
    Ok(())
}
