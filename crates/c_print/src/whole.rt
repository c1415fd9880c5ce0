//! Whole files: the includes, the two functions that each file begins with, and its modules.
ghost use Rattle.std.specs.Prelude.{◌≡◌, OnOk, ◌++◌, codes, length};
ghost use Rattle.std.specs.List.{flat_map, enumerate_from};
ghost use Rattle.c_tree.specs.Words as words_spec;
ghost use Rattle.c_tree.specs.Words.{array_length, template, unsigned};
ghost use Rattle.c_tree.specs.Text as text;
ghost use Rattle.c_tree.specs.Text.{help_words, field_words, structs_words, module_words};
ghost use Rattle.c_print.specs.Prints.{Prints};

use crate::function::{
    put_access, put_eval, put_module_functions, put_setup_instance, put_setup_model,
};
use crate::load::put_loads;
use crate::table::put_tables;
use crate::value::put_type;
use crate::words::{put_count, put_indexed, put_name, put_template, put_word};
use alg_laws::Ty;
use c_tree::{CModule, FieldRow};
use std::alloc::{AllocError, Global};
use va_base::NoMemory;

/// The functions that each file begins with.
pub fn put_help(out: &mut Vec<u8>) -> Result<(), AllocError>
    ensures { OnOk result (Prints out.old.items out.new.items help_words) }
{
    put_template(
        out,
        "static void init_error ( OsdiInitInfo * res , uint32_t id ) {",
    )?;
    put_template(
        out,
        "OsdiInitError * more = realloc ( res -> errors , ( res -> num_errors + 1u ) * sizeof ( OsdiInitError ) ) ;",
    )?;
    put_template(out, "if ( more ) {")?;
    put_template(
        out,
        "more [ res -> num_errors ] = ( OsdiInitError ) { .code = INIT_ERR_OUT_OF_BOUNDS , .payload.parameter_id = id } ;",
    )?;
    put_template(out, "res -> errors = more ;")?;
    put_template(out, "res -> num_errors = res -> num_errors + 1u ;")?;
    put_template(out, "} }")?;
    put_template(
        out,
        "static void load_nothing ( void * ip , void * mp , double * dst ) { }",
    )?;
    Ok(())
}

fn field_type(integer: bool) -> Ty
    ensures { result ≡ text.field_type integer }
{
    if integer { Ty::Integer } else { Ty::Real }
}

fn put_struct_field(out: &mut Vec<u8>, field: &FieldRow) -> Result<(), AllocError>
    ensures { OnOk result (Prints out.old.items out.new.items (field_words field.now)) }
{
    put_type(out, field_type(field.integer))?;
    put_name(out, &field.name)?;
    put_word(out, b";")?;
    Ok(())
}

fn put_struct_fields(out: &mut Vec<u8>, fields: &[FieldRow]) -> Result<(), AllocError>
    ensures { OnOk result (Prints out.old.items out.new.items (flat_map field_words fields.now)) }
{
    for field in fields {
        put_struct_field(out, field)?;
    }
    Ok(())
}

/// The length of the array of the nodes' numbers.
fn put_node_array(out: &mut Vec<u8>, tree: &CModule) -> Result<(), AllocError>
    ensures { OnOk result (Prints out.old.items out.new.items
        (words_spec.word (unsigned (array_length (length tree.now.nodes))))) }
{
    put_count(out, tree.nodes.as_list().len().max(1))?;
    Ok(())
}

/// The length of an array for the entries.
fn put_entry_array(out: &mut Vec<u8>, tree: &CModule) -> Result<(), AllocError>
    ensures { OnOk result (Prints out.old.items out.new.items
        (words_spec.word (unsigned (array_length (length tree.now.entries))))) }
{
    put_count(out, tree.entries.as_list().len().max(1))?;
    Ok(())
}

/// The length of the array of the collapse flags.
fn put_collapse_array(out: &mut Vec<u8>, tree: &CModule) -> Result<(), AllocError>
    ensures { OnOk result (Prints out.old.items out.new.items
        (words_spec.word (unsigned (array_length (length tree.now.collapse))))) }
{
    put_count(out, tree.collapse.as_list().len().max(1))?;
    Ok(())
}

/// The structs of the model and of the instance.
fn put_structs(out: &mut Vec<u8>, k: usize, tree: &CModule) -> Result<(), AllocError>
    ensures { OnOk result (Prints out.old.items out.new.items (structs_words k tree.now)) }
{
    put_template(out, "typedef struct { uint32_t tag ;")?;
    put_struct_fields(out, tree.model_fields.as_list())?;
    put_word(out, b"}")?;
    put_indexed(out, "model_", k)?;
    put_word(out, b";")?;
    put_template(out, "typedef struct { uint32_t node [")?;
    put_node_array(out, tree)?;
    put_template(out, "] ; double * jr [")?;
    put_entry_array(out, tree)?;
    put_template(out, "] ; double * jq [")?;
    put_entry_array(out, tree)?;
    put_template(out, "] ; _Bool col [")?;
    put_collapse_array(out, tree)?;
    put_template(out, "] ; double temp ;")?;
    put_struct_fields(out, tree.inst_fields.as_list())?;
    put_word(out, b"}")?;
    put_indexed(out, "inst_", k)?;
    put_word(out, b";")?;
    Ok(())
}

fn put_module(alloc: Global, out: &mut Vec<u8>, k: usize, tree: &CModule) -> Result<(), NoMemory>
    ensures { OnOk result (Prints out.old.items out.new.items (module_words k tree.now)) }
{
    put_structs(out, k, tree)?;
    put_module_functions(alloc, out, k, tree)?;
    put_access(out, k, tree)?;
    put_setup_model(alloc, out, k, tree)?;
    put_setup_instance(alloc, out, k, tree)?;
    put_eval(alloc, out, k, tree)?;
    put_loads(out, k, &tree.loads)?;
    put_tables(out, k, tree)?;
    Ok(())
}

/// The modules, numbered from 0 on.
pub fn put_modules(alloc: Global, out: &mut Vec<u8>, modules: &[CModule]) -> Result<(), NoMemory>
    ensures { OnOk result (Prints out.old.items out.new.items
        (flat_map (λ p. module_words p.0 p.1) (enumerate_from 0 modules.now))) }
{
    for (index, tree) in modules.iter().enumerate() {
        put_module(alloc, out, index, tree)?;
    }
    Ok(())
}
