//! The functions of a module but for its loads.
ghost use Rattle.std.specs.Prelude.{OnOk, ◌++◌, codes};
ghost use Rattle.std.specs.List.{flat_map, enumerate_from};
ghost use Rattle.c_tree.specs.Words as words_spec;
ghost use Rattle.c_tree.specs.Words.{cast_words, marked, with_commas, template, numbered};
ghost use Rattle.c_tree.specs.Text.{argument_words, function_words, instance_words, model_words, instance_test_words, flag_words, access_row_words, access_words, init_words, setup_model_words, setup_instance_words, eval_words, body_words};
ghost use Rattle.c_print.specs.Prints.{Prints};

use crate::body::put_body;
use crate::value::{put_atom, put_cell, put_type};
use crate::words::{
    put_function_name, put_indexed, put_numbered, put_template, put_unsigned, put_word,
};
use c_tree::{AccessRow, CArgument, CCell, CFunction, CModule};
use std::alloc::{AllocError, Global};
use va_base::NoMemory;

/// The statement by which a function takes a struct of a kind from its argument.
fn put_cast(
    out: &mut Vec<u8>,
    kind: &str,
    name: &str,
    from: &str,
    k: usize,
) -> Result<(), AllocError>
    ensures { OnOk result (Prints out.old.items out.new.items (cast_words kind.now name.now from.now k)) }
{
    put_indexed(out, kind, k)?;
    put_word(out, b"*")?;
    put_word(out, name.as_bytes())?;
    put_template(out, "= (")?;
    put_indexed(out, kind, k)?;
    put_template(out, "* )")?;
    put_word(out, from.as_bytes())?;
    put_word(out, b";")?;
    Ok(())
}

/// The statement by which a function takes the instance.
pub fn put_instance(out: &mut Vec<u8>, k: usize) -> Result<(), AllocError>
    ensures { OnOk result (Prints out.old.items out.new.items (instance_words k)) }
{
    put_cast(out, "inst_", "inst", "ip", k)
}

/// The statement by which a function takes the model.
fn put_model(out: &mut Vec<u8>, k: usize) -> Result<(), AllocError>
    ensures { OnOk result (Prints out.old.items out.new.items (model_words k)) }
{
    put_cast(out, "model_", "model", "mp", k)
}

fn put_argument(out: &mut Vec<u8>, argument: CArgument) -> Result<(), AllocError>
    ensures { OnOk result (Prints out.old.items out.new.items (argument_words argument)) }
{
    put_type(out, argument.ty)?;
    put_numbered(out, "a", argument.number)?;
    Ok(())
}

/// Arguments, with a comma before each.
fn put_more_arguments(out: &mut Vec<u8>, arguments: &[CArgument]) -> Result<(), AllocError>
    ensures { OnOk result (Prints out.old.items out.new.items (marked (codes ",") argument_words arguments.now)) }
{
    for argument in arguments {
        put_word(out, b",")?;
        put_argument(out, *argument)?;
    }
    Ok(())
}

/// Arguments, with a comma between each two.
fn put_arguments(out: &mut Vec<u8>, arguments: &[CArgument]) -> Result<(), AllocError>
    ensures { OnOk result (Prints out.old.items out.new.items (with_commas argument_words arguments.now)) }
{
    if arguments.is_empty() {
        return Ok(());
    }
    put_argument(out, arguments[0])?;
    put_more_arguments(out, &arguments[1..])?;
    Ok(())
}

/// Function j of module k.
fn put_function(
    alloc: Global,
    out: &mut Vec<u8>,
    k: usize,
    j: usize,
    function: &CFunction,
) -> Result<(), NoMemory>
    ensures { OnOk result (Prints out.old.items out.new.items (function_words k j function.now)) }
{
    put_word(out, b"static")?;
    put_type(out, function.result)?;
    put_function_name(out, k, j)?;
    put_word(out, b"(")?;
    put_arguments(out, function.arguments.as_list())?;
    put_template(out, ") {")?;
    put_body(alloc, out, k, function.body.as_list())?;
    put_word(out, b"return")?;
    put_atom(out, function.value)?;
    put_template(out, "; }")?;
    Ok(())
}

/// The functions of module k.
fn put_functions(
    alloc: Global,
    out: &mut Vec<u8>,
    k: usize,
    functions: &[CFunction],
) -> Result<(), NoMemory>
    ensures { OnOk result (Prints out.old.items out.new.items
        (flat_map (λ p. function_words k p.0 p.1) (enumerate_from 0 functions.now))) }
{
    for (index, function) in functions.iter().enumerate() {
        put_function(alloc, out, k, index, function)?;
    }
    Ok(())
}

/// The functions of module k.
pub fn put_module_functions(
    alloc: Global,
    out: &mut Vec<u8>,
    k: usize,
    tree: &CModule,
) -> Result<(), NoMemory>
    ensures { OnOk result (Prints out.old.items out.new.items
        (flat_map (λ p. function_words k p.0 p.1) (enumerate_from 0 tree.now.functions))) }
{
    put_functions(alloc, out, k, tree.functions.as_list())?;
    Ok(())
}

fn put_instance_test(out: &mut Vec<u8>, instance: bool) -> Result<(), AllocError>
    ensures { OnOk result (Prints out.old.items out.new.items (instance_test_words instance)) }
{
    if instance {
        put_template(out, "&& ( flags & ACCESS_FLAG_INSTANCE )")?;
    }
    Ok(())
}

fn put_set_flag(out: &mut Vec<u8>, flag: CCell) -> Result<(), AllocError>
    ensures { OnOk result (Prints out.old.items out.new.items (flag_words (Some flag))) }
{
    put_template(out, "if ( flags & ACCESS_FLAG_SET ) {")?;
    put_cell(out, flag)?;
    put_template(out, "= 1 ; }")?;
    Ok(())
}

fn put_flag(out: &mut Vec<u8>, flag: Option<CCell>) -> Result<(), AllocError>
    ensures { OnOk result (Prints out.old.items out.new.items (flag_words flag)) }
{
    match flag {
        Some(flag) => put_set_flag(out, flag),
        None => Ok(()),
    }
}

fn put_access_row(out: &mut Vec<u8>, row: AccessRow) -> Result<(), AllocError>
    ensures { OnOk result (Prints out.old.items out.new.items (access_row_words row)) }
{
    put_template(out, "if ( id ==")?;
    put_unsigned(out, row.id)?;
    put_instance_test(out, row.instance)?;
    put_template(out, ") {")?;
    put_flag(out, row.flag)?;
    put_template(out, "return &")?;
    put_cell(out, row.cell)?;
    put_template(out, "; }")?;
    Ok(())
}

fn put_access_rows(out: &mut Vec<u8>, rows: &[AccessRow]) -> Result<(), AllocError>
    ensures { OnOk result (Prints out.old.items out.new.items (flat_map access_row_words rows.now)) }
{
    for row in rows {
        put_access_row(out, *row)?;
    }
    Ok(())
}

/// Where a host finds a parameter or an operating-point variable.
pub fn put_access(out: &mut Vec<u8>, k: usize, tree: &CModule) -> Result<(), AllocError>
    ensures { OnOk result (Prints out.old.items out.new.items (access_words k tree.now)) }
{
    put_template(out, "static void *")?;
    put_indexed(out, "access_", k)?;
    put_template(
        out,
        "( void * ip , void * mp , uint32_t id , uint32_t flags ) {",
    )?;
    put_instance(out, k)?;
    put_model(out, k)?;
    put_access_rows(out, tree.access.as_list())?;
    put_template(out, "return 0 ; }")?;
    Ok(())
}

/// A set-up begins without errors.
fn put_reset(out: &mut Vec<u8>) -> Result<(), AllocError>
    ensures { OnOk result (Prints out.old.items out.new.items init_words) }
{
    put_template(
        out,
        "res -> flags = 0u ; res -> num_errors = 0u ; res -> errors = 0 ;",
    )?;
    Ok(())
}

/// The set-up of the model.
pub fn put_setup_model(
    alloc: Global,
    out: &mut Vec<u8>,
    k: usize,
    tree: &CModule,
) -> Result<(), NoMemory>
    ensures { OnOk result (Prints out.old.items out.new.items (setup_model_words k tree.now)) }
{
    put_template(out, "static void")?;
    put_indexed(out, "setup_model_", k)?;
    put_template(
        out,
        "( void * handle , void * mp , OsdiSimParas * sim , OsdiInitInfo * res ) {",
    )?;
    put_model(out, k)?;
    put_reset(out)?;
    put_body(alloc, out, k, tree.setup_model.as_list())?;
    put_word(out, b"}")?;
    Ok(())
}

/// The set-up of an instance.
pub fn put_setup_instance(
    alloc: Global,
    out: &mut Vec<u8>,
    k: usize,
    tree: &CModule,
) -> Result<(), NoMemory>
    ensures { OnOk result (Prints out.old.items out.new.items (setup_instance_words k tree.now)) }
{
    put_template(out, "static void")?;
    put_indexed(out, "setup_instance_", k)?;
    put_template(
        out,
        "( void * handle , void * ip , void * mp , double temperature , uint32_t num_terminals ,",
    )?;
    put_template(out, "OsdiSimParas * sim , OsdiInitInfo * res ) {")?;
    put_instance(out, k)?;
    put_model(out, k)?;
    put_reset(out)?;
    put_template(out, "inst -> temp = temperature ;")?;
    put_body(alloc, out, k, tree.setup_instance.as_list())?;
    put_word(out, b"}")?;
    Ok(())
}

/// The evaluation.
pub fn put_eval(alloc: Global, out: &mut Vec<u8>, k: usize, tree: &CModule) -> Result<(), NoMemory>
    ensures { OnOk result (Prints out.old.items out.new.items (eval_words k tree.now)) }
{
    put_template(out, "static uint32_t")?;
    put_indexed(out, "eval_", k)?;
    put_template(
        out,
        "( void * handle , void * ip , void * mp , OsdiSimInfo * info ) {",
    )?;
    put_instance(out, k)?;
    put_model(out, k)?;
    put_template(out, "const double * x = info -> prev_solve ;")?;
    put_body(alloc, out, k, tree.eval.as_list())?;
    put_template(out, "return 0u ; }")?;
    Ok(())
}
