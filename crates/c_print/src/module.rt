//! The includes, and modules: their structs and their functions.
ghost use Rattle.std.specs.Prelude.{OnOk};
ghost use Rattle.std.specs.List.{enumerate_from, flat_map};
ghost use Rattle.c_tree.specs.short.Text.{include_words, fields_words, cast_words, structs_words, eval_words, loads_words};
ghost use Rattle.c_tree.specs.short.Text.{module_words};
ghost use Rattle.c_print.specs.Prints.{Prints};

use crate::statement::{put_loads, put_statements};
use crate::words::{put_numbered, put_template, put_unsigned, put_word};
use c_tree::short::ShortModule;
use std::alloc::AllocError;
use va_base::NoMemory;

/// What each file begins with.
pub fn put_includes(out: &mut Vec<u8>) -> Result<(), AllocError>
    ensures { OnOk result (Prints out.old.items out.new.items include_words) }
{
    put_word(out, b"#include \"osdi_0_3.h\"")?;
    put_word(out, b"#include <math.h>")?;
    put_word(out, b"#include <stddef.h>")?;
    put_word(out, b"#include <stdint.h>")?;
    put_word(out, b"#include <stdlib.h>")?;
    Ok(())
}

/// The declarations of so many fields, numbered from 0 on.
#[tactic(auto, using(crate::proofs::Printing::prints_then))]
fn put_fields(out: &mut Vec<u8>, name: &str, count: u32) -> Result<(), AllocError>
    ensures { OnOk result (Prints out.old.items out.new.items (fields_words name.now count)) }
{
    for i in 0..count {
        put_word(out, b"double")?;
        put_numbered(out, name, i)?;
        put_word(out, b";")?;
    }
    Ok(())
}

/// The statement by which a function takes a struct of a kind from its argument.
fn put_cast(
    out: &mut Vec<u8>,
    kind: &str,
    name: &str,
    from: &str,
    number: u32,
) -> Result<(), AllocError>
    ensures { OnOk result (Prints out.old.items out.new.items (cast_words kind.now name.now from.now number)) }
{
    put_numbered(out, kind, number)?;
    put_word(out, b"*")?;
    put_word(out, name.as_bytes())?;
    put_template(out, "= (")?;
    put_numbered(out, kind, number)?;
    put_template(out, "* )")?;
    put_word(out, from.as_bytes())?;
    put_word(out, b";")?;
    Ok(())
}

/// The structs of the model and of the instance.
fn put_structs(out: &mut Vec<u8>, number: u32, tree: &ShortModule) -> Result<(), AllocError>
    ensures { OnOk result (Prints out.old.items out.new.items (structs_words number tree.now)) }
{
    put_template(out, "typedef struct { uint32_t tag ; }")?;
    put_numbered(out, "model_", number)?;
    put_word(out, b";")?;
    put_template(out, "typedef struct { uint32_t node [")?;
    put_unsigned(out, tree.unknowns.max(1))?;
    put_template(
        out,
        "] ; double * jr [ 1u ] ; double * jq [ 1u ] ; _Bool col [ 1u ] ; double temp ;",
    )?;
    put_fields(out, "p", tree.params)?;
    put_fields(out, "r", tree.unknowns)?;
    put_word(out, b"}")?;
    put_numbered(out, "inst_", number)?;
    put_word(out, b";")?;
    Ok(())
}

/// The evaluation.
fn put_eval(out: &mut Vec<u8>, number: u32, tree: &ShortModule) -> Result<(), AllocError>
    ensures { OnOk result (Prints out.old.items out.new.items (eval_words number tree.now)) }
{
    put_template(out, "static uint32_t")?;
    put_numbered(out, "eval_", number)?;
    put_template(
        out,
        "( void * handle , void * ip , void * mp , OsdiSimInfo * info ) {",
    )?;
    put_cast(out, "inst_", "inst", "ip", number)?;
    put_cast(out, "model_", "model", "mp", number)?;
    put_template(out, "const double * x = info -> prev_solve ;")?;
    put_statements(out, tree.eval.as_list())?;
    put_template(out, "return 0u ; }")?;
    Ok(())
}

/// The load of the resistive residuals.
fn put_residual_load(out: &mut Vec<u8>, number: u32, tree: &ShortModule) -> Result<(), AllocError>
    ensures { OnOk result (Prints out.old.items out.new.items (loads_words number tree.now)) }
{
    put_template(out, "static void")?;
    put_numbered(out, "load_residual_resist_", number)?;
    put_template(out, "( void * ip , void * mp , double * dst ) {")?;
    put_cast(out, "inst_", "inst", "ip", number)?;
    put_loads(out, tree.loads.as_list())?;
    put_word(out, b"}")?;
    Ok(())
}

fn put_module(out: &mut Vec<u8>, number: u32, tree: &ShortModule) -> Result<(), AllocError>
    ensures { OnOk result (Prints out.old.items out.new.items (module_words number tree.now)) }
{
    put_structs(out, number, tree)?;
    put_eval(out, number, tree)?;
    put_residual_load(out, number, tree)?;
    Ok(())
}

/// The modules, numbered from 0 on. A list that a `u32` cannot number is too long for any memory.
pub fn put_modules(out: &mut Vec<u8>, modules: &[ShortModule]) -> Result<(), NoMemory>
    ensures { OnOk result (Prints out.old.items out.new.items
        (flat_map (λ p. module_words p.0 p.1) (enumerate_from 0 modules.now))) }
{
    for (index, tree) in modules.iter().enumerate() {
        let Ok(number) = u32::try_from(index) else {
            return Err(NoMemory);
        };
        put_module(out, number, tree)?;
    }
    Ok(())
}
