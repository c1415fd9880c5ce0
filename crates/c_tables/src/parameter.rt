//! The lines of parameters and operating-point variables.
ghost use Rattle.std.specs.Prelude.{◌≡◌, OnOk, codes, map};
ghost use Rattle.std.specs.List.{flat_map, enumerate_from};
ghost use Rattle.va_base.specs.Tables.{alias_text, given_text, parameter_text, parameter_text_of, operating_point, type_text};
ghost use Rattle.c_tree.specs.TablesOf as tables_of;
ghost use Rattle.c_tree.specs.TablesOf.{parameter_line};
ghost use Rattle.c_tables.specs.Prints.{Prints};

use crate::line::{put_bytes, put_index, put_name, put_quoted, put_word};
use c_tree::{ParamKind, ParamRow};
use std::alloc::AllocError;
use va_base::Name;

/// The own name among a parameter's names.
fn own_name(names: &[Name]) -> &[u8]
    ensures { result.now ≡ tables_of.own_name names.now }
{
    match names {
        [] => b"",
        [name, ..] => name.as_bytes(),
    }
}

/// The other names, which are aliases.
fn aliases_of(names: &[Name]) -> &[Name]
    ensures { result.now ≡ tables_of.aliases_of names.now }
{
    match names {
        [] => names,
        [_, aliases @ ..] => aliases,
    }
}

fn put_alias(out: &mut Vec<u8>, id: usize, name: &Name) -> Result<(), AllocError>
    ensures { OnOk result (Prints out.old.items out.new.items (alias_text id name.now)) }
{
    put_word(out, "alias", " ")?;
    put_index(out, id, " ")?;
    put_name(out, name, "\n")?;
    Ok(())
}

fn put_aliases(out: &mut Vec<u8>, id: usize, aliases: &[Name]) -> Result<(), AllocError>
    ensures { OnOk result (Prints out.old.items out.new.items (flat_map (alias_text id) aliases.now)) }
{
    for name in aliases {
        put_alias(out, id, name)?;
    }
    Ok(())
}

fn type_word(integer: bool) -> &'static str
    ensures { result.now ≡ type_text integer }
{
    if integer { "integer" } else { "real" }
}

/// A parameter of the instance or the model.
fn put_given(out: &mut Vec<u8>, id: usize, level: &str, row: &ParamRow) -> Result<(), AllocError>
    ensures { OnOk result (Prints out.old.items out.new.items (given_text id level.now (parameter_line row.now))) }
{
    let names = row.names.as_list();
    put_word(out, "param", " ")?;
    put_index(out, id, " ")?;
    put_bytes(out, own_name(names), " ")?;
    put_word(out, type_word(row.integer), " ")?;
    put_word(out, level, " ")?;
    put_quoted(out, &row.description, " ")?;
    put_quoted(out, &row.units, "\n")?;
    put_aliases(out, id, aliases_of(names))?;
    Ok(())
}

fn put_operating_point(out: &mut Vec<u8>, id: usize, row: &ParamRow) -> Result<(), AllocError>
    ensures { OnOk result (Prints out.old.items out.new.items (parameter_text_of operating_point id (parameter_line row.now))) }
{
    put_word(out, "opvar", " ")?;
    put_index(out, id, " ")?;
    put_bytes(out, own_name(row.names.as_list()), " ")?;
    put_word(out, type_word(row.integer), " ")?;
    put_quoted(out, &row.description, " ")?;
    put_quoted(out, &row.units, "\n")?;
    Ok(())
}

fn put_parameter(out: &mut Vec<u8>, id: usize, row: &ParamRow) -> Result<(), AllocError>
    ensures { OnOk result (Prints out.old.items out.new.items (parameter_text (id, parameter_line row.now))) }
{
    match row.kind {
        ParamKind::Inst => put_given(out, id, "instance", row),
        ParamKind::Model => put_given(out, id, "model", row),
        ParamKind::Opvar => put_operating_point(out, id, row),
    }
}

/// The parameters and operating-point variables, by their ids.
pub fn put_parameters(out: &mut Vec<u8>, rows: &[ParamRow]) -> Result<(), AllocError>
    ensures { OnOk result (Prints out.old.items out.new.items
        (flat_map parameter_text (enumerate_from 0 (map parameter_line rows.now)))) }
{
    for (id, row) in rows.iter().enumerate() {
        put_parameter(out, id, row)?;
    }
    Ok(())
}
