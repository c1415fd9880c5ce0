//! The statements of an evaluation and of a load.
ghost use Rattle.std.specs.Prelude.{OnOk};
ghost use Rattle.std.specs.List.{flat_map};
ghost use Rattle.c_tree.specs.short.Text as text;
ghost use Rattle.c_tree.specs.short.Text.{field_word, atom_words, operator_word, right_words};
ghost use Rattle.c_tree.specs.short.Text.{statement_words, load_words};
ghost use Rattle.c_print.specs.Prints.{Prints};

use crate::words::{put_numbered, put_template, put_unsigned, put_word};
use c_tree::short::{Atom, Field, Load, Operator, Right, Statement};
use std::alloc::AllocError;

fn put_field(out: &mut Vec<u8>, field: Field) -> Result<(), AllocError>
    ensures { OnOk result (Prints out.old.items out.new.items (text.word (field_word field))) }
{
    match field {
        Field::Param(i) => put_numbered(out, "p", i),
        Field::Row(i) => put_numbered(out, "r", i),
    }
}

#[tactic(auto, using(crate::proofs::Printing::prints_then))]
fn put_atom(out: &mut Vec<u8>, atom: Atom) -> Result<(), AllocError>
    ensures { OnOk result (Prints out.old.items out.new.items (atom_words atom)) }
{
    match atom {
        Atom::Local(i) => {
            put_numbered(out, "v", i)?;
            Ok(())
        }
        Atom::Field(field) => {
            put_template(out, "inst ->")?;
            put_field(out, field)?;
            Ok(())
        }
        Atom::Unknown(i) => {
            put_template(out, "x [ inst -> node [")?;
            put_unsigned(out, i)?;
            put_template(out, "] ]")?;
            Ok(())
        }
    }
}

fn put_operator(out: &mut Vec<u8>, operator: Operator) -> Result<(), AllocError>
    ensures { OnOk result (Prints out.old.items out.new.items (text.word (operator_word operator))) }
{
    match operator {
        Operator::Plus => put_word(out, b"+"),
        Operator::Minus => put_word(out, b"-"),
        Operator::Times => put_word(out, b"*"),
        Operator::Over => put_word(out, b"/"),
    }
}

#[tactic(auto, using(crate::proofs::Printing::prints_then))]
fn put_right(out: &mut Vec<u8>, right: Right) -> Result<(), AllocError>
    ensures { OnOk result (Prints out.old.items out.new.items (right_words right)) }
{
    match right {
        Right::Same(a) => put_atom(out, a),
        Right::Negated(a) => {
            put_word(out, b"-")?;
            put_atom(out, a)?;
            Ok(())
        }
        Right::Binary(a, operator, b) => {
            put_atom(out, a)?;
            put_operator(out, operator)?;
            put_atom(out, b)?;
            Ok(())
        }
    }
}

#[tactic(auto, using(crate::proofs::Printing::prints_then))]
fn put_statement(out: &mut Vec<u8>, statement: Statement) -> Result<(), AllocError>
    ensures { OnOk result (Prints out.old.items out.new.items (statement_words statement)) }
{
    match statement {
        Statement::Declare { local, right } => {
            put_template(out, "const double")?;
            put_numbered(out, "v", local)?;
            put_word(out, b"=")?;
            put_right(out, right)?;
            put_word(out, b";")?;
            Ok(())
        }
        Statement::Set { field, value } => {
            put_template(out, "inst ->")?;
            put_field(out, field)?;
            put_word(out, b"=")?;
            put_atom(out, value)?;
            put_word(out, b";")?;
            Ok(())
        }
    }
}

/// The statements of an evaluation, in order.
pub fn put_statements(out: &mut Vec<u8>, statements: &[Statement]) -> Result<(), AllocError>
    ensures { OnOk result (Prints out.old.items out.new.items (flat_map statement_words statements.now)) }
{
    for statement in statements {
        put_statement(out, *statement)?;
    }
    Ok(())
}

fn put_load(out: &mut Vec<u8>, load: Load) -> Result<(), AllocError>
    ensures { OnOk result (Prints out.old.items out.new.items (load_words load)) }
{
    put_template(out, "dst [ inst -> node [")?;
    put_unsigned(out, load.unknown)?;
    put_template(out, "] ] += inst ->")?;
    put_field(out, Field::Row(load.row))?;
    put_word(out, b";")?;
    Ok(())
}

/// The statements of a load, in order.
pub fn put_loads(out: &mut Vec<u8>, loads: &[Load]) -> Result<(), AllocError>
    ensures { OnOk result (Prints out.old.items out.new.items (flat_map load_words loads.now)) }
{
    for load in loads {
        put_load(out, *load)?;
    }
    Ok(())
}
