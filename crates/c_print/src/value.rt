//! Cells, atoms, and the right sides of constants.
ghost use Rattle.std.specs.Prelude.{OnOk, ◌++◌, codes, length, [], ◌∷◌};
ghost use Rattle.c_tree.specs.Words as words_spec;
ghost use Rattle.c_tree.specs.Words.{template, unsigned, with_commas, marked};
ghost use Rattle.c_tree.specs.Text.{type_word, field_word, level_word, cell_words, atom_words, operator_word, fun1_word, fun2_word, callee_word, right_words};
ghost use Rattle.c_print.specs.Prints.{Prints};

use crate::words::{
    put_function_name, put_integer, put_numbered, put_real, put_template, put_unsigned, put_word,
};
use alg_laws::{Fun1, Fun2, Ty};
use c_tree::{CAtom, CCallee, CCell, CField, COperator, CRight, Level};
use std::alloc::AllocError;
use va_base::Items;

pub fn put_type(out: &mut Vec<u8>, ty: Ty) -> Result<(), AllocError>
    ensures { OnOk result (Prints out.old.items out.new.items (words_spec.word (type_word ty))) }
{
    match ty {
        Ty::Real => put_word(out, b"double"),
        Ty::Integer => put_word(out, b"int32_t"),
    }
}

pub fn put_field(out: &mut Vec<u8>, field: CField) -> Result<(), AllocError>
    ensures { OnOk result (Prints out.old.items out.new.items (words_spec.word (field_word field))) }
{
    match field {
        CField::Param(i) => put_numbered(out, "p", i),
        CField::Given(i) => put_numbered(out, "g", i),
        CField::Resist(i) => put_numbered(out, "r", i),
        CField::React(i) => put_numbered(out, "q", i),
        CField::EntryResist(i) => put_numbered(out, "er", i),
        CField::EntryReact(i) => put_numbered(out, "eq", i),
        CField::OpVar(i) => put_numbered(out, "o", i),
        CField::Stored(i) => put_numbered(out, "h", i),
        CField::Temperature => put_word(out, b"temp"),
    }
}

fn put_level(out: &mut Vec<u8>, level: Level) -> Result<(), AllocError>
    ensures { OnOk result (Prints out.old.items out.new.items (words_spec.word (level_word level))) }
{
    match level {
        Level::Instance => put_word(out, b"inst"),
        Level::Model => put_word(out, b"model"),
    }
}

pub fn put_cell(out: &mut Vec<u8>, cell: CCell) -> Result<(), AllocError>
    ensures { OnOk result (Prints out.old.items out.new.items (cell_words cell)) }
{
    put_level(out, cell.level)?;
    put_word(out, b"->")?;
    put_field(out, cell.field)?;
    Ok(())
}

/// The solution at the place to which an unknown is mapped.
pub fn put_unknown(out: &mut Vec<u8>, unknown: u32) -> Result<(), AllocError>
    ensures { OnOk result (Prints out.old.items out.new.items
        (template (codes "x [ inst -> node [") ++ words_spec.word (unsigned unknown) ++ template (codes "] ]"))) }
{
    put_template(out, "x [ inst -> node [")?;
    put_unsigned(out, unknown)?;
    put_template(out, "] ]")?;
    Ok(())
}

pub fn put_atom(out: &mut Vec<u8>, atom: CAtom) -> Result<(), AllocError>
    ensures { OnOk result (Prints out.old.items out.new.items (atom_words atom)) }
{
    match atom {
        CAtom::Local(i) => put_numbered(out, "v", i),
        CAtom::Argument(i) => put_numbered(out, "a", i),
        CAtom::Integer(i) => put_integer(out, i),
        CAtom::Real(value) => put_real(out, value),
        CAtom::Cell(cell) => put_cell(out, cell),
        CAtom::Unknown(i) => put_unknown(out, i),
    }
}

fn put_operator(out: &mut Vec<u8>, operator: COperator) -> Result<(), AllocError>
    ensures { OnOk result (Prints out.old.items out.new.items (words_spec.word (operator_word operator))) }
{
    match operator {
        COperator::Plus => put_word(out, b"+"),
        COperator::Minus => put_word(out, b"-"),
        COperator::Times => put_word(out, b"*"),
        COperator::Over => put_word(out, b"/"),
        COperator::Remainder => put_word(out, b"%"),
        COperator::Less => put_word(out, b"<"),
        COperator::AtMost => put_word(out, b"<="),
        COperator::Greater => put_word(out, b">"),
        COperator::AtLeast => put_word(out, b">="),
        COperator::Same => put_word(out, b"=="),
        COperator::Differs => put_word(out, b"!="),
    }
}

fn put_fun1(out: &mut Vec<u8>, function: Fun1) -> Result<(), AllocError>
    ensures { OnOk result (Prints out.old.items out.new.items (words_spec.word (fun1_word function))) }
{
    match function {
        Fun1::Exp => put_word(out, b"exp"),
        Fun1::Ln => put_word(out, b"log"),
        Fun1::Log => put_word(out, b"log10"),
        Fun1::Sqrt => put_word(out, b"sqrt"),
        Fun1::Sin => put_word(out, b"sin"),
        Fun1::Cos => put_word(out, b"cos"),
        Fun1::Tan => put_word(out, b"tan"),
        Fun1::Asin => put_word(out, b"asin"),
        Fun1::Acos => put_word(out, b"acos"),
        Fun1::Atan => put_word(out, b"atan"),
        Fun1::Sinh => put_word(out, b"sinh"),
        Fun1::Cosh => put_word(out, b"cosh"),
        Fun1::Tanh => put_word(out, b"tanh"),
        Fun1::Asinh => put_word(out, b"asinh"),
        Fun1::Acosh => put_word(out, b"acosh"),
        Fun1::Atanh => put_word(out, b"atanh"),
        Fun1::Floor => put_word(out, b"floor"),
        Fun1::Ceil => put_word(out, b"ceil"),
    }
}

fn put_fun2(out: &mut Vec<u8>, function: Fun2) -> Result<(), AllocError>
    ensures { OnOk result (Prints out.old.items out.new.items (words_spec.word (fun2_word function))) }
{
    match function {
        Fun2::Pow => put_word(out, b"pow"),
        Fun2::Atan2 => put_word(out, b"atan2"),
        Fun2::Hypot => put_word(out, b"hypot"),
    }
}

/// What is called, in module number k.
fn put_callee(out: &mut Vec<u8>, k: usize, callee: CCallee) -> Result<(), AllocError>
    ensures { OnOk result (Prints out.old.items out.new.items (words_spec.word (callee_word k callee))) }
{
    match callee {
        CCallee::Fun1(function) => put_fun1(out, function),
        CCallee::Fun2(function) => put_fun2(out, function),
        CCallee::Function(index) => put_function_name(out, k, index as usize),
    }
}

/// Atoms, with a comma before each.
fn put_more_atoms(out: &mut Vec<u8>, atoms: &[CAtom]) -> Result<(), AllocError>
    ensures { OnOk result (Prints out.old.items out.new.items (marked (codes ",") atom_words atoms.now)) }
{
    for atom in atoms {
        put_word(out, b",")?;
        put_atom(out, *atom)?;
    }
    Ok(())
}

/// Atoms, with a comma between each two.
fn put_atoms(out: &mut Vec<u8>, atoms: &[CAtom]) -> Result<(), AllocError>
    ensures { OnOk result (Prints out.old.items out.new.items (with_commas atom_words atoms.now)) }
{
    if atoms.is_empty() {
        return Ok(());
    }
    put_atom(out, atoms[0])?;
    put_more_atoms(out, &atoms[1..])?;
    Ok(())
}

fn put_negated(out: &mut Vec<u8>, atom: CAtom) -> Result<(), AllocError>
    ensures { OnOk result (Prints out.old.items out.new.items (words_spec.word (codes "-") ++ atom_words atom)) }
{
    put_word(out, b"-")?;
    put_atom(out, atom)?;
    Ok(())
}

fn put_contrary(out: &mut Vec<u8>, atom: CAtom) -> Result<(), AllocError>
    ensures { OnOk result (Prints out.old.items out.new.items (words_spec.word (codes "!") ++ atom_words atom)) }
{
    put_word(out, b"!")?;
    put_atom(out, atom)?;
    Ok(())
}

fn put_to_real(out: &mut Vec<u8>, atom: CAtom) -> Result<(), AllocError>
    ensures { OnOk result (Prints out.old.items out.new.items (template (codes "( double )") ++ atom_words atom)) }
{
    put_template(out, "( double )")?;
    put_atom(out, atom)?;
    Ok(())
}

fn put_to_integer(out: &mut Vec<u8>, atom: CAtom) -> Result<(), AllocError>
    ensures { OnOk result (Prints out.old.items out.new.items
        (template (codes "( int32_t ) lround (") ++ atom_words atom ++ words_spec.word (codes ")"))) }
{
    put_template(out, "( int32_t ) lround (")?;
    put_atom(out, atom)?;
    put_word(out, b")")?;
    Ok(())
}

fn put_call(out: &mut Vec<u8>, k: usize, callee: CCallee, args: &[CAtom]) -> Result<(), AllocError>
    ensures { OnOk result (Prints out.old.items out.new.items
        (words_spec.word (callee_word k callee) ++ words_spec.word (codes "(") ++ with_commas atom_words args.now ++ words_spec.word (codes ")"))) }
{
    put_callee(out, k, callee)?;
    put_word(out, b"(")?;
    put_atoms(out, args)?;
    put_word(out, b")")?;
    Ok(())
}

fn put_binary(
    out: &mut Vec<u8>,
    left: CAtom,
    operator: COperator,
    right: CAtom,
) -> Result<(), AllocError>
    ensures { OnOk result (Prints out.old.items out.new.items
        (atom_words left ++ words_spec.word (operator_word operator) ++ atom_words right)) }
{
    put_atom(out, left)?;
    put_operator(out, operator)?;
    put_atom(out, right)?;
    Ok(())
}

/// The right side of a constant, in module number k.
pub fn put_right(out: &mut Vec<u8>, k: usize, right: &CRight) -> Result<(), AllocError>
    ensures { OnOk result (Prints out.old.items out.new.items (right_words k right.now)) }
{
    match right {
        CRight::Same(a) => put_atom(out, *a),
        CRight::Negated(a) => put_negated(out, *a),
        CRight::Contrary(a) => put_contrary(out, *a),
        CRight::ToReal(a) => put_to_real(out, *a),
        CRight::ToInteger(a) => put_to_integer(out, *a),
        CRight::Call { callee, args } => put_call(out, k, *callee, args.as_list()),
        CRight::Binary {
            left,
            operator,
            right,
        } => put_binary(out, *left, *operator, *right),
    }
}
