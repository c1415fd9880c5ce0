//! Statements without blocks.
ghost use Rattle.std.specs.Prelude.{OnOk, ◌++◌, codes};
ghost use Rattle.c_tree.specs.Words as words_spec;
ghost use Rattle.c_tree.specs.Words.{template, unsigned};
ghost use Rattle.c_tree.specs.Text.{type_word, local_word, cell_words, atom_words, right_words, simple_words};
ghost use Rattle.c_print.specs.Prints.{Prints};

use crate::value::{put_atom, put_cell, put_right, put_type};
use crate::words::{put_numbered, put_template, put_unsigned, put_word};
use alg_laws::Ty;
use c_tree::{CAtom, CCell, CRight, CSimple};
use std::alloc::AllocError;

fn put_constant(
    out: &mut Vec<u8>,
    k: usize,
    ty: Ty,
    local: u32,
    right: &CRight,
) -> Result<(), AllocError>
    ensures { OnOk result (Prints out.old.items out.new.items
        (words_spec.word (codes "const") ++ words_spec.word (type_word ty) ++ words_spec.word (local_word local) ++ words_spec.word (codes "=")
        ++ right_words k right.now ++ words_spec.word (codes ";"))) }
{
    put_word(out, b"const")?;
    put_type(out, ty)?;
    put_numbered(out, "v", local)?;
    put_word(out, b"=")?;
    put_right(out, k, right)?;
    put_word(out, b";")?;
    Ok(())
}

fn put_join(out: &mut Vec<u8>, ty: Ty, local: u32) -> Result<(), AllocError>
    ensures { OnOk result (Prints out.old.items out.new.items
        (words_spec.word (type_word ty) ++ words_spec.word (local_word local) ++ words_spec.word (codes ";"))) }
{
    put_type(out, ty)?;
    put_numbered(out, "v", local)?;
    put_word(out, b";")?;
    Ok(())
}

fn put_head(out: &mut Vec<u8>, ty: Ty, local: u32, first: CAtom) -> Result<(), AllocError>
    ensures { OnOk result (Prints out.old.items out.new.items
        (words_spec.word (type_word ty) ++ words_spec.word (local_word local) ++ words_spec.word (codes "=") ++ atom_words first
        ++ words_spec.word (codes ";"))) }
{
    put_type(out, ty)?;
    put_numbered(out, "v", local)?;
    put_word(out, b"=")?;
    put_atom(out, first)?;
    put_word(out, b";")?;
    Ok(())
}

fn put_assign(out: &mut Vec<u8>, local: u32, value: CAtom) -> Result<(), AllocError>
    ensures { OnOk result (Prints out.old.items out.new.items
        (words_spec.word (local_word local) ++ words_spec.word (codes "=") ++ atom_words value ++ words_spec.word (codes ";"))) }
{
    put_numbered(out, "v", local)?;
    put_word(out, b"=")?;
    put_atom(out, value)?;
    put_word(out, b";")?;
    Ok(())
}

fn put_set_cell(out: &mut Vec<u8>, cell: CCell, value: CAtom) -> Result<(), AllocError>
    ensures { OnOk result (Prints out.old.items out.new.items
        (cell_words cell ++ words_spec.word (codes "=") ++ atom_words value ++ words_spec.word (codes ";"))) }
{
    put_cell(out, cell)?;
    put_word(out, b"=")?;
    put_atom(out, value)?;
    put_word(out, b";")?;
    Ok(())
}

fn put_set_collapse(out: &mut Vec<u8>, pair: u32, value: CAtom) -> Result<(), AllocError>
    ensures { OnOk result (Prints out.old.items out.new.items
        (template (codes "inst -> col [") ++ words_spec.word (unsigned pair) ++ template (codes "] =") ++ atom_words value
        ++ words_spec.word (codes ";"))) }
{
    put_template(out, "inst -> col [")?;
    put_unsigned(out, pair)?;
    put_template(out, "] =")?;
    put_atom(out, value)?;
    put_word(out, b";")?;
    Ok(())
}

fn put_report(out: &mut Vec<u8>, id: u32) -> Result<(), AllocError>
    ensures { OnOk result (Prints out.old.items out.new.items
        (template (codes "init_error ( res ,") ++ words_spec.word (unsigned id) ++ template (codes ") ;"))) }
{
    put_template(out, "init_error ( res ,")?;
    put_unsigned(out, id)?;
    put_template(out, ") ;")?;
    Ok(())
}

/// A statement without blocks, in module number k.
pub fn put_simple(out: &mut Vec<u8>, k: usize, statement: &CSimple) -> Result<(), AllocError>
    ensures { OnOk result (Prints out.old.items out.new.items (simple_words k statement.now)) }
{
    match statement {
        CSimple::Constant { ty, local, right } => put_constant(out, k, *ty, *local, right),
        CSimple::Join { ty, local } => put_join(out, *ty, *local),
        CSimple::Head { ty, local, first } => put_head(out, *ty, *local, *first),
        CSimple::Assign { local, value } => put_assign(out, *local, *value),
        CSimple::SetCell { cell, value } => put_set_cell(out, *cell, *value),
        CSimple::SetCollapse { pair, value } => put_set_collapse(out, *pair, *value),
        CSimple::Report { id } => put_report(out, *id),
    }
}
