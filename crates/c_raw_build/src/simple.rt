//! Reading statements without blocks.
ghost use Rattle.std.specs.Prelude.{◌≡◌, ◌≢◌, IfOk, [], ◌∷◌};
ghost use Rattle.c_raw.specs.Blocks.{at_view, simple_view};
ghost use Rattle.c_raw_build.specs.Due.{HasOneOf, IsDueIn};
ghost use Rattle.c_raw_build.specs.Nonterminals as nonterminals;
ghost use Rattle.c_raw_build.specs.Placed.{row_of};
ghost use Rattle.c_raw_build.specs.Reading.{Reads, first_tree, trees};
ghost use Rattle.c_raw_build.specs.RowNumbers.{constant_row, declared_row, assigned_row, set_model_row, set_instance_row, report_row, if_row, for_row};
ghost use Rattle.c_raw_build.specs.RawBodies as raw;
ghost use Rattle.c_raw_build.specs.Steps.{ReadsSimple};
ghost use Rattle.c_raw_build.specs.SimpleParts.{target_view};
ghost use Rattle.c_raw_build.specs.TokenKinds as token_kinds;
ghost use Rattle.c_raw_build.specs.Words.{numbered_at};

use crate::atoms::{field, number, placed_atom, ty};
use crate::reader::Reader;
use crate::rights::right;
use crate::row;
use crate::text::Text;
use alg_laws::Ty;
use c_raw::{At, RawSimple};
use c_tree::{CAtom, CCell, CField, Level};
use std::alloc::{AllocError, Global};

/// A statement without blocks.
pub(crate) fn simple(
    alloc: Global,
    text: &Text<'_>,
    reader: &mut Reader<'_>,
) -> Result<RawSimple, AllocError>
    requires due { IsDueIn text.now (nonterminals.statement ∷ []) reader.old }
    requires no_if { row_of (first_tree (trees reader.old)) ≢ if_row }
    requires no_for { row_of (first_tree (trees reader.old)) ≢ for_row }
    ensures { IfOk result (λ v. ReadsSimple text.now reader.old reader.new v) }
{
    match reader.next_row() {
        row::CONSTANT => constant(alloc, text, reader),
        row::DECLARED => Ok(declared(text, reader)),
        row::ASSIGNED => Ok(assigned(text, reader)),
        row::SET_MODEL => Ok(set_model(text, reader)),
        row::SET_INSTANCE => Ok(set_instance(text, reader)),
        row::REPORT => Ok(report(text, reader)),
        _ => unreachable!(),
    }
}

/// `const double v1 = .. ;`
fn constant(
    alloc: Global,
    text: &Text<'_>,
    reader: &mut Reader<'_>,
) -> Result<RawSimple, AllocError>
    requires due { IsDueIn text.now (nonterminals.statement ∷ []) reader.old }
    requires row { row_of (first_tree (trees reader.old)) ≡ constant_row }
    ensures { IfOk result (λ v. ReadsSimple text.now reader.old reader.new v) }
{
    reader.take(row::CONSTANT);
    reader.pass(1);
    let ty = ty(reader);
    let local = local(text, reader.at());
    reader.pass(2);
    let at = reader.at();
    let right = right(alloc, text, reader)?;
    reader.pass(1);
    Ok(RawSimple::Constant {
        ty,
        local,
        at,
        right,
    })
}

/// `double v1 ;` or `double v1 = .. ;`
fn declared(text: &Text<'_>, reader: &mut Reader<'_>) -> RawSimple
    requires due { IsDueIn text.now (nonterminals.statement ∷ []) reader.old }
    requires row { row_of (first_tree (trees reader.old)) ≡ declared_row }
    ensures { ReadsSimple text.now reader.old reader.new result }
{
    reader.take(row::DECLARED);
    let ty = ty(reader);
    let local = local(text, reader.at());
    reader.pass(1);
    let value = first_value(text, reader, ty, local);
    reader.pass(1);
    value
}

/// What follows a declared local: a first value, or nothing.
fn first_value(text: &Text<'_>, reader: &mut Reader<'_>, ty: Ty, local: At<u32>) -> RawSimple
    requires { IsDueIn text.now (nonterminals.first_value ∷ []) reader.old }
    ensures { Reads (raw.declared text.now ty (at_view local)) reader.old reader.new (simple_view result) }
{
    match reader.row() {
        row::FIRST_VALUE => {
            reader.pass(1);
            let first = placed_atom(text, reader);
            RawSimple::Head { ty, local, first }
        }
        row::NO_FIRST_VALUE => RawSimple::Join { ty, local },
        _ => unreachable!(),
    }
}

/// `v1 = .. ;`
fn assigned(text: &Text<'_>, reader: &mut Reader<'_>) -> RawSimple
    requires due { IsDueIn text.now (nonterminals.statement ∷ []) reader.old }
    requires row { row_of (first_tree (trees reader.old)) ≡ assigned_row }
    ensures { ReadsSimple text.now reader.old reader.new result }
{
    reader.take(row::ASSIGNED);
    let local = local(text, reader.at());
    reader.pass(2);
    let value = placed_atom(text, reader);
    reader.pass(1);
    RawSimple::Assign { local, value }
}

/// `init_error ( res , 1u ) ;`
fn report(text: &Text<'_>, reader: &mut Reader<'_>) -> RawSimple
    requires due { IsDueIn text.now (nonterminals.statement ∷ []) reader.old }
    requires row { row_of (first_tree (trees reader.old)) ≡ report_row }
    ensures { ReadsSimple text.now reader.old reader.new result }
{
    reader.take(row::REPORT);
    let at = reader.at();
    reader.pass(4);
    let value = number(text, reader);
    reader.pass(2);
    RawSimple::Report {
        id: At { at, value },
    }
}

/// `model -> p1 = .. ;`
fn set_model(text: &Text<'_>, reader: &mut Reader<'_>) -> RawSimple
    requires due { IsDueIn text.now (nonterminals.statement ∷ []) reader.old }
    requires row { row_of (first_tree (trees reader.old)) ≡ set_model_row }
    ensures { ReadsSimple text.now reader.old reader.new result }
{
    reader.take(row::SET_MODEL);
    let at = reader.at();
    reader.pass(2);
    let field = field(text, reader);
    reader.pass(1);
    let value = placed_atom(text, reader);
    reader.pass(1);
    let cell = At {
        at,
        value: CCell {
            level: Level::Model,
            field,
        },
    };
    RawSimple::SetCell { cell, value }
}

/// `inst -> r1 = .. ;` or `inst -> col [ 1u ] = .. ;`
fn set_instance(text: &Text<'_>, reader: &mut Reader<'_>) -> RawSimple
    requires due { IsDueIn text.now (nonterminals.statement ∷ []) reader.old }
    requires row { row_of (first_tree (trees reader.old)) ≡ set_instance_row }
    ensures { ReadsSimple text.now reader.old reader.new result }
{
    reader.take(row::SET_INSTANCE);
    let at = reader.at();
    reader.pass(2);
    let target = instance_target(text, reader);
    reader.pass(1);
    let value = placed_atom(text, reader);
    reader.pass(1);
    set_target(at, target, value)
}

/// What a statement sets in the instance: a field, or the collapse flag of a pair.
#[derive(Clone, Copy, Debug)]
enum Target {
    Field(CField),
    Pair(u32),
}

/// What stands behind `inst ->` where something is set.
fn instance_target(text: &Text<'_>, reader: &mut Reader<'_>) -> Target
    requires { IsDueIn text.now (nonterminals.instance_target ∷ []) reader.old }
    ensures { Reads (raw.instance_target text.now) reader.old reader.new (target_view result) }
{
    match reader.row() {
        row::FIELD_TARGET => {
            let field = field(text, reader);
            Target::Field(field)
        }
        row::COLLAPSE_TARGET => {
            reader.pass(2);
            let pair = number(text, reader);
            reader.pass(1);
            Target::Pair(pair)
        }
        _ => unreachable!(),
    }
}

/// The setting of a target behind the `inst` with this index.
fn set_target(at: u32, target: Target, value: At<CAtom>) -> RawSimple
    ensures { simple_view result ≡ raw.set_target at (target_view target) (at_view value) }
{
    match target {
        Target::Field(field) => RawSimple::SetCell {
            cell: At {
                at,
                value: CCell {
                    level: Level::Instance,
                    field,
                },
            },
            value,
        },
        Target::Pair(pair) => RawSimple::SetCollapse {
            pair: At { at, value: pair },
            value,
        },
    }
}

/// The local that a token names.
fn local(text: &Text<'_>, at: u32) -> At<u32>
    requires { HasOneOf text.now at token_kinds.locals }
    ensures { at_view result ≡ numbered_at text.now at }
{
    let value = text.number(at);
    At { at, value }
}
