//! Reading structs, functions and access rows.
ghost use Rattle.std.specs.Prelude.{◌≡◌, IfOk, map, Bool, [], ◌∷◌};
ghost use Rattle.c_raw.specs.Blocks.{at_view};
ghost use Rattle.c_raw.specs.Views.{field_view, argument_view, access_view, flag_view, sizes_view};
ghost use Rattle.c_raw_build.specs.Due.{AreDueIn, IsDue, IsDueIn};
ghost use Rattle.c_raw_build.specs.Nonterminals as nonterminals;
ghost use Rattle.c_raw_build.specs.Reading.{Reads, ReadsElement, row_symbols};
ghost use Rattle.c_raw_build.specs.RowNumbers.{access_rows_row};
ghost use Rattle.c_raw_build.specs.StructParts.{has_instance_test, structs_view, structs_of};
ghost use Rattle.c_raw_build.specs.RawFiles as raw;

use crate::atoms::{placed_cell, placed_number, ty};
use crate::reader::Reader;
use crate::row;
use crate::text::Text;
use c_raw::{At, RawAccess, RawArgument, RawField, RawSizes};
use c_tree::CCell;
use std::alloc::{AllocError, Global};

/// The fields of a struct.
pub(crate) fn fields(
    alloc: Global,
    text: &Text<'_>,
    reader: &mut Reader<'_>,
) -> Result<Vec<RawField>, AllocError>
    requires { IsDueIn text.now (nonterminals.fields ∷ []) reader.old }
    ensures { IfOk result (λ v. Reads (raw.fields text.now) reader.old reader.new (map field_view v.items)) }
{
    let mut list = Vec::new(alloc);
    loop {
        match reader.row() {
            row::FIELDS => {
                let ty = ty(reader);
                let at = reader.at();
                let value = text.field(at);
                reader.pass(2);
                let field = At { at, value };
                list.push(RawField { ty, field })?;
            }
            row::NO_FIELDS => return Ok(list),
            _ => unreachable!(),
        }
    }
}

/// The arguments of a function.
pub(crate) fn arguments(
    alloc: Global,
    text: &Text<'_>,
    reader: &mut Reader<'_>,
) -> Result<Vec<RawArgument>, AllocError>
    requires { IsDueIn text.now (nonterminals.arguments ∷ []) reader.old }
    ensures { IfOk result (λ v. Reads (raw.arguments text.now) reader.old reader.new (map argument_view v.items)) }
{
    let mut list = Vec::new(alloc);
    loop {
        match reader.row() {
            row::ARGUMENTS => {
                let ty = ty(reader);
                let at = reader.at();
                let value = text.number(at);
                reader.pass(1);
                let number = At { at, value };
                list.push(RawArgument { ty, number })?;
            }
            row::MORE_ARGUMENTS => {
                reader.pass(1);
                let ty = ty(reader);
                let at = reader.at();
                let value = text.number(at);
                reader.pass(1);
                let number = At { at, value };
                list.push(RawArgument { ty, number })?;
            }
            row::NO_ARGUMENTS => return Ok(list),
            row::NO_MORE_ARGUMENTS => return Ok(list),
            _ => unreachable!(),
        }
    }
}

/// Whether an access row holds only for calls that ask for the instance's cell.
fn instance_test(reader: &mut Reader<'_>) -> bool
    requires { IsDue (nonterminals.instance_test ∷ []) reader.old }
    ensures { Reads has_instance_test reader.old reader.new result }
{
    match reader.row() {
        row::INSTANCE_TEST => {
            reader.pass(6);
            true
        }
        row::NO_INSTANCE_TEST => false,
        _ => unreachable!(),
    }
}

/// The flag that an access row sets.
fn flag(text: &Text<'_>, reader: &mut Reader<'_>) -> Option<At<CCell>>
    requires { IsDueIn text.now (nonterminals.flag_setting ∷ []) reader.old }
    ensures { Reads (raw.flag text.now) reader.old reader.new (flag_view result) }
{
    match reader.row() {
        row::FLAG_SETTING => {
            reader.pass(7);
            let cell = placed_cell(text, reader);
            reader.pass(4);
            Some(cell)
        }
        row::NO_FLAG_SETTING => None,
        _ => unreachable!(),
    }
}

/// The rows of an access function.
pub(crate) fn access_rows(
    alloc: Global,
    text: &Text<'_>,
    reader: &mut Reader<'_>,
) -> Result<Vec<RawAccess>, AllocError>
    requires { IsDueIn text.now (nonterminals.access_rows ∷ []) reader.old }
    ensures { IfOk result (λ v. Reads (raw.access text.now) reader.old reader.new (map access_view v.items)) }
{
    let mut list = Vec::new(alloc);
    loop {
        match reader.row() {
            row::ACCESS_ROWS => {
                let access = access_row(text, reader);
                list.push(access)?;
            }
            row::NO_ACCESS_ROWS => return Ok(list),
            _ => unreachable!(),
        }
    }
}

/// An access row, whose row was taken, up to those behind it.
fn access_row(text: &Text<'_>, reader: &mut Reader<'_>) -> RawAccess
    requires { AreDueIn text.now (row_symbols access_rows_row) reader.old }
    ensures read { ReadsElement access_rows_row (raw.access_row text.now) reader.old reader.new (access_view result) }
    ensures due { IsDueIn text.now (nonterminals.access_rows ∷ []) reader.new }
{
    reader.pass(4);
    let id = placed_number(text, reader);
    let instance = instance_test(reader);
    reader.pass(2);
    let flag = flag(text, reader);
    reader.pass(2);
    let cell = placed_cell(text, reader);
    reader.pass(2);
    RawAccess {
        id,
        instance,
        flag,
        cell,
    }
}

/// The two structs of a module: their fields, and the sizes of the instance's arrays.
#[derive(Drop)]
pub(crate) struct Structs {
    pub model_fields: Vec<RawField>,
    pub sizes: RawSizes,
    pub inst_fields: Vec<RawField>,
}

/// The structs of a module.
pub(crate) fn two_structs(
    alloc: Global,
    text: &Text<'_>,
    reader: &mut Reader<'_>,
) -> Result<Structs, AllocError>
    requires { IsDueIn text.now (nonterminals.structs ∷ []) reader.old }
    ensures { IfOk result (λ v. Reads (structs_of text.now) reader.old reader.new (structs_view v)) }
{
    reader.take(row::STRUCTS);
    reader.pass(6);
    let model_fields = fields(alloc, text, reader)?;
    reader.pass(9);
    let node = placed_number(text, reader);
    reader.pass(6);
    let jr = placed_number(text, reader);
    reader.pass(6);
    let jq = placed_number(text, reader);
    reader.pass(5);
    let col = placed_number(text, reader);
    reader.pass(5);
    let inst_fields = fields(alloc, text, reader)?;
    reader.pass(3);
    Ok(Structs {
        model_fields,
        sizes: RawSizes { node, jr, jq, col },
        inst_fields,
    })
}
