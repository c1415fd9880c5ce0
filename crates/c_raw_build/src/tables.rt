//! Reading tables.
ghost use Rattle.std.specs.Prelude.{IfOk, map, Some, None, [], ◌∷◌};
ghost use Rattle.c_raw.specs.Views.{node_view, entry_view, pair_view, param_view};
ghost use Rattle.c_raw_build.specs.Due.{AreDueIn, HasOneOf, IsDue, IsDueIn};
ghost use Rattle.c_raw_build.specs.Nonterminals as nonterminals;
ghost use Rattle.c_raw_build.specs.Reading.{Reads, ReadsElement, row_symbols, row_symbols, row_symbols};
ghost use Rattle.c_raw_build.specs.RawTables as raw;
ghost use Rattle.c_raw_build.specs.RowNumbers.{node_row_row, entry_row_row, param_row_row};
ghost use Rattle.c_raw_build.specs.TokenKinds as token_kinds;
ghost use Rattle.c_raw_build.specs.TableParts.{has_and_react, parts_view, entry_parts, names_from, tables_view, tables_of};

use crate::atoms::{named_field, number, placed_number};
use crate::reader::Reader;
use crate::row;
use crate::text::Text;
use c_raw::{At, RawEntry, RawNode, RawPair, RawParam};
use c_tree::ParamKind;
use std::alloc::{AllocError, Global};
use va_base::{Items, Name};

/// The nodes.
pub(crate) fn node_rows(
    alloc: Global,
    text: &Text<'_>,
    reader: &mut Reader<'_>,
) -> Result<Vec<RawNode>, AllocError>
    requires { IsDueIn text.now (nonterminals.node_rows ∷ []) reader.old }
    ensures { IfOk result (λ v. Reads (raw.node_rows text.now) reader.old reader.new (map node_view v.items)) }
{
    let mut list = Vec::new(alloc);
    loop {
        match reader.row() {
            row::NODE_ROWS => {
                reader.pass(1);
            }
            row::NODE_ROW => {
                let node = node_row(alloc, text, reader)?;
                list.push(node)?;
            }
            row::NO_NODE_ROW => {
                reader.pass(2);
                return Ok(list);
            }
            _ => unreachable!(),
        }
    }
}

/// A node, whose row was taken, up to the nodes behind it.
fn node_row(alloc: Global, text: &Text<'_>, reader: &mut Reader<'_>) -> Result<RawNode, AllocError>
    requires { AreDueIn text.now (row_symbols node_row_row) reader.old }
    ensures read { IfOk result (λ v. ReadsElement node_row_row (raw.node_row text.now) reader.old reader.new (node_view v)) }
    ensures due { IfOk result (λ _. IsDueIn text.now (nonterminals.node_rows ∷ []) reader.new) }
{
    reader.pass(2);
    let name = text.string(alloc, reader.at())?;
    reader.pass(4);
    let units = text.string(alloc, reader.at())?;
    reader.pass(4);
    let residual_units = text.string(alloc, reader.at())?;
    reader.pass(8);
    let resist = named_field(text, reader);
    reader.pass(8);
    let react = named_field(text, reader);
    reader.pass(12);
    let is_flow = number(text, reader);
    reader.pass(2);
    Ok(RawNode {
        name,
        units,
        residual_units,
        resist,
        react,
        is_flow,
    })
}

/// The second node of a pair: a number, or `UINT32_MAX`.
fn second_node(text: &Text<'_>, reader: &mut Reader<'_>) -> Option<u32>
    requires { IsDueIn text.now (nonterminals.second_node ∷ []) reader.old }
    ensures { Reads (raw.second_node text.now) reader.old reader.new result }
{
    match reader.row() {
        row::SECOND_NODE => {
            let node = number(text, reader);
            Some(node)
        }
        row::NO_SECOND_NODE => {
            reader.pass(1);
            None
        }
        _ => unreachable!(),
    }
}

/// A pair of nodes.
fn pair(text: &Text<'_>, reader: &mut Reader<'_>) -> RawPair
    requires { IsDueIn text.now (nonterminals.pair ∷ []) reader.old }
    ensures { Reads (raw.pair text.now) reader.old reader.new (pair_view result) }
{
    reader.take(row::PAIR);
    reader.pass(2);
    let first = placed_number(text, reader);
    reader.pass(3);
    let at = reader.at();
    let value = second_node(text, reader);
    RawPair {
        first,
        second: At { at, value },
    }
}

/// Where the pointer to an entry's reactive part stands: the number of an element of `jq`, or `UINT32_MAX`.
fn react_pointer(text: &Text<'_>, reader: &mut Reader<'_>) -> Option<u32>
    requires { IsDueIn text.now (nonterminals.react_pointer ∷ []) reader.old }
    ensures { Reads (raw.react_pointer text.now) reader.old reader.new result }
{
    match reader.row() {
        row::REACT_POINTER => {
            reader.pass(6);
            let entry = number(text, reader);
            reader.pass(2);
            Some(entry)
        }
        row::NO_REACT_POINTER => {
            reader.pass(1);
            None
        }
        _ => unreachable!(),
    }
}

/// Which parts an entry has.
#[derive(Clone, Copy)]
struct EntryParts {
    resist: bool,
    react: bool,
}

/// Whether the reactive part follows the resistive one.
fn and_react(reader: &mut Reader<'_>) -> bool
    requires { IsDue (nonterminals.and_react ∷ []) reader.old }
    ensures { Reads has_and_react reader.old reader.new result }
{
    match reader.row() {
        row::AND_REACT => {
            reader.pass(2);
            true
        }
        row::NO_AND_REACT => false,
        _ => unreachable!(),
    }
}

/// Which parts an entry has.
fn parts(reader: &mut Reader<'_>) -> EntryParts
    requires { IsDue (nonterminals.entry_parts ∷ []) reader.old }
    ensures { Reads entry_parts reader.old reader.new (parts_view result) }
{
    let row = reader.row();
    reader.pass(1);
    match row {
        row::RESIST_PARTS => {
            let react = and_react(reader);
            EntryParts {
                resist: true,
                react,
            }
        }
        row::REACT_PART => EntryParts {
            resist: false,
            react: true,
        },
        _ => unreachable!(),
    }
}

/// The entries.
pub(crate) fn entry_rows(
    alloc: Global,
    text: &Text<'_>,
    reader: &mut Reader<'_>,
) -> Result<Vec<RawEntry>, AllocError>
    requires { IsDueIn text.now (nonterminals.entry_rows ∷ []) reader.old }
    ensures { IfOk result (λ v. Reads (raw.entry_rows text.now) reader.old reader.new (map entry_view v.items)) }
{
    let mut list = Vec::new(alloc);
    loop {
        match reader.row() {
            row::ENTRY_ROWS => {
                reader.pass(1);
            }
            row::ENTRY_ROW => {
                let entry = entry_row(text, reader);
                list.push(entry)?;
            }
            row::NO_ENTRY_ROW => {
                reader.pass(2);
                return Ok(list);
            }
            _ => unreachable!(),
        }
    }
}

/// An entry, whose row was taken, up to the entries behind it.
fn entry_row(text: &Text<'_>, reader: &mut Reader<'_>) -> RawEntry
    requires { AreDueIn text.now (row_symbols entry_row_row) reader.old }
    ensures read { ReadsElement entry_row_row (raw.entry_row text.now) reader.old reader.new (entry_view result) }
    ensures due { IsDueIn text.now (nonterminals.entry_rows ∷ []) reader.new }
{
    reader.pass(3);
    let pair = pair(text, reader);
    reader.pass(4);
    let at = reader.at();
    let value = react_pointer(text, reader);
    reader.pass(3);
    let parts = parts(reader);
    reader.pass(2);
    RawEntry {
        pair,
        react_offset: At { at, value },
        resist: parts.resist,
        react: parts.react,
    }
}

/// The collapsible pairs.
pub(crate) fn pair_rows(
    alloc: Global,
    text: &Text<'_>,
    reader: &mut Reader<'_>,
) -> Result<Vec<RawPair>, AllocError>
    requires { IsDueIn text.now (nonterminals.pair_rows ∷ []) reader.old }
    ensures { IfOk result (λ v. Reads (raw.pair_rows text.now) reader.old reader.new (map pair_view v.items)) }
{
    let mut list = Vec::new(alloc);
    loop {
        match reader.row() {
            row::PAIR_ROWS => {
                reader.pass(1);
            }
            row::PAIR_ROW => {
                let next = pair(text, reader);
                reader.pass(2);
                list.push(next)?;
            }
            row::NO_PAIR_ROW => {
                reader.pass(2);
                return Ok(list);
            }
            _ => unreachable!(),
        }
    }
}

/// The names of a parameter behind the first, which stands at this token.
fn names(
    alloc: Global,
    text: &Text<'_>,
    reader: &mut Reader<'_>,
    first: u32,
) -> Result<Vec<Name>, AllocError>
    requires own { HasOneOf text.now first token_kinds.strings }
    requires due { IsDueIn text.now (nonterminals.more_strings ∷ []) reader.old }
    ensures { IfOk result (λ v. Reads (names_from text.now first) reader.old reader.new v.items) }
{
    let own = text.string(alloc, first)?;
    let mut list = vec![in alloc; own]?;
    loop {
        match reader.row() {
            row::MORE_STRINGS => {
                reader.pass(1);
                let alias = text.string(alloc, reader.at())?;
                reader.pass(1);
                list.push(alias)?;
            }
            row::NO_MORE_STRINGS => return Ok(list),
            _ => unreachable!(),
        }
    }
}

/// Whether a parameter is an integer.
fn is_integer_param(reader: &mut Reader<'_>) -> bool
    requires { IsDue (nonterminals.param_type ∷ []) reader.old }
    ensures { Reads raw.is_integer_param reader.old reader.new result }
{
    let row = reader.row();
    reader.pass(1);
    match row {
        row::REAL_PARAM => false,
        row::INTEGER_PARAM => true,
        _ => unreachable!(),
    }
}

/// Whose a parameter is.
fn param_kind(reader: &mut Reader<'_>) -> ParamKind
    requires { IsDue (nonterminals.param_kind ∷ []) reader.old }
    ensures { Reads raw.param_kind reader.old reader.new result }
{
    let row = reader.row();
    reader.pass(1);
    match row {
        row::INSTANCE_PARAM => ParamKind::Inst,
        row::MODEL_PARAM => ParamKind::Model,
        row::OPVAR => ParamKind::Opvar,
        _ => unreachable!(),
    }
}

/// The parameters and operating-point variables.
pub(crate) fn param_rows(
    alloc: Global,
    text: &Text<'_>,
    reader: &mut Reader<'_>,
) -> Result<Vec<RawParam>, AllocError>
    requires { IsDueIn text.now (nonterminals.param_rows ∷ []) reader.old }
    ensures { IfOk result (λ v. Reads (raw.param_rows text.now) reader.old reader.new (map param_view v.items)) }
{
    let mut list = Vec::new(alloc);
    loop {
        match reader.row() {
            row::PARAM_ROWS => {
                reader.pass(1);
            }
            row::PARAM_ROW => {
                let param = param_row(alloc, text, reader)?;
                list.push(param)?;
            }
            row::NO_PARAM_ROW => {
                reader.pass(2);
                return Ok(list);
            }
            _ => unreachable!(),
        }
    }
}

/// A parameter, whose row was taken, up to those behind it.
fn param_row(
    alloc: Global,
    text: &Text<'_>,
    reader: &mut Reader<'_>,
) -> Result<RawParam, AllocError>
    requires { AreDueIn text.now (row_symbols param_row_row) reader.old }
    ensures read { IfOk result (λ v. ReadsElement param_row_row (raw.param_row text.now) reader.old reader.new (param_view v)) }
    ensures due { IfOk result (λ _. IsDueIn text.now (nonterminals.param_rows ∷ []) reader.new) }
{
    reader.pass(9);
    let first = reader.at();
    reader.pass(1);
    let names = names(alloc, text, reader, first)?;
    reader.pass(4);
    let num_alias = placed_number(text, reader);
    reader.pass(3);
    let description = text.string(alloc, reader.at())?;
    reader.pass(4);
    let units = text.string(alloc, reader.at())?;
    reader.pass(4);
    let integer = is_integer_param(reader);
    reader.pass(1);
    let at = reader.at();
    let kind = param_kind(reader);
    reader.pass(6);
    Ok(RawParam {
        names: Items::new(names),
        num_alias,
        description,
        units,
        integer,
        kind: At { at, value: kind },
    })
}

/// The tables of a module.
#[derive(Drop)]
pub(crate) struct Tables {
    pub nodes: Vec<RawNode>,
    pub entries: Vec<RawEntry>,
    pub collapse: Vec<RawPair>,
    pub params: Vec<RawParam>,
}

/// The tables of a module.
pub(crate) fn four_tables(
    alloc: Global,
    text: &Text<'_>,
    reader: &mut Reader<'_>,
) -> Result<Tables, AllocError>
    requires { IsDueIn text.now (nonterminals.tables ∷ []) reader.old }
    ensures { IfOk result (λ v. Reads (tables_of text.now) reader.old reader.new (tables_view v)) }
{
    reader.take(row::TABLES);
    reader.pass(6);
    let nodes = node_rows(alloc, text, reader)?;
    reader.pass(8);
    let entries = entry_rows(alloc, text, reader)?;
    reader.pass(8);
    let collapse = pair_rows(alloc, text, reader)?;
    reader.pass(8);
    let params = param_rows(alloc, text, reader)?;
    reader.pass(2);
    Ok(Tables {
        nodes,
        entries,
        collapse,
        params,
    })
}
