//! Fields of the structs, and the elements of the tables.
ghost use Rattle.std.specs.Prelude.{◌≡◌, IfOk, map};
ghost use Rattle.c_tree.specs.FileOf as files;
ghost use Rattle.c_raw.specs.Views.{entry_view, field_view, node_view, pair_view, param_view};

use crate::name::{name, names};
use alg_laws::Ty;
use c_raw::field_names::field_name;
use c_raw::{RawEntry, RawField, RawNode, RawPair, RawParam};
use c_tree::{EntryRow, FieldRow, NodeRow, PairRow, ParamRow};
use std::alloc::{AllocError, Global};
use va_base::{Items, Name, NoMemory};

fn is_integer(ty: Ty) -> bool
    ensures { result ≡ files.is_integer ty }
{
    match ty {
        Ty::Integer => true,
        Ty::Real => false,
    }
}

/// A field: its name in C, and its type.
fn field(alloc: Global, raw: &RawField) -> Result<FieldRow, NoMemory>
    ensures { IfOk result (λ v. v ≡ files.field_row (field_view raw.now)) }
{
    let name = field_name(alloc, raw.field.value)?;
    Ok(FieldRow {
        name: Name::new(name),
        integer: is_integer(raw.ty),
    })
}

/// The fields of a struct.
pub(crate) fn fields(alloc: Global, raw: &[RawField]) -> Result<Items<FieldRow>, NoMemory>
    ensures { IfOk result (λ v. v ≡ map files.field_row (map field_view raw.now)) }
{
    let mut list = Vec::new(alloc);
    for element in raw {
        list.push(field(alloc, element)?)?;
    }
    Ok(Items::new(list))
}

fn node(alloc: Global, raw: &RawNode) -> Result<NodeRow, AllocError>
    ensures { IfOk result (λ v. v ≡ files.node_row (node_view raw.now)) }
{
    let own = name(alloc, &raw.name)?;
    let units = name(alloc, &raw.units)?;
    let residual_units = name(alloc, &raw.residual_units)?;
    Ok(NodeRow {
        name: own,
        units,
        residual_units,
        is_flow: raw.is_flow,
    })
}

/// The elements of the nodes.
pub(crate) fn nodes(alloc: Global, raw: &[RawNode]) -> Result<Items<NodeRow>, AllocError>
    ensures { IfOk result (λ v. v ≡ map files.node_row (map node_view raw.now)) }
{
    let mut list = Vec::new(alloc);
    for element in raw {
        list.push(node(alloc, element)?)?;
    }
    Ok(Items::new(list))
}

/// The second number of an entry's pair.
fn column(second: Option<u32>) -> u32
    ensures { result ≡ files.column_of second }
{
    second.unwrap_or(0)
}

fn entry(raw: &RawEntry) -> EntryRow
    ensures { result ≡ files.entry_row (entry_view raw.now) }
{
    EntryRow {
        row: raw.pair.first.value,
        col: column(raw.pair.second.value),
        resist: raw.resist,
        react: raw.react,
    }
}

/// The elements of the entries.
pub(crate) fn entries(alloc: Global, raw: &[RawEntry]) -> Result<Items<EntryRow>, AllocError>
    ensures { IfOk result (λ v. v ≡ map files.entry_row (map entry_view raw.now)) }
{
    let mut list = Vec::new(alloc);
    for element in raw {
        list.push(entry(element))?;
    }
    Ok(Items::new(list))
}

fn pair(raw: &RawPair) -> PairRow
    ensures { result ≡ files.pair_row (pair_view raw.now) }
{
    PairRow {
        first: raw.first.value,
        second: raw.second.value,
    }
}

/// The elements of the pairs.
pub(crate) fn pairs(alloc: Global, raw: &[RawPair]) -> Result<Items<PairRow>, AllocError>
    ensures { IfOk result (λ v. v ≡ map files.pair_row (map pair_view raw.now)) }
{
    let mut list = Vec::new(alloc);
    for element in raw {
        list.push(pair(element))?;
    }
    Ok(Items::new(list))
}

fn param(alloc: Global, raw: &RawParam) -> Result<ParamRow, AllocError>
    ensures { IfOk result (λ v. v ≡ files.param_row (param_view raw.now)) }
{
    let names = names(alloc, raw.names.as_list())?;
    let description = name(alloc, &raw.description)?;
    let units = name(alloc, &raw.units)?;
    Ok(ParamRow {
        names,
        description,
        units,
        integer: raw.integer,
        kind: raw.kind.value,
    })
}

/// The elements of the parameters and operating-point variables.
pub(crate) fn params(alloc: Global, raw: &[RawParam]) -> Result<Items<ParamRow>, AllocError>
    ensures { IfOk result (λ v. v ≡ map files.param_row (map param_view raw.now)) }
{
    let mut list = Vec::new(alloc);
    for element in raw {
        list.push(param(alloc, element)?)?;
    }
    Ok(Items::new(list))
}
