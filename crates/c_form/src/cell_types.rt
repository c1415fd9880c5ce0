//! The types of the fields of a module's two structs, by their names.
ghost use Rattle.std.specs.Prelude.{◌≡◌, ℕ, List, Some, if◌then◌else◌, IfOk, OnOk, map};
ghost use Rattle.std.specs.Str.{bytes_eq};
ghost use Rattle.c_tree.specs.Raw as raw_tree;
ghost use Rattle.c_tree.specs.rules.Fields as rule;
ghost use Rattle.c_raw.specs.Views.{field_view, module_view};
ghost use Rattle.c_form.specs.FieldTypes.{HasFields, HasTypes, named};

use alg_laws::Ty;
use c_raw::field_names::field_name;
use c_raw::{RawField, RawModule};
use c_tree::{CCell, CField, Level};
use indexmap::IndexMap;
use std::alloc::Global;
use va_base::NoMemory;

/// The types of the fields of the two structs. Of two fields of one name the first counts.
#[derive(Drop)]
pub struct CellTypes {
    pub model: IndexMap<Vec<u8>, Ty>,
    pub instance: IndexMap<Vec<u8>, Ty>,
}

fn enter(table: &mut IndexMap<Vec<u8>, Ty>, name: Vec<u8>, ty: Ty) -> Result<(), NoMemory>
    ensures { OnOk result ((other : List ℕ) → named table.new other ≡ (if bytes_eq other name.items then Some ty else named table.old other)) }
{
    let _before = table.insert(name, ty)?;
    Ok(())
}

fn named_types(alloc: Global, list: &[RawField]) -> Result<IndexMap<Vec<u8>, Ty>, NoMemory>
    ensures { IfOk result (λ table. HasFields table (map field_view list.now)) }
{
    let mut table = IndexMap::new(alloc);
    let mut place = list.len();
    while place > 0 {
        place -= 1;
        let field = list[place];
        let name = field_name(alloc, field.field.value)?;
        enter(&mut table, name, field.ty)?;
    }
    Ok(table)
}

/// The types of the fields of a module.
pub fn cell_types(alloc: Global, tree: &RawModule) -> Result<CellTypes, NoMemory>
    ensures { IfOk result (λ types. HasTypes types (module_view tree.now)) }
{
    let model = named_types(alloc, tree.model_fields.as_list())?;
    let instance = named_types(alloc, tree.inst_fields.as_list())?;
    Ok(CellTypes { model, instance })
}

fn named_type(
    alloc: Global,
    table: &IndexMap<Vec<u8>, Ty>,
    field: CField,
) -> Result<Option<Ty>, NoMemory>
    ensures { IfOk result (λ ty. (fields : List raw_tree.RawField) → HasFields table.now fields → ty ≡ rule.type_among field fields) }
{
    let name = field_name(alloc, field)?;
    Ok(table.get(name.as_slice()).copied())
}

/// The type of a field of the instance, where it is there. Each instance has its temperature.
pub fn instance_type(
    alloc: Global,
    types: &CellTypes,
    field: CField,
) -> Result<Option<Ty>, NoMemory>
    ensures { IfOk result (λ ty. (m : raw_tree.RawModule) → HasTypes types.now m → ty ≡ rule.instance_type m field) }
{
    match field {
        CField::Temperature => Ok(Some(Ty::Real)),
        _ => named_type(alloc, &types.instance, field),
    }
}

/// The type of a cell, where it is there.
pub fn cell_type(alloc: Global, types: &CellTypes, cell: CCell) -> Result<Option<Ty>, NoMemory>
    ensures { IfOk result (λ ty. (m : raw_tree.RawModule) → HasTypes types.now m → ty ≡ rule.cell_type m cell) }
{
    match cell.level {
        Level::Model => named_type(alloc, &types.model, cell.field),
        Level::Instance => instance_type(alloc, types, cell.field),
    }
}
