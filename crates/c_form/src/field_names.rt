//! No struct has two fields of one name.
ghost use Rattle.std.specs.Prelude.{◌≡◌, ◌||◌, ℕ, List, IfOk, OnOk, map};
ghost use Rattle.std.specs.Option.{is_some};
ghost use Rattle.std.specs.Str.{bytes_eq};
ghost use Rattle.c_tree.specs.declared.body.CField.{CField as SpecField};
ghost use Rattle.c_tree.specs.Text.{field_word};
ghost use Rattle.c_tree.specs.rules.Fields as rule;
ghost use Rattle.c_raw.specs.Views.{field_view};
ghost use Rattle.c_form.specs.Blames.{Blames};
ghost use Rattle.c_form.specs.FieldTypes.{named};

use crate::blame::blame_unless;
use alg_laws::Ty;
use c_raw::RawField;
use c_raw::field_names::field_name;
use c_tree::CField;
use indexmap::IndexMap;
use std::alloc::Global;
use va_base::NoMemory;

/// Enters a name, and tells whether it was there.
fn enter_name(seen: &mut IndexMap<Vec<u8>, Ty>, name: Vec<u8>, ty: Ty) -> Result<bool, NoMemory>
    ensures before { IfOk result (λ before. before ≡ is_some (named seen.old name.items)) }
    ensures after { OnOk result ((other : List ℕ) → is_some (named seen.new other) ≡ (bytes_eq other name.items || is_some (named seen.old other))) }
{
    let before = seen.insert(name, ty)?;
    Ok(before.is_some())
}

/// Enters the name of a field, and tells whether it was there.
fn enter_field(
    alloc: Global,
    seen: &mut IndexMap<Vec<u8>, Ty>,
    field: CField,
    ty: Ty,
) -> Result<bool, NoMemory>
    ensures before { IfOk result (λ before. before ≡ is_some (named seen.old (field_word field))) }
    ensures after { OnOk result ((other : SpecField)
        → is_some (named seen.new (field_word other)) ≡ (rule.same_field field other || is_some (named seen.old (field_word other)))) }
{
    let name = field_name(alloc, field)?;
    let before = enter_name(seen, name, ty)?;
    Ok(before)
}

/// Blames each field that has the name of an earlier one of its struct.
pub fn twice(alloc: Global, least: &mut Option<usize>, list: &[RawField]) -> Result<(), NoMemory>
    ensures { OnOk result (Blames least.old least.new (rule.twice (map field_view list.now))) }
{
    let mut seen: IndexMap<Vec<u8>, Ty> = IndexMap::new(alloc);
    for field in list {
        let before = enter_field(alloc, &mut seen, field.field.value, field.ty)?;
        blame_unless(least, !before, field.field.at as usize);
    }
    Ok(())
}
