//! Second declarations in one scope.
ghost use Rattle.std.specs.Prelude.{[], map, OnOk};
ghost use Rattle.va_base.specs.declared.fault.FaultCode.TheVariants.{TwiceDeclared};
ghost use Rattle.va_sem.specs.NamesFaults.{all_at, declaration_faults};
ghost use Rattle.va_sem.specs.Scopes.{repeated};
ghost use Rattle.va_scopes.specs.Bindings.{name_at};
ghost use Rattle.va_scopes.specs.Finds.{Finds, of_builtins};

use crate::bindings::{Binding, is_builtin};
use crate::least::{FaultAt, note_if};
use crate::table::{Table, put};
use indexmap::IndexMap;
use std::alloc::Global;
use va_base::{FaultCode, NoMemory};

/// Finds the names that stand before in their list.
fn find_repeated(
    alloc: Global,
    least: &mut Option<FaultAt>,
    names: &[Binding],
) -> Result<(), NoMemory>
    ensures { OnOk result (Finds least.old least.new (all_at TwiceDeclared (repeated [] (map name_at names.now)))) }
{
    let mut before: Table = IndexMap::new(alloc);
    for binding in names {
        let earlier = put(&mut before, binding.name, binding.seen)?;
        note_if(
            least,
            earlier.is_some(),
            binding.seen.at,
            FaultCode::TwiceDeclared,
        );
    }
    Ok(())
}

/// Finds the names of built-in functions.
fn find_builtins(least: &mut Option<FaultAt>, names: &[Binding])
    ensures { Finds least.old least.new (of_builtins (map name_at names.now)) }
{
    for binding in names {
        let builtin = is_builtin(binding.name);
        note_if(least, builtin, binding.seen.at, FaultCode::TwiceDeclared);
    }
}

/// Finds the second declarations of names in one scope, and the declarations of names of built-in functions, which can't be
/// declared (`TwiceDeclared`).
pub fn find_twice_declared(
    alloc: Global,
    least: &mut Option<FaultAt>,
    names: &[Binding],
) -> Result<(), NoMemory>
    ensures { OnOk result (Finds least.old least.new (declaration_faults (map name_at names.now))) }
{
    find_repeated(alloc, least, names)?;
    find_builtins(least, names);
    Ok(())
}
