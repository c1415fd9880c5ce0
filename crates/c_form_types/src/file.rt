//! Rule 6 of form, types, asked of a text.
ghost use Rattle.std.specs.Prelude.{◌≡◌, IfOk, OnOk, map, true};
ghost use Rattle.std.specs.List.{flat_map, list_all};
ghost use Rattle.c_tree.specs.Form.{least_of};
ghost use Rattle.c_tree.specs.rules.Types.{types_agree};
ghost use Rattle.c_raw.specs.Views.{file_view, has_bodies, module_has_bodies, module_view};
ghost use Rattle.c_form.specs.Blames.{Blames};
ghost use Rattle.c_form_types.specs.Places.{module_blamed};

use crate::bodies::all_bodies;
use c_form::body::bodies_of;
use c_form::cell_types::cell_types;
use c_raw::{RawFile, RawModule};
use std::alloc::Global;
use va_base::NoMemory;

fn one_module(alloc: Global, least: &mut Option<usize>, tree: &RawModule) -> Result<(), NoMemory>
    requires { module_has_bodies tree.now ≡ true }
    ensures { OnOk result (Blames least.old least.new (module_blamed (module_view tree.now))) }
{
    let cells = cell_types(alloc, tree)?;
    let list = bodies_of(alloc, tree)?;
    all_bodies(alloc, least, tree, &cells, &list)?;
    Ok(())
}

fn modules(alloc: Global, least: &mut Option<usize>, list: &[RawModule]) -> Result<(), NoMemory>
    requires { list_all module_has_bodies list.now ≡ true }
    ensures { OnOk result (Blames least.old least.new (flat_map module_blamed (map module_view list.now))) }
{
    for tree in list {
        one_module(alloc, least, tree)?;
    }
    Ok(())
}

/// The least token at which a type is not the one that is wanted there: at the second of two operands of different types, at an
/// operand of `%`, `!` or a cast, at an argument of a call, at a test, at a value that is set or returned, or at a right side. What
/// names a local, an argument, a field or a function that isn't there has no type, and is not blamed here. None where the types
/// agree. The error is want of memory.
pub fn types_fault(alloc: Global, raw: &RawFile) -> Result<Option<usize>, NoMemory>
    requires { has_bodies raw.now ≡ true }
    ensures { IfOk result (λ least. least ≡ least_of (types_agree (file_view raw.now))) }
{
    let mut least = None;
    modules(alloc, &mut least, raw.modules.as_list())?;
    Ok(least)
}
