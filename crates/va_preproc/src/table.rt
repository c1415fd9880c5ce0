//! The table of macros.
ghost use Rattle.std.specs.Prelude.{◌≡◌, OnOk, List, Some, None};
ghost use Rattle.va_preproc.specs.Types as types;
ghost use Rattle.va_preproc.specs.Expansion.{with_macro};
ghost use Rattle.va_preproc.specs.Values.{macro_in, macro_seen, macros_in};

use crate::known::{FormalNames, Macro, MacroTable};
use std::alloc::Global;
use va_base::{NoMemory, Token};

/// A name means this macro from now on.
fn insert(macros: &mut MacroTable, name: Vec<u8>, definition: Macro) -> Result<(), NoMemory>
    ensures { OnOk result ((files : List types.FileText) →
        macros_in files macros.new ≡ with_macro name.items (Some (macro_in files definition)) (macros_in files macros.old)) }
{
    let _before = macros.insert(name, definition)?;
    Ok(())
}

/// A name means a macro of these formals, where it has a list of them, and of this body from now on.
pub fn define(
    alloc: Global,
    macros: &mut MacroTable,
    name: &[u8],
    formals: Option<FormalNames>,
    body: &[Token],
) -> Result<(), NoMemory>
    ensures { OnOk result ((files : List types.FileText) →
        macros_in files macros.new ≡ with_macro name.now (Some (macro_seen files formals body.now)) (macros_in files macros.old)) }
{
    let key = name.to_vec(alloc)?;
    let body = body.to_vec(alloc)?;
    insert(macros, key, Macro { formals, body })
}

/// A name means no macro from now on.
pub fn undefine(macros: &mut MacroTable, name: &[u8])
    ensures { (files : List types.FileText) → macros_in files macros.new ≡ with_macro name.now None (macros_in files macros.old) }
{
    let _before = macros.swap_remove(name);
}
