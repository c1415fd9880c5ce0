//! The scope of a block: its variables, before what is seen around it (Block statements).
ghost use Rattle.std.specs.Prelude.{◌≡◌, ◌∷◌, ◌++◌, List, map, IfOk, OnOk};
ghost use Rattle.va_sem.specs.NamesFaults.{declaration_faults};
ghost use Rattle.va_sem.specs.Scopes.{Declared, block_names, block_scope, name_of};
ghost use Rattle.va_scopes.specs.Bindings.{declared_by};
ghost use Rattle.va_scopes.specs.Blocks.{declared_by_variable, names_of_block, block_with};
ghost use Rattle.va_scopes.specs.Finds.{Finds};
ghost use Rattle.va_scopes.specs.Seeing.{IsScope};

use crate::bindings::{Binding, Kind, Seen};
use crate::least::FaultAt;
use crate::scopes::{Scopes, declare_all, open_scope};
use crate::twice::find_twice_declared;
use std::alloc::Global;
use va_base::NoMemory;
use va_tree::{Declaration, Variable};

/// The binding of a variable.
fn variable_binding(v: &Variable) -> Binding<'_>
    ensures { declared_by result ≡ declared_by_variable v.now }
{
    Binding {
        name: v.name.name.as_bytes(),
        seen: Seen {
            at: v.name.at,
            kind: Kind::Variable,
        },
    }
}

/// Adds the variables of a declaration.
fn add_variables<'a>(
    bindings: &mut Vec<Binding<'a>>,
    variables: &'a [Variable],
) -> Result<(), NoMemory>
    ensures { OnOk result (map declared_by bindings.new.items ≡ map declared_by bindings.old.items ++ map declared_by_variable variables.now) }
{
    for v in variables {
        bindings.push(variable_binding(v))?;
    }
    Ok(())
}

/// The variables of a block, in the order of the text.
pub fn block_bindings<'a>(
    alloc: Global,
    declarations: &'a [Declaration],
) -> Result<Vec<Binding<'a>>, NoMemory>
    ensures { IfOk result (λ bindings. map declared_by bindings.items ≡ names_of_block declarations.now) }
{
    let mut bindings = Vec::new(alloc);
    for declaration in declarations {
        add_variables(&mut bindings, declaration.variables.as_list())?;
    }
    Ok(bindings)
}

/// Opens the scope of a block with these declarations in the innermost scope, and finds its second declarations.
pub fn open_block<'a>(
    alloc: Global,
    scopes: &mut Scopes<'a>,
    least: &mut Option<FaultAt>,
    declarations: &'a [Declaration],
) -> Result<(), NoMemory>
    ensures scope { OnOk result ((known : List Declared) (outer : List (List Declared)) → IsScope scopes.old known outer
        → IsScope scopes.new (block_scope known (block_with declarations.now)) (known ∷ outer)) }
    ensures faults { OnOk result (Finds least.old least.new (declaration_faults (map name_of (block_names (block_with declarations.now))))) }
{
    let bindings = block_bindings(alloc, declarations)?;
    find_twice_declared(alloc, least, bindings.as_slice())?;
    open_scope(alloc, scopes)?;
    declare_all(scopes, bindings)
}
