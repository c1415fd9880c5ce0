//! Scopes in one another: what is seen in the innermost one, and what its declarations hid (Block statements).
ghost use Rattle.std.specs.Prelude.{◌≡◌, ◌∷◌, ◌++◌, ℕ, List, [], map, OnOk};
ghost use Rattle.va_sem.specs.Scopes.{Declared, counting, is_builtin as of_builtin};
ghost use Rattle.va_scopes.specs.Tables.{by_name};
ghost use Rattle.va_scopes.specs.Bindings.{seen_under, declared_by};
ghost use Rattle.va_scopes.specs.Seeing.{IsScope, innermost_first, undone};
ghost use Rattle.va_scopes.specs.Declaring.{in_front, all_in_front};

use crate::bindings::{Binding, Seen, is_builtin};
use crate::table::{Table, find, put, take_out};
use indexmap::IndexMap;
use std::alloc::Global;
use va_base::NoMemory;

/// What a declaration hid: what its name meant before, if it meant something.
#[derive(Clone, Copy, Drop)]
pub struct Hidden<'a> {
    pub name: &'a [u8],
    pub seen: Option<Seen>,
}

/// What the declarations of an open scope hid, in their order.
#[derive(Drop)]
pub struct Frame<'a> {
    pub hidden: Vec<Hidden<'a>>,
}

/// What is seen at a place of a text: the declarations of the innermost scope, and those around it that they don't hide.
#[derive(Drop)]
pub struct Scopes<'a> {
    pub table: Table<'a>,
    /// The innermost scope.
    pub frame: Frame<'a>,
    /// The scopes around it, the innermost last.
    pub outer: Vec<Frame<'a>>,
}

/// One scope, in which nothing is seen.
pub fn nothing_seen<'a>(alloc: Global) -> Scopes<'a>
    ensures { IsScope result [] [] }
{
    Scopes {
        table: IndexMap::new(alloc),
        frame: Frame {
            hidden: Vec::new(alloc),
        },
        outer: Vec::new(alloc),
    }
}

/// What is seen under a name.
pub fn seen(scopes: &Scopes, name: &[u8]) -> Option<Seen>
    ensures { (known : List Declared) (outer : List (List Declared)) → IsScope scopes.now known outer
        → result ≡ seen_under known name.now }
{
    find(&scopes.table, name)
}

/// Puts a binding before all others.
fn bind<'a>(scopes: &mut Scopes<'a>, binding: Binding<'a>) -> Result<(), NoMemory>
    ensures { OnOk result ((known : List Declared) (outer : List (List Declared)) → IsScope scopes.old known outer
        → IsScope scopes.new (declared_by binding.entry ∷ known) outer) }
{
    let before = put(&mut scopes.table, binding.name, binding.seen)?;
    scopes.frame.hidden.push(Hidden {
        name: binding.name,
        seen: before,
    })?;
    Ok(())
}

/// Puts a binding before all others, if its name may be declared.
fn declare<'a>(scopes: &mut Scopes<'a>, binding: Binding<'a>) -> Result<(), NoMemory>
    ensures { OnOk result ((known : List Declared) (outer : List (List Declared)) → IsScope scopes.old known outer
        → IsScope scopes.new (in_front (declared_by binding.entry) known) outer) }
{
    if !is_builtin(binding.name) {
        bind(scopes, binding)?;
    }
    Ok(())
}

/// Puts bindings before all others, the last first.
fn bind_all<'a>(scopes: &mut Scopes<'a>, bindings: Vec<Binding<'a>>) -> Result<(), NoMemory>
    ensures { OnOk result ((known : List Declared) (outer : List (List Declared)) → IsScope scopes.old known outer
        → IsScope scopes.new (all_in_front (map declared_by bindings.entry.items) known) outer) }
{
    let mut left = bindings;
    'declare: while let Some(last) = left.pop() {
        declare(scopes, last)?;
    }
    Ok(())
}

/// Declares names in the innermost scope. Of two of one name the first is the meaning, and the name of a built-in function
/// stays without one.
pub fn declare_all<'a>(scopes: &mut Scopes<'a>, bindings: Vec<Binding<'a>>) -> Result<(), NoMemory>
    ensures { OnOk result ((known : List Declared) (outer : List (List Declared)) → IsScope scopes.old known outer
        → IsScope scopes.new (counting (map declared_by bindings.entry.items) ++ known) outer) }
{
    bind_all(scopes, bindings)
}

/// Opens a scope in the innermost one.
pub fn open_scope(alloc: Global, scopes: &mut Scopes) -> Result<(), NoMemory>
    ensures { OnOk result ((known : List Declared) (outer : List (List Declared)) → IsScope scopes.old known outer
        → IsScope scopes.new known (known ∷ outer)) }
{
    let fresh = Frame {
        hidden: Vec::new(alloc),
    };
    let around = std::mem::replace(&mut scopes.frame, fresh);
    scopes.outer.push(around)?;
    Ok(())
}

/// Gives a name the meaning that it had before a declaration.
fn restore<'a>(table: &mut Table<'a>, hidden: Hidden<'a>) -> Result<(), NoMemory>
    ensures { OnOk result ((name : List ℕ) → by_name table.new name ≡ undone (by_name table.old) (hidden.entry ∷ []) name) }
{
    match hidden.seen {
        Some(seen) => {
            put(table, hidden.name, seen)?;
        }
        None => take_out(table, hidden.name),
    }
    Ok(())
}

fn restore_all<'a>(table: &mut Table<'a>, frame: Frame<'a>) -> Result<(), NoMemory>
    ensures { OnOk result ((name : List ℕ) →
        by_name table.new name ≡ undone (by_name table.old) (innermost_first frame.entry.hidden.items) name) }
{
    let mut hidden = frame.hidden;
    'undo: while let Some(last) = hidden.pop() {
        restore(table, last)?;
    }
    Ok(())
}

/// Closes the innermost scope, where there is one around it.
pub fn close_scope(scopes: &mut Scopes) -> Result<(), NoMemory>
    ensures { OnOk result ((known around : List Declared) (outer : List (List Declared)) → IsScope scopes.old known (around ∷ outer)
        → IsScope scopes.new around outer) }
{
    if let Some(around) = scopes.outer.pop() {
        let closed = std::mem::replace(&mut scopes.frame, around);
        restore_all(&mut scopes.table, closed)?;
    }
    Ok(())
}
