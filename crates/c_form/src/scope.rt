//! The locals that are known at a place of a body, with their types.
ghost use Rattle.std.specs.Prelude.{◌≡◌, ◌∷◌, ◌++◌, ℕ, List, [], Option, OnOk, nat_eq};
ghost use Rattle.indexmap.specs.IndexMap.{get};
ghost use Rattle.c_tree.specs.rules.Bodies.{Declared, declares};
ghost use Rattle.c_tree.specs.rules.Types.{type_of_local};
ghost use Rattle.c_raw.specs.Blocks.{simple_view};
ghost use Rattle.c_form.specs.OpenBlocks.{innermost_first};
ghost use Rattle.c_form.specs.Scopes.{IsKnown, IsScope, known_after, known_behind, outer_after, outer_behind, undone};

use alg_laws::Ty;
use c_raw::{RawSimple, RawStatement};
use indexmap::IndexMap;
use std::alloc::Global;
use va_base::NoMemory;

/// What a declaration hid: the type that its number had before, if it had one.
#[derive(Clone, Copy, Drop)]
pub struct Hidden {
    pub number: u32,
    pub ty: Option<Ty>,
}

/// What the declarations in an open block hid, in their order.
#[derive(Drop)]
pub struct Frame {
    pub hidden: Vec<Hidden>,
}

/// The locals that are known at a place of a body: those of its block and of the blocks around it.
#[derive(Drop)]
pub struct Scope {
    pub types: IndexMap<u32, Ty>,
    /// The innermost block.
    pub frame: Frame,
    /// The blocks around it, the innermost last.
    pub outer: Vec<Frame>,
}

/// The begin of a body, where no local is known.
pub fn no_locals(alloc: Global) -> Scope
    ensures { IsScope result [] [] }
{
    Scope {
        types: IndexMap::new(alloc),
        frame: Frame {
            hidden: Vec::new(alloc),
        },
        outer: Vec::new(alloc),
    }
}

/// The type of a local, where it is known.
pub fn local_type(scope: &Scope, number: u32) -> Option<Ty>
    ensures { (known : List Declared) → IsKnown (get nat_eq scope.now.types) known → result ≡ type_of_local number known }
{
    scope.types.get(&number).copied()
}

/// Declares a local in the innermost block.
fn declare(scope: &mut Scope, number: u32, ty: Ty) -> Result<(), NoMemory>
    ensures { OnOk result ((known : List Declared) (outer : List (List Declared)) → IsScope scope.old known outer
        → IsScope scope.new (record { number = number; ty = ty } ∷ known) outer) }
{
    let hid = scope.types.insert(number, ty)?;
    scope.frame.hidden.push(Hidden { number, ty: hid })?;
    Ok(())
}

fn declare_of(scope: &mut Scope, statement: &RawSimple) -> Result<(), NoMemory>
    ensures { OnOk result ((known : List Declared) (outer : List (List Declared)) → IsScope scope.old known outer
        → IsScope scope.new (declares (simple_view statement.now) ++ known) outer) }
{
    match statement {
        RawSimple::Constant { ty, local, .. } => declare(scope, local.value, *ty)?,
        RawSimple::Join { ty, local } => declare(scope, local.value, *ty)?,
        RawSimple::Head { ty, local, .. } => declare(scope, local.value, *ty)?,
        _ => {}
    }
    Ok(())
}

/// Opens a block in the innermost one.
fn open_block(alloc: Global, scope: &mut Scope) -> Result<(), NoMemory>
    ensures { OnOk result ((known : List Declared) (outer : List (List Declared)) → IsScope scope.old known outer
        → IsScope scope.new known (known ∷ outer)) }
{
    let fresh = Frame {
        hidden: Vec::new(alloc),
    };
    let around = std::mem::replace(&mut scope.frame, fresh);
    scope.outer.push(around)?;
    Ok(())
}

/// Gives a number the type that it had before a declaration.
fn restore(types: &mut IndexMap<u32, Ty>, hidden: Hidden) -> Result<(), NoMemory>
    ensures { OnOk result ((i : ℕ) → get nat_eq types.new i ≡ undone (get nat_eq types.old) (hidden ∷ []) i) }
{
    match hidden.ty {
        Some(ty) => {
            types.insert(hidden.number, ty)?;
        }
        None => {
            types.swap_remove(&hidden.number);
        }
    }
    Ok(())
}

fn restore_all(types: &mut IndexMap<u32, Ty>, frame: Frame) -> Result<(), NoMemory>
    ensures { OnOk result ((i : ℕ) → get nat_eq types.new i ≡ undone (get nat_eq types.old) (innermost_first frame.hidden.items) i) }
{
    let mut hidden = frame.hidden;
    'undo: while let Some(last) = hidden.pop() {
        restore(types, last)?;
    }
    Ok(())
}

/// Closes the innermost block. The block of the body stays.
fn close_block(scope: &mut Scope) -> Result<(), NoMemory>
    ensures { OnOk result ((known : List Declared) (outer : List (List Declared)) → IsScope scope.old known outer
        → IsScope scope.new (known_behind known outer) (outer_behind outer)) }
{
    if let Some(around) = scope.outer.pop() {
        let closed = std::mem::replace(&mut scope.frame, around);
        restore_all(&mut scope.types, closed)?;
    }
    Ok(())
}

/// Goes behind a statement.
pub fn go_behind(alloc: Global, scope: &mut Scope, statement: &RawStatement) -> Result<(), NoMemory>
    ensures { OnOk result ((known : List Declared) (outer : List (List Declared)) → IsScope scope.old known outer
        → IsScope scope.new (known_after statement.now known outer) (outer_after statement.now known outer)) }
{
    match statement {
        RawStatement::Simple(inner) => declare_of(scope, inner)?,
        RawStatement::Leave { .. } => {}
        RawStatement::If { .. } => {
            open_block(alloc, scope)?;
            open_block(alloc, scope)?;
        }
        RawStatement::For => open_block(alloc, scope)?,
        RawStatement::End { .. } => close_block(scope)?,
    }
    Ok(())
}
