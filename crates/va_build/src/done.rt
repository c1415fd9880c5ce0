//! Statements that are done, and taking those that a statement holds from the end of their list.
ghost use Rattle.std.specs.Prelude.{◌≡◌, ◌<◌, ◌≤◌, [], ◌∷◌, ◌++◌, IfOk, OnOk, None, Some, List, drop, length, take};
ghost use Rattle.va_build.specs.SourceStatements.{defaulted};
ghost use Rattle.va_build.specs.StatementHeads.{item_of, turn_of};
ghost use Rattle.va_tree.specs.declared.stmt.Stmt.{Stmt};

use crate::statement_heads::{Condition, Turn, with_body};
use sqlite_items::{Boxed, Items as Children};
use std::alloc::{AllocError, Global};
use std::mem::replace;
use va_base::Items;
use va_tree::{CaseDefault, CaseItem, Declaration, Expr, NameAt, Stmt};

/// The statement at the end of the list.
pub(crate) fn last(done: &mut Vec<Stmt>) -> Stmt
    requires { 0 < length done.old.items }
    ensures { done.old.items ≡ done.new.items ++ result ∷ [] }
{
    let Some(statement) = done.pop() else {
        unreachable!();
    };
    statement
}

/// Puts a head before the last statement.
pub(crate) fn close_turn(alloc: Global, done: &mut Vec<Stmt>, turn: Turn) -> Result<(), AllocError>
    requires { 0 < length done.old.items }
    ensures { OnOk result ((front : List Stmt) (body : Stmt) → done.old.items ≡ front ++ body ∷ [] → done.new.items ≡ front ++ turn_of turn body ∷ []) }
{
    let body = last(done);
    let value = with_body(alloc, turn, body)?;
    done.push(value)?;
    Ok(())
}

/// An `if` without `else`, whose statement is the last one.
pub(crate) fn close_if(
    alloc: Global,
    done: &mut Vec<Stmt>,
    test: Condition,
) -> Result<(), AllocError>
    requires { 0 < length done.old.items }
    ensures { OnOk result ((front : List Stmt) (body : Stmt) → done.old.items ≡ front ++ body ∷ [] → done.new.items ≡ front ++ Stmt.If test.at test.value body None ∷ []) }
{
    let body = last(done);
    let yes = Boxed::new(alloc, body)?;
    done.push(Stmt::If {
        at: test.at,
        test: test.value,
        yes,
        no: None,
    })?;
    Ok(())
}

/// An `if` with `else`, whose statements are the last two.
pub(crate) fn close_if_else(
    alloc: Global,
    done: &mut Vec<Stmt>,
    test: Condition,
) -> Result<(), AllocError>
    requires { 1 < length done.old.items }
    ensures { OnOk result ((front : List Stmt) (a b : Stmt) → done.old.items ≡ front ++ a ∷ b ∷ [] → done.new.items ≡ front ++ Stmt.If test.at test.value a (Some b) ∷ []) }
{
    let last_body = last(done);
    let no = Boxed::new(alloc, last_body)?;
    let body = last(done);
    let yes = Boxed::new(alloc, body)?;
    done.push(Stmt::If {
        at: test.at,
        test: test.value,
        yes,
        no: Some(no),
    })?;
    Ok(())
}

/// The statements from `start` on. Where these are all, nothing is copied.
fn from_place(alloc: Global, done: &mut Vec<Stmt>, start: usize) -> Result<Vec<Stmt>, AllocError>
    requires { start ≤ length done.old.items }
    ensures { IfOk result (λ body. (done.new.items ≡ take start done.old.items) × (body.items ≡ drop start done.old.items)) }
{
    if start == 0 {
        return Ok(replace(done, Vec::new(alloc)));
    }
    done.split_off(start)
}

/// A block, which holds the statements from `start` on.
pub(crate) fn close_block(
    alloc: Global,
    done: &mut Vec<Stmt>,
    start: usize,
    at: u32,
    label: Option<NameAt>,
    list: Vec<Declaration>,
) -> Result<(), AllocError>
    requires { start ≤ length done.old.items }
    ensures { OnOk result ((front body : List Stmt) → done.old.items ≡ front ++ body → start ≡ length front → done.new.items ≡ front ++ Stmt.Block at label list.items body ∷ []) }
{
    let body = from_place(alloc, done, start)?;
    done.push(Stmt::Block {
        at,
        label,
        declarations: Items::new(list),
        body: Children::from_vec(body),
    })?;
    Ok(())
}

/// An item of a `case`, whose statement is the last one.
pub(crate) fn close_item(
    done: &mut Vec<Stmt>,
    items: &mut Vec<CaseItem>,
    at: u32,
    values: Vec<Expr>,
) -> Result<(), AllocError>
    requires { 0 < length done.old.items }
    ensures { OnOk result ((front : List Stmt) (body : Stmt) → done.old.items ≡ front ++ body ∷ [] → (done.new.items ≡ front) × (items.new.items ≡ items.old.items ++ item_of at values.items body ∷ [])) }
{
    let body = last(done);
    items.push(CaseItem {
        at,
        values: Items::new(values),
        body,
    })?;
    Ok(())
}

/// A default of a `case`, whose statement is the last one.
pub(crate) fn close_default(
    done: &mut Vec<Stmt>,
    defaults: &mut Vec<CaseDefault>,
    at: u32,
) -> Result<(), AllocError>
    requires { 0 < length done.old.items }
    ensures { OnOk result ((front : List Stmt) (body : Stmt) → done.old.items ≡ front ++ body ∷ [] → (done.new.items ≡ front) × (defaults.new.items ≡ defaults.old.items ++ defaulted at body ∷ [])) }
{
    let body = last(done);
    defaults.push(CaseDefault { at, body })?;
    Ok(())
}

/// A `case` with these items and defaults.
pub(crate) fn close_case(
    done: &mut Vec<Stmt>,
    selector: Condition,
    items: Vec<CaseItem>,
    defaults: Vec<CaseDefault>,
) -> Result<(), AllocError>
    ensures { OnOk result (done.new.items ≡ done.old.items ++ Stmt.Case selector.at selector.value items.items defaults.items ∷ []) }
{
    done.push(Stmt::Case {
        at: selector.at,
        selector: selector.value,
        items: Children::from_vec(items),
        defaults: Children::from_vec(defaults),
    })?;
    Ok(())
}
