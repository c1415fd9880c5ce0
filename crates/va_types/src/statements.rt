//! The types and faults of the expressions of statements (Analog procedural block).
ghost use Rattle.std.specs.Prelude.{map, IfOk};
ghost use Rattle.va_tree.specs.Declarations.{declared, if_there, initialisers};
ghost use Rattle.va_tree.specs.Expressions.{expression_of};
ghost use Rattle.va_tree.specs.Statements.{statement_of, statements_of, items_of, defaults_of};
ghost use Rattle.va_sem.specs.LookedAt.{looked_at, looked_at_in_statements, looked_at_in_items, looked_at_in_defaults};
ghost use Rattle.va_sem.specs.Typing.{types_in, types_in_statements, types_in_items, types_in_defaults};
ghost use Rattle.va_types.specs.Statements.{Walks, WalksOver, WalksIn, types_in_item_of, looked_at_in_item_of, types_in_else, looked_at_in_else};

use crate::expressions::{read, skip_args};
use crate::found::Found;
use crate::table::Table;
use sqlite_items::Boxed;
use std::alloc::{AllocError, Global};
use va_tree::{CaseDefault, CaseItem, Declaration, Expr, Stmt, Variable};

/// Reads expressions one after another.
pub fn read_all(
    es: &[Expr],
    alloc: Global,
    table: &Table,
    found: &mut Found,
) -> Result<(), AllocError>
    ensures { IfOk result (λ done. WalksOver table.now (map expression_of es.now) found.old found.new) }
{
    for e in es {
        read_one(e, alloc, table, found)?;
    }
    Ok(())
}

/// Reads an expression whose type isn't asked for.
fn read_one(e: &Expr, alloc: Global, table: &Table, found: &mut Found) -> Result<(), AllocError>
    ensures { IfOk result (λ done. Walks table.now (types_in table.now (expression_of e.now)) (looked_at (expression_of e.now)) found.old found.new) }
{
    let _ty = read(e, alloc, table, found)?;
    Ok(())
}

fn read_initialiser(
    initialiser: &Option<Expr>,
    alloc: Global,
    table: &Table,
    found: &mut Found,
) -> Result<(), AllocError>
    ensures { IfOk result (λ done. WalksOver table.now (if_there initialiser.now) found.old found.new) }
{
    match initialiser {
        None => Ok(()),
        Some(e) => {
            read_one(e, alloc, table, found)?;
            Ok(())
        }
    }
}

/// Reads the initialisers of variables.
pub fn read_variables(
    variables: &[Variable],
    alloc: Global,
    table: &Table,
    found: &mut Found,
) -> Result<(), AllocError>
    ensures { IfOk result (λ done. WalksOver table.now (initialisers variables.now) found.old found.new) }
{
    for variable in variables {
        read_initialiser(&variable.initialiser, alloc, table, found)?;
    }
    Ok(())
}

/// Reads the initialisers of declarations.
pub fn read_declarations(
    declarations: &[Declaration],
    alloc: Global,
    table: &Table,
    found: &mut Found,
) -> Result<(), AllocError>
    ensures { IfOk result (λ done. WalksOver table.now (declared declarations.now) found.old found.new) }
{
    for declaration in declarations {
        read_variables(declaration.variables.as_list(), alloc, table, found)?;
    }
    Ok(())
}

/// Notes the faults of the expressions of a statement that are looked at, and adds the types of all its expressions.
#[cycle(visit)]
pub fn visit(s: &Stmt, alloc: Global, table: &Table, found: &mut Found) -> Result<(), AllocError>
    ensures { IfOk result (λ done. WalksIn table.now (statement_of s.now) found.old found.new) }
{
    match s {
        Stmt::Null { .. } => Ok(()),
        Stmt::Block {
            declarations,
            body,
            ..
        } => {
            read_declarations(declarations.as_list(), alloc, table, found)?;
            let done = visit_all(body.as_slice(), alloc, table, found)?;
            Ok(done)
        }
        Stmt::If { test, yes, no, .. } => {
            read_one(test, alloc, table, found)?;
            visit(yes.get(), alloc, table, found)?;
            let done = visit_else(no, alloc, table, found)?;
            Ok(done)
        }
        Stmt::Case {
            selector,
            items,
            defaults,
            ..
        } => {
            read_one(selector, alloc, table, found)?;
            visit_items(items.as_slice(), alloc, table, found)?;
            let done = visit_defaults(defaults.as_slice(), alloc, table, found)?;
            Ok(done)
        }
        Stmt::For {
            first,
            test,
            step,
            body,
            ..
        } => {
            read_one(&first.value, alloc, table, found)?;
            read_one(test, alloc, table, found)?;
            read_one(&step.value, alloc, table, found)?;
            let done = visit(body.get(), alloc, table, found)?;
            Ok(done)
        }
        Stmt::While { test, body, .. } => {
            read_one(test, alloc, table, found)?;
            let done = visit(body.get(), alloc, table, found)?;
            Ok(done)
        }
        Stmt::Repeat { count, body, .. } => {
            read_one(count, alloc, table, found)?;
            let done = visit(body.get(), alloc, table, found)?;
            Ok(done)
        }
        Stmt::Event { body, .. } => {
            let done = visit(body.get(), alloc, table, found)?;
            Ok(done)
        }
        Stmt::Assign { value, .. } => {
            let done = read_one(value, alloc, table, found)?;
            Ok(done)
        }
        Stmt::Contribute { value, .. } => {
            let done = read_one(value, alloc, table, found)?;
            Ok(done)
        }
        Stmt::Task { args, .. } => {
            let done = skip_args(args.as_list(), found)?;
            Ok(done)
        }
    }
}

#[cycle(visit)]
fn visit_else(
    no: &Option<Boxed<Stmt>>,
    alloc: Global,
    table: &Table,
    found: &mut Found,
) -> Result<(), AllocError>
    ensures { IfOk result (λ done. Walks table.now (types_in_else table.now no.now) (looked_at_in_else no.now) found.old found.new) }
{
    match no {
        None => Ok(()),
        Some(s) => {
            let done = visit(s.get(), alloc, table, found)?;
            Ok(done)
        }
    }
}

/// Visits the statements of a block.
#[cycle(visit)]
fn visit_all(
    body: &[Stmt],
    alloc: Global,
    table: &Table,
    found: &mut Found,
) -> Result<(), AllocError>
    ensures { IfOk result (λ done. Walks table.now (types_in_statements table.now (statements_of body.now)) (looked_at_in_statements (statements_of body.now)) found.old found.new) }
{
    for s in body {
        visit(s, alloc, table, found)?;
    }
    Ok(())
}

/// Visits the items of a `case`.
#[cycle(visit)]
fn visit_items(
    items: &[CaseItem],
    alloc: Global,
    table: &Table,
    found: &mut Found,
) -> Result<(), AllocError>
    ensures { IfOk result (λ done. Walks table.now (types_in_items table.now (items_of items.now)) (looked_at_in_items (items_of items.now)) found.old found.new) }
{
    for item in items {
        visit_item(item, alloc, table, found)?;
    }
    Ok(())
}

#[cycle(visit)]
fn visit_item(
    item: &CaseItem,
    alloc: Global,
    table: &Table,
    found: &mut Found,
) -> Result<(), AllocError>
    ensures { IfOk result (λ done. Walks table.now (types_in_item_of table.now item.now) (looked_at_in_item_of item.now) found.old found.new) }
{
    read_all(item.values.as_list(), alloc, table, found)?;
    let done = visit(&item.body, alloc, table, found)?;
    Ok(done)
}

#[cycle(visit)]
fn visit_defaults(
    defaults: &[CaseDefault],
    alloc: Global,
    table: &Table,
    found: &mut Found,
) -> Result<(), AllocError>
    ensures { IfOk result (λ done. Walks table.now (types_in_defaults table.now (defaults_of defaults.now)) (looked_at_in_defaults (defaults_of defaults.now)) found.old found.new) }
{
    for default in defaults {
        visit(&default.body, alloc, table, found)?;
    }
    Ok(())
}
