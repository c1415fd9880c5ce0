//! Each local and each argument is declared once in its function.
ghost use Rattle.std.specs.Prelude.{◌≡◌, ◌++◌, IfOk, OnOk, map, true};
ghost use Rattle.std.specs.List.{flat_map};
ghost use Rattle.c_tree.specs.Raw as raw_tree;
ghost use Rattle.c_tree.specs.rules.Bodies as bodies;
ghost use Rattle.c_tree.specs.rules.Locals as rule;
ghost use Rattle.c_raw.specs.Blocks.{at_view, simple_view};
ghost use Rattle.c_form.specs.Blames.{Blames};
ghost use Rattle.c_form.specs.Bodies.{body_view, in_statement, is_one_block};
ghost use Rattle.c_form.specs.Uses.{listed};

use crate::again::repeated;
use crate::arguments::{argument_numbers, arguments};
use crate::body::{Body, statements};
use c_raw::{At, RawSimple, RawStatement};
use std::alloc::Global;
use va_base::NoMemory;

/// The local that a statement declares.
fn declared(statement: &RawSimple) -> Option<At<u32>>
    ensures { listed result ≡ rule.declared (simple_view statement.now) }
{
    match statement {
        RawSimple::Constant { local, .. } => Some(*local),
        RawSimple::Join { local, .. } => Some(*local),
        RawSimple::Head { local, .. } => Some(*local),
        _ => None,
    }
}

fn push_some(numbers: &mut Vec<At<u32>>, number: Option<At<u32>>) -> Result<(), NoMemory>
    ensures { OnOk result (map at_view numbers.new.items ≡ map at_view numbers.old.items ++ listed number) }
{
    if let Some(found) = number {
        numbers.push(found)?;
    }
    Ok(())
}

fn push_declared(numbers: &mut Vec<At<u32>>, statement: &RawStatement) -> Result<(), NoMemory>
    ensures { OnOk result (map at_view numbers.new.items
        ≡ map at_view numbers.old.items ++ in_statement (bodies.of_statement rule.declared) statement.now) }
{
    if let RawStatement::Simple(inner) = statement {
        push_some(numbers, declared(inner))?;
    }
    Ok(())
}

/// The locals that a body declares, in the order of the text.
fn declared_locals(alloc: Global, list: &[RawStatement]) -> Result<Vec<At<u32>>, NoMemory>
    ensures { IfOk result (λ numbers. map at_view numbers.items ≡ flat_map (in_statement (bodies.of_statement rule.declared)) list.now) }
{
    let mut numbers = Vec::new(alloc);
    for statement in list {
        push_declared(&mut numbers, statement)?;
    }
    Ok(numbers)
}

/// Blames each local that is declared again.
pub fn locals_again(alloc: Global, least: &mut Option<usize>, body: &Body) -> Result<(), NoMemory>
    requires { is_one_block body.now ≡ true }
    ensures { OnOk result (Blames least.old least.new
        (bodies.repeated (flat_map (bodies.of_statement rule.declared) (bodies.items_in (bodies.RawBody.block (body_view body.now)))))) }
{
    let numbers = declared_locals(alloc, statements(body))?;
    repeated(alloc, least, &numbers)?;
    Ok(())
}

/// Blames each argument that is declared again.
pub fn arguments_again(
    alloc: Global,
    least: &mut Option<usize>,
    body: &Body,
) -> Result<(), NoMemory>
    ensures { OnOk result (Blames least.old least.new
        (bodies.repeated (map (λ argument. raw_tree.RawArgument.number argument) (bodies.RawBody.arguments (body_view body.now))))) }
{
    let numbers = argument_numbers(alloc, arguments(body))?;
    repeated(alloc, least, &numbers)?;
    Ok(())
}
