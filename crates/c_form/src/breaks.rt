//! Rule 5 of form, breaks: `if ( ! .. ) { break ; }` stands exactly once in the direct block of each `for`, and nowhere else.
ghost use Rattle.std.specs.Prelude.{◌≡◌, ◌∷◌, ℕ, List, Option, IfOk, OnOk, true, false};
ghost use Rattle.c_tree.specs.Form.{least_of};
ghost use Rattle.c_tree.specs.rules.Bodies as bodies;
ghost use Rattle.c_tree.specs.rules.Breaks.{breaks_in, one_break_a_loop};
ghost use Rattle.c_raw.specs.Blocks.{block_view, is_body};
ghost use Rattle.c_raw.specs.Views.{file_view, has_bodies};
ghost use Rattle.c_raw.specs.declared.body.RawStatement.{RawStatement as SpecStatement};
ghost use Rattle.c_form.specs.Blames.{Blames};
ghost use Rattle.c_form.specs.Bodies.{body_view, is_one_block};
ghost use Rattle.c_form.specs.OpenBlocks.{breaks_flat, innermost_first};

use crate::blame::blame_unless;
use crate::body::{Body, statements};
use crate::walk::{BodyRule, in_bodies};
use c_raw::{RawFile, RawModule, RawStatement};
use std::alloc::{AllocError, Global};
use va_base::NoMemory;

/// The blocks of an `if`, in neither of which one is wanted.
fn open_choice(blocks: &mut Vec<bool>, wanted: bool) -> Result<(), AllocError>
    ensures { OnOk result (innermost_first blocks.new.items ≡ false ∷ false ∷ wanted ∷ innermost_first blocks.old.items) }
{
    blocks.push(wanted)?;
    blocks.push(false)?;
    blocks.push(false)?;
    Ok(())
}

/// The block of a `for`, in which one is wanted.
fn open_loop(blocks: &mut Vec<bool>, wanted: bool) -> Result<(), AllocError>
    ensures { OnOk result (innermost_first blocks.new.items ≡ true ∷ wanted ∷ innermost_first blocks.old.items) }
{
    blocks.push(wanted)?;
    blocks.push(true)?;
    Ok(())
}

/// The block goes on.
fn go_on(blocks: &mut Vec<bool>, wanted: bool) -> Result<(), AllocError>
    ensures { OnOk result (innermost_first blocks.new.items ≡ wanted ∷ innermost_first blocks.old.items) }
{
    blocks.push(wanted)?;
    Ok(())
}

/// Reads a statement in the innermost of the open blocks, each of which tells whether a `break` is still wanted in it.
fn step(
    least: &mut Option<usize>,
    blocks: &mut Vec<bool>,
    statement: &RawStatement,
) -> Result<(), AllocError>
    ensures { OnOk result ((new : Option ℕ) (rest : List SpecStatement)
        → Blames least.new new (breaks_flat (innermost_first blocks.new.items) rest)
        → Blames least.old new (breaks_flat (innermost_first blocks.old.items) (statement.now ∷ rest))) }
{
    let Some(wanted) = blocks.pop() else {
        return Ok(());
    };
    match statement {
        RawStatement::Simple(_) => {
            go_on(blocks, wanted)?;
            Ok(())
        }
        RawStatement::Leave { at, .. } => {
            blame_unless(least, wanted, *at as usize);
            go_on(blocks, false)?;
            Ok(())
        }
        RawStatement::If { .. } => {
            open_choice(blocks, wanted)?;
            Ok(())
        }
        RawStatement::For => {
            open_loop(blocks, wanted)?;
            Ok(())
        }
        RawStatement::End { at } => {
            blame_unless(least, !wanted, *at as usize);
            Ok(())
        }
    }
}

fn block(alloc: Global, least: &mut Option<usize>, list: &[RawStatement]) -> Result<(), AllocError>
    requires { is_body list.now ≡ true }
    ensures { OnOk result (Blames least.old least.new (breaks_in false (block_view list.now))) }
{
    let mut blocks = Vec::new(alloc);
    blocks.push(false)?;
    for statement in list {
        step(least, &mut blocks, statement)?;
    }
    Ok(())
}

fn one_body(alloc: Global, least: &mut Option<usize>, body: &Body) -> Result<(), NoMemory>
    requires { is_one_block body.now ≡ true }
    ensures { OnOk result (Blames least.old least.new (breaks_in false (bodies.RawBody.block (body_view body.now)))) }
{
    block(alloc, least, statements(body))?;
    Ok(())
}

/// The rule, as it is asked of each body.
struct Breaks;

impl BodyRule for Breaks {
    ghost blamed = { λ m b. breaks_in false (bodies.RawBody.block b) };

    fn blame_body(
        alloc: Global,
        least: &mut Option<usize>,
        _tree: &RawModule,
        body: &Body,
    ) -> Result<(), NoMemory> {
        one_body(alloc, least, body)
    }
}

/// The least token at which a `break` stands too often or outside the direct block of a `for`, or the closing brace of a `for`
/// that lacks one. None where each `for` has one, and nothing else has.
pub fn breaks_fault(alloc: Global, raw: &RawFile) -> Result<Option<usize>, NoMemory>
    requires { has_bodies raw.now ≡ true }
    ensures { IfOk result (λ least. least ≡ least_of (one_break_a_loop (file_view raw.now))) }
{
    let mut least = None;
    in_bodies::<Breaks>(alloc, &mut least, raw)?;
    Ok(least)
}
