//! Rule 4 of form, settings: how often locals are set, and where.
ghost use Rattle.std.specs.Prelude.{◌≡◌, IfOk, OnOk, true};
ghost use Rattle.c_tree.specs.Form.{least_of};
ghost use Rattle.c_tree.specs.rules.Bodies as bodies;
ghost use Rattle.c_tree.specs.rules.Settings.{set_as_declared, settings_in};
ghost use Rattle.c_raw.specs.Blocks.{block_view, is_body};
ghost use Rattle.c_raw.specs.Views.{file_view, has_bodies};
ghost use Rattle.c_form.specs.Blames.{Blames};
ghost use Rattle.c_form.specs.Bodies.{body_view, is_one_block};
ghost use Rattle.c_form_settings.specs.Passes.{IsPass, Steps};

use crate::pass::{Pass, close, leave, no_locals, open_choice, open_loop};
use crate::simple::{read, simple};
use c_form::body::{Body, statements};
use c_form::walk::{BodyRule, in_bodies};
use c_raw::{RawFile, RawModule, RawStatement};
use std::alloc::Global;
use va_base::NoMemory;

/// Goes behind a statement.
fn step(
    alloc: Global,
    pass: &mut Pass,
    least: &mut Option<usize>,
    statement: &RawStatement,
) -> Result<(), NoMemory>
    ensures { OnOk result (IsPass pass.old → Steps least.old least.new pass.old pass.new statement.now) }
{
    match statement {
        RawStatement::Simple(inner) => simple(alloc, pass, least, inner)?,
        RawStatement::Leave { test, .. } => {
            read(pass, least, *test);
            leave(alloc, pass)?;
        }
        RawStatement::If { test } => {
            read(pass, least, *test);
            open_choice(alloc, pass)?;
        }
        RawStatement::For => open_loop(alloc, pass)?,
        RawStatement::End { at } => close(pass, least, *at as usize)?,
    }
    Ok(())
}

fn block(alloc: Global, least: &mut Option<usize>, list: &[RawStatement]) -> Result<(), NoMemory>
    requires { is_body list.now ≡ true }
    ensures { OnOk result (Blames least.old least.new (settings_in (block_view list.now))) }
{
    let mut pass = no_locals(alloc);
    for statement in list {
        step(alloc, &mut pass, least, statement)?;
    }
    Ok(())
}

fn one_body(alloc: Global, least: &mut Option<usize>, body: &Body) -> Result<(), NoMemory>
    requires { is_one_block body.now ≡ true }
    ensures { OnOk result (Blames least.old least.new (settings_in (bodies.RawBody.block (body_view body.now)))) }
{
    block(alloc, least, statements(body))?;
    Ok(())
}

/// The rule, as it is asked of each body.
struct Settings;

impl BodyRule for Settings {
    ghost blamed = { λ m b. settings_in (bodies.RawBody.block b) };

    fn blame_body(
        alloc: Global,
        least: &mut Option<usize>,
        _tree: &RawModule,
        body: &Body,
    ) -> Result<(), NoMemory> {
        one_body(alloc, least, body)
    }
}

/// The least token at which a local is set that is not to be set there, or is read before the `if` that sets it, or the closing
/// brace of a block that lacks a setting. None where each local is set as its declaration says.
///
/// A constant is never set again. A local that is declared without a value is set once in the direct block of each arm of the
/// next `if` with two arms of its block, and read only behind that `if`. One that is declared with a value and isn't constant is
/// set once in the direct block of the next `for` of its block, behind the `break`. Where that `if` or `for` is missing, the
/// closing brace of the block of the declaration is blamed. Of a number that is declared more than once in a body the first
/// declaration counts.
pub fn settings_fault(alloc: Global, raw: &RawFile) -> Result<Option<usize>, NoMemory>
    requires { has_bodies raw.now ≡ true }
    ensures { IfOk result (λ least. least ≡ least_of (set_as_declared (file_view raw.now))) }
{
    let mut least = None;
    in_bodies::<Settings>(alloc, &mut least, raw)?;
    Ok(least)
}
