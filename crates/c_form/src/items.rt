//! Rules that blame tokens in the atoms and the statements of a body, whatever stands around them.
ghost use Rattle.std.specs.Prelude.{◌≡◌, ℕ, List, OnOk, map, true};
ghost use Rattle.std.specs.List.{flat_map};
ghost use Rattle.c_tree.specs.declared.body.CAtom.{CAtom as SpecAtom};
ghost use Rattle.c_tree.specs.Raw as raw_tree;
ghost use Rattle.c_tree.specs.rules.Bodies as bodies;
ghost use Rattle.c_raw.specs.Blocks.{at_view, simple_view};
ghost use Rattle.c_form.specs.Blames.{Blames};
ghost use Rattle.c_form.specs.Bodies.{body_view, in_statement, is_one_block};
ghost use Rattle.c_form.specs.Items as parts;

use crate::atoms::simple_atoms;
use crate::body::{Body, statements};
use c_raw::{At, RawSimple, RawStatement};
use c_tree::CAtom;
use std::alloc::Global;
use va_base::NoMemory;

/// A rule of form that blames tokens in each atom that a body reads and in each of its statements. A value of the type is what
/// the rule knows of the body.
pub trait ItemRule {
    /// What the rule is asked about: a module or a body.
    ghost subject: { Type 0 };

    /// The value knows what is needed of it.
    ghost knows: { Self → subject → Type 0 };

    /// The tokens that the rule blames in an atom.
    ghost in_atom: { subject → raw_tree.At SpecAtom → List ℕ };

    /// The tokens that it blames in a statement, beside its atoms.
    ghost in_simple: { subject → raw_tree.RawSimple → List ℕ };

    /// Blames these tokens in an atom. The error is want of memory.
    fn blame_atom(
        &self,
        alloc: Global,
        least: &mut Option<usize>,
        atom: At<CAtom>,
    ) -> Result<(), NoMemory>
        ensures { OnOk result ((p : subject) → knows self.now p
            → Blames least.old least.new (in_atom p (at_view atom))) };

    /// Blames these tokens in a statement. The error is want of memory.
    fn blame_simple(
        &self,
        alloc: Global,
        least: &mut Option<usize>,
        statement: &RawSimple,
    ) -> Result<(), NoMemory>
        ensures { OnOk result ((p : subject) → knows self.now p
            → Blames least.old least.new (in_simple p (simple_view statement.now))) };
}

fn all_atoms<R: ItemRule>(
    alloc: Global,
    least: &mut Option<usize>,
    rule: &R,
    list: &[At<CAtom>],
) -> Result<(), NoMemory>
    ensures { OnOk result ((p : R.subject) → R.knows rule.now p
        → Blames least.old least.new (flat_map (R.in_atom p) (map at_view list.now))) }
{
    for atom in list {
        rule.blame_atom(alloc, least, *atom)?;
    }
    Ok(())
}

fn simple<R: ItemRule>(
    alloc: Global,
    least: &mut Option<usize>,
    rule: &R,
    statement: &RawSimple,
) -> Result<(), NoMemory>
    ensures { OnOk result ((p : R.subject) → R.knows rule.now p
        → Blames least.old least.new (parts.in_item (R.in_atom p) (R.in_simple p) (bodies.of_simple (simple_view statement.now)))) }
{
    let atoms = simple_atoms(alloc, statement)?;
    all_atoms(alloc, least, rule, &atoms)?;
    rule.blame_simple(alloc, least, statement)?;
    Ok(())
}

fn statement_items<R: ItemRule>(
    alloc: Global,
    least: &mut Option<usize>,
    rule: &R,
    statement: &RawStatement,
) -> Result<(), NoMemory>
    ensures { OnOk result ((p : R.subject) → R.knows rule.now p
        → Blames least.old least.new (in_statement (parts.in_item (R.in_atom p) (R.in_simple p)) statement.now)) }
{
    match statement {
        RawStatement::Simple(inner) => simple(alloc, least, rule, inner)?,
        RawStatement::Leave { test, .. } => rule.blame_atom(alloc, least, *test)?,
        RawStatement::If { test } => rule.blame_atom(alloc, least, *test)?,
        RawStatement::For => {}
        RawStatement::End { .. } => {}
    }
    Ok(())
}

fn all_statements<R: ItemRule>(
    alloc: Global,
    least: &mut Option<usize>,
    rule: &R,
    list: &[RawStatement],
) -> Result<(), NoMemory>
    ensures { OnOk result ((p : R.subject) → R.knows rule.now p
        → Blames least.old least.new (flat_map (in_statement (parts.in_item (R.in_atom p) (R.in_simple p))) list.now)) }
{
    for statement in list {
        statement_items(alloc, least, rule, statement)?;
    }
    Ok(())
}

/// The value that a function returns.
fn returned<R: ItemRule>(
    alloc: Global,
    least: &mut Option<usize>,
    rule: &R,
    body: &Body,
) -> Result<(), NoMemory>
    ensures { OnOk result ((p : R.subject) → R.knows rule.now p
        → Blames least.old least.new
        (flat_map (parts.in_item (R.in_atom p) (R.in_simple p)) (bodies.RawBody.last (body_view body.now)))) }
{
    if let Body::Function(_, function) = *body {
        rule.blame_atom(alloc, least, function.value)?;
    }
    Ok(())
}

/// Blames what a rule blames in the statements of a body, in the tests of its `if` and `break`, and in the value that it returns.
/// The error is want of memory.
pub fn in_items<R: ItemRule>(
    alloc: Global,
    least: &mut Option<usize>,
    rule: &R,
    body: &Body,
) -> Result<(), NoMemory>
    requires { is_one_block body.now ≡ true }
    ensures { OnOk result ((p : R.subject) → R.knows rule.now p
        → Blames least.old least.new (parts.in_items (R.in_atom p) (R.in_simple p) (body_view body.now))) }
{
    all_statements(alloc, least, rule, statements(body))?;
    returned(alloc, least, rule, body)?;
    Ok(())
}
