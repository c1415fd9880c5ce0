//! Rule 3 of form, locals: a local or an argument that is used is declared before, in its block or an enclosing one, and each is
//! declared once in its function.
ghost use Rattle.std.specs.Prelude.{◌≡◌, [], IfOk, OnOk, map, nat_eq, true};
ghost use Rattle.std.specs.List.{flat_map};
ghost use Rattle.indexmap.specs.IndexMap.{get};
ghost use Rattle.c_tree.specs.Form.{least_of};
ghost use Rattle.c_tree.specs.Raw as raw_tree;
ghost use Rattle.c_tree.specs.rules.Bodies as bodies;
ghost use Rattle.c_tree.specs.rules.Locals.{locals_declared, locals_in_body, unless_among, used_locals};
ghost use Rattle.c_raw.specs.Blocks.{at_view, simple_view};
ghost use Rattle.c_raw.specs.Views.{file_view, has_bodies};
ghost use Rattle.c_form.specs.Blames.{Blames};
ghost use Rattle.c_form.specs.Bodies.{body_view, is_one_block};
ghost use Rattle.c_form.specs.Scopes.{BlamesInScope, IsKnown, in_scope, known_at_end, walked};
ghost use Rattle.c_form.specs.Uses.{local_used, numbers_of, value_used};

use crate::argument_uses::body_arguments;
use crate::atoms::simple_atoms;
use crate::blame::blame_unless;
use crate::body::{Body, statements};
use crate::declarations::{arguments_again, locals_again};
use crate::scope::{Scope, go_behind, local_type, no_locals};
use crate::walk::{BodyRule, in_bodies};
use c_raw::{At, RawFile, RawModule, RawSimple, RawStatement};
use c_tree::CAtom;
use std::alloc::Global;
use va_base::NoMemory;

/// A local that is used.
fn used(least: &mut Option<usize>, scope: &Scope, number: At<u32>)
    ensures { BlamesInScope scope.now least.old least.new (λ known. unless_among (numbers_of known) (at_view number)) }
{
    blame_unless(
        least,
        local_type(scope, number.value).is_some(),
        number.at as usize,
    );
}

fn atom_used(least: &mut Option<usize>, scope: &Scope, atom: At<CAtom>)
    ensures { BlamesInScope scope.now least.old least.new (λ known. local_used known (at_view atom)) }
{
    if let CAtom::Local(number) = atom.value {
        used(
            least,
            scope,
            At {
                at: atom.at,
                value: number,
            },
        );
    }
}

fn atoms_used(least: &mut Option<usize>, scope: &Scope, atoms: &[At<CAtom>])
    ensures { BlamesInScope scope.now least.old least.new (λ known. flat_map (local_used known) (map at_view atoms.now)) }
{
    for atom in atoms {
        atom_used(least, scope, *atom);
    }
}

/// The local that a statement sets again.
fn set_again(least: &mut Option<usize>, scope: &Scope, statement: &RawSimple)
    ensures { BlamesInScope scope.now least.old least.new (λ known. flat_map (unless_among (numbers_of known)) (bodies.assigned (simple_view statement.now))) }
{
    if let RawSimple::Assign { local, .. } = statement {
        used(least, scope, *local);
    }
}

fn simple_used(
    alloc: Global,
    least: &mut Option<usize>,
    scope: &Scope,
    statement: &RawSimple,
) -> Result<(), NoMemory>
    ensures { OnOk result (BlamesInScope scope.now least.old least.new
        (λ known. used_locals (record { known = known; item = bodies.of_simple (simple_view statement.now) }))) }
{
    let atoms = simple_atoms(alloc, statement)?;
    atoms_used(least, scope, &atoms);
    set_again(least, scope, statement);
    Ok(())
}

fn test_used(least: &mut Option<usize>, scope: &Scope, atom: At<CAtom>)
    ensures { BlamesInScope scope.now least.old least.new (λ known. used_locals (record { known = known; item = bodies.of_test (at_view atom) })) }
{
    atom_used(least, scope, atom);
}

fn visit(
    alloc: Global,
    least: &mut Option<usize>,
    scope: &Scope,
    statement: &RawStatement,
) -> Result<(), NoMemory>
    ensures { OnOk result (BlamesInScope scope.now least.old least.new
        (λ known. in_scope used_locals known statement.now)) }
{
    match statement {
        RawStatement::Simple(inner) => simple_used(alloc, least, scope, inner)?,
        RawStatement::Leave { test, .. } => test_used(least, scope, *test),
        RawStatement::If { test } => test_used(least, scope, *test),
        RawStatement::For => {}
        RawStatement::End { .. } => {}
    }
    Ok(())
}

/// The statements of a body, and what is known at their end.
fn walk(alloc: Global, least: &mut Option<usize>, list: &[RawStatement]) -> Result<Scope, NoMemory>
    ensures blames { OnOk result (Blames least.old least.new (walked used_locals [] [] list.now)) }
    ensures knows { IfOk result (λ scope. IsKnown (get nat_eq scope.types) (known_at_end [] [] list.now)) }
{
    let mut scope = no_locals(alloc);
    for statement in list {
        visit(alloc, least, &scope, statement)?;
        go_behind(alloc, &mut scope, statement)?;
    }
    Ok(scope)
}

/// The value that a function returns.
fn returned_used(least: &mut Option<usize>, scope: &Scope, body: &Body)
    ensures { BlamesInScope scope.now least.old least.new (λ known. value_used known (bodies.RawBody.last (body_view body.now))) }
{
    if let Body::Function(_, function) = *body {
        atom_used(least, scope, function.value);
    }
}

/// The locals that a body uses.
fn body_locals(alloc: Global, least: &mut Option<usize>, body: &Body) -> Result<(), NoMemory>
    requires { is_one_block body.now ≡ true }
    ensures { OnOk result (Blames least.old least.new (flat_map used_locals (bodies.items_of (body_view body.now)))) }
{
    let scope = walk(alloc, least, statements(body))?;
    returned_used(least, &scope, body);
    Ok(())
}

fn one_body(alloc: Global, least: &mut Option<usize>, body: &Body) -> Result<(), NoMemory>
    requires { is_one_block body.now ≡ true }
    ensures { OnOk result ((m : raw_tree.RawModule) → Blames least.old least.new (locals_in_body m (body_view body.now))) }
{
    body_locals(alloc, least, body)?;
    body_arguments(alloc, least, body)?;
    locals_again(alloc, least, body)?;
    arguments_again(alloc, least, body)?;
    Ok(())
}

/// The rule, as it is asked of each body.
struct Locals;

impl BodyRule for Locals {
    ghost blamed = { locals_in_body };

    fn blame_body(
        alloc: Global,
        least: &mut Option<usize>,
        _tree: &RawModule,
        body: &Body,
    ) -> Result<(), NoMemory> {
        one_body(alloc, least, body)?;
        Ok(())
    }
}

/// The least token at which a local or an argument is used that is not declared before, in its block or one around it, or is
/// declared a second time in its function. None where each use has its one declaration.
pub fn locals_fault(alloc: Global, raw: &RawFile) -> Result<Option<usize>, NoMemory>
    requires { has_bodies raw.now ≡ true }
    ensures { IfOk result (λ least. least ≡ least_of (locals_declared (file_view raw.now))) }
{
    let mut least = None;
    in_bodies::<Locals>(alloc, &mut least, raw)?;
    Ok(least)
}
