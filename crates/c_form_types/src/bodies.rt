//! Bodies: their statements, and the value that a function returns.
ghost use Rattle.std.specs.Prelude.{◌≡◌, [], IfOk, OnOk, map, nat_eq, true};
ghost use Rattle.std.specs.List.{flat_map, list_all};
ghost use Rattle.indexmap.specs.IndexMap.{get};
ghost use Rattle.c_tree.specs.rules.Bodies as bodies;
ghost use Rattle.c_raw.specs.Views.{module_view};
ghost use Rattle.c_form.specs.Blames.{Blames};
ghost use Rattle.c_form.specs.Bodies.{body_view, is_one_block};
ghost use Rattle.c_form.specs.FieldTypes.{HasTypes};
ghost use Rattle.c_form.specs.Scopes.{IsKnown, known_at_end, walked};
ghost use Rattle.c_form_types.specs.Places.{BlamesAt, AreTypes, item_blamed, returned_blamed};

use crate::atom_types::{BodyTypes, Walk, body_types, wanted};
use crate::statements::statement_differs;
use c_form::body::{Body, statements};
use c_form::cell_types::CellTypes;
use c_form::scope::{Scope, go_behind, no_locals};
use c_raw::{RawModule, RawStatement};
use std::alloc::Global;
use va_base::NoMemory;

/// The statements of a body, and what is known at their end.
fn all_statements(
    alloc: Global,
    least: &mut Option<usize>,
    types: &BodyTypes,
    list: &[RawStatement],
) -> Result<Scope, NoMemory>
    requires { AreTypes types.now (module_view types.now.tree.now) (body_view types.now.body) }
    ensures blames { OnOk result (Blames least.old least.new
        (walked (item_blamed (module_view types.now.tree.now) (body_view types.now.body)) [] [] list.now)) }
    ensures knows { IfOk result (λ scope. IsKnown (get nat_eq scope.types) (known_at_end [] [] list.now)) }
{
    let mut scope = no_locals(alloc);
    for statement in list {
        let here = Walk {
            alloc,
            types: &*types,
            scope: &scope,
        };
        statement_differs(&here, least, statement)?;
        go_behind(alloc, &mut scope, statement)?;
    }
    Ok(scope)
}

/// The value that a function returns.
fn returned(walk: &Walk, least: &mut Option<usize>, body: &Body) -> Result<(), NoMemory>
    ensures { OnOk result (BlamesAt walk.now least.old least.new
        (λ p. returned_blamed p (bodies.RawBody.last (body_view body.now)))) }
{
    if let Body::Function(_, function) = *body {
        wanted(walk, least, function.result, function.value)?;
    }
    Ok(())
}

/// A body of a module.
fn one_body(
    alloc: Global,
    least: &mut Option<usize>,
    tree: &RawModule,
    cells: &CellTypes,
    body: &Body,
) -> Result<(), NoMemory>
    requires typed { HasTypes cells.now (module_view tree.now) }
    requires block { is_one_block body.now ≡ true }
    ensures { OnOk result (Blames least.old least.new
        (flat_map (item_blamed (module_view tree.now) (body_view body.now)) (bodies.items_of (body_view body.now)))) }
{
    let types = body_types(alloc, tree, body, cells)?;
    let scope = all_statements(alloc, least, &types, statements(body))?;
    let end = Walk {
        alloc,
        types: &types,
        scope: &scope,
    };
    returned(&end, least, body)?;
    Ok(())
}

/// The bodies of a module.
pub fn all_bodies(
    alloc: Global,
    least: &mut Option<usize>,
    tree: &RawModule,
    cells: &CellTypes,
    list: &[Body],
) -> Result<(), NoMemory>
    requires typed { HasTypes cells.now (module_view tree.now) }
    requires blocks { list_all is_one_block list.now ≡ true }
    ensures { OnOk result (Blames least.old least.new
        (flat_map (λ b. flat_map (item_blamed (module_view tree.now) b) (bodies.items_of b)) (map body_view list.now))) }
{
    for body in list {
        one_body(alloc, least, tree, cells, body)?;
    }
    Ok(())
}
