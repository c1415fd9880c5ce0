//! Rules that blame tokens body by body, asked of each body of a text.
ghost use Rattle.std.specs.Prelude.{◌≡◌, ℕ, List, OnOk, map, true};
ghost use Rattle.std.specs.List.{flat_map, list_all};
ghost use Rattle.c_tree.specs.Raw as raw_tree;
ghost use Rattle.c_tree.specs.rules.Bodies as bodies;
ghost use Rattle.c_raw.specs.Views.{file_view, has_bodies, module_has_bodies, module_view};
ghost use Rattle.c_form.specs.Blames.{Blames};
ghost use Rattle.c_form.specs.Bodies.{body_view, is_one_block};

use crate::body::{Body, bodies_of};
use c_raw::{RawFile, RawModule};
use std::alloc::Global;
use va_base::NoMemory;

/// A rule of form that blames tokens in one body of a module at a time.
pub trait BodyRule {
    /// The tokens that the rule blames in a body of a module.
    ghost blamed: { raw_tree.RawModule → bodies.RawBody → List ℕ };

    /// Blames these tokens in a body. The error is want of memory.
    fn blame_body(
        alloc: Global,
        least: &mut Option<usize>,
        tree: &RawModule,
        body: &Body,
    ) -> Result<(), NoMemory>
        requires { is_one_block body.now ≡ true }
        ensures { OnOk result (Blames least.old least.new (blamed (module_view tree.now) (body_view body.now))) };
}

fn all_bodies<R: BodyRule>(
    alloc: Global,
    least: &mut Option<usize>,
    tree: &RawModule,
    list: &[Body],
) -> Result<(), NoMemory>
    requires { list_all is_one_block list.now ≡ true }
    ensures { OnOk result (Blames least.old least.new (flat_map (R.blamed (module_view tree.now)) (map body_view list.now))) }
{
    for body in list {
        R::blame_body(alloc, least, tree, body)?;
    }
    Ok(())
}

fn one_module<R: BodyRule>(
    alloc: Global,
    least: &mut Option<usize>,
    tree: &RawModule,
) -> Result<(), NoMemory>
    requires { module_has_bodies tree.now ≡ true }
    ensures { OnOk result (Blames least.old least.new
        (flat_map (R.blamed (module_view tree.now)) (bodies.bodies_of (module_view tree.now)))) }
{
    let list = bodies_of(alloc, tree)?;
    all_bodies::<R>(alloc, least, tree, &list)?;
    Ok(())
}

fn modules<R: BodyRule>(
    alloc: Global,
    least: &mut Option<usize>,
    list: &[RawModule],
) -> Result<(), NoMemory>
    requires { list_all module_has_bodies list.now ≡ true }
    ensures { OnOk result (Blames least.old least.new
        (flat_map (λ m. flat_map (R.blamed m) (bodies.bodies_of m)) (map module_view list.now))) }
{
    for tree in list {
        one_module::<R>(alloc, least, tree)?;
    }
    Ok(())
}

/// Blames what a rule blames in the bodies of a text, module by module. Each body is to be one block, which
/// `closed::bodies_closed` tells. The error is want of memory.
pub fn in_bodies<R: BodyRule>(
    alloc: Global,
    least: &mut Option<usize>,
    raw: &RawFile,
) -> Result<(), NoMemory>
    requires { has_bodies raw.now ≡ true }
    ensures { OnOk result (Blames least.old least.new (bodies.in_bodies R.blamed (file_view raw.now))) }
{
    modules::<R>(alloc, least, raw.modules.as_list())?;
    Ok(())
}
