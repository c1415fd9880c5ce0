//! Rule 7 of form, calls: a function that is called stands earlier, with its number of arguments.
ghost use Rattle.std.specs.Prelude.{◌≡◌, [], IfOk, OnOk, length, true};
ghost use Rattle.std.specs.List.{flat_map};
ghost use Rattle.c_tree.specs.Form.{least_of};
ghost use Rattle.c_tree.specs.Raw as raw_tree;
ghost use Rattle.c_tree.specs.rules.Bodies as bodies;
ghost use Rattle.c_tree.specs.rules.Types.{calls_fit, fitting, function_before, function_called, item_calls, signature, signature_of};
ghost use Rattle.c_raw.specs.Blocks.{right_view, simple_view};
ghost use Rattle.c_raw.specs.Views.{file_view, has_bodies, module_view};
ghost use Rattle.c_form.specs.Blames.{Blames};
ghost use Rattle.c_form.specs.Bodies.{body_view, is_one_block};
ghost use Rattle.c_form.specs.Parts.{calls_in_right, calls_of_simple, is_there};

use crate::blame::blame_unless;
use crate::body::Body;
use crate::items::{ItemRule, in_items};
use crate::walk::{BodyRule, in_bodies};
use c_raw::{At, RawFile, RawModule, RawRight, RawSimple};
use c_tree::{CAtom, CCallee};
use std::alloc::Global;
use va_base::NoMemory;

/// How many functions stand before a body.
pub fn functions_before(tree: &RawModule, body: &Body) -> usize
    ensures { result ≡ function_before (bodies.RawBody.kind (body_view body.now)) (length (raw_tree.RawModule.functions (module_view tree.now))) }
{
    match *body {
        Body::Function(index, _) => index,
        Body::SetupModel(_) => tree.functions.as_list().len(),
        Body::SetupInstance(_) => tree.functions.as_list().len(),
        Body::Evaluation(_) => tree.functions.as_list().len(),
    }
}

/// Whether a function stands before a body and has so many arguments.
fn function_fits(tree: &RawModule, body: &Body, number: u32, count: usize) -> bool
    ensures { result ≡ is_there (fitting (signature_of (function_called (module_view tree.now) (body_view body.now) number)) count) }
{
    let functions = tree.functions.as_list();
    let number = number as usize;
    number < functions_before(tree, body)
        && number < functions.len()
        && functions[number].arguments.as_list().len() == count
}

/// Whether what is called is there and has so many arguments.
fn fits(tree: &RawModule, body: &Body, callee: CCallee, count: usize) -> bool
    ensures { result ≡ is_there (fitting (signature (module_view tree.now) (body_view body.now) callee) count) }
{
    match callee {
        CCallee::Fun1(_) => count == 1,
        CCallee::Fun2(_) => count == 2,
        CCallee::Function(number) => function_fits(tree, body, number, count),
    }
}

fn right_calls(least: &mut Option<usize>, tree: &RawModule, body: &Body, at: u32, right: &RawRight)
    ensures { Blames least.old least.new (calls_in_right (module_view tree.now) (body_view body.now) at (right_view right.now)) }
{
    if let RawRight::Call { callee, args } = right {
        blame_unless(
            least,
            fits(tree, body, *callee, args.as_list().len()),
            at as usize,
        );
    }
}

fn simple_calls(least: &mut Option<usize>, tree: &RawModule, body: &Body, statement: &RawSimple)
    ensures { Blames least.old least.new (calls_of_simple (module_view tree.now) (body_view body.now) (simple_view statement.now)) }
{
    if let RawSimple::Constant { at, right, .. } = statement {
        right_calls(least, tree, body, *at, right);
    }
}

/// A body whose calls are looked at, and its module.
#[derive(Drop)]
struct Calling<'a> {
    tree: &'a RawModule,
    body: Body<'a>,
}

impl<'a> ItemRule for Calling<'a> {
    ghost subject = { raw_tree.RawModule × bodies.RawBody };

    ghost knows = { λ calling p. (module_view calling.tree.now ≡ p.0) × (body_view calling.body ≡ p.1) };

    ghost in_atom = { λ p a. [] };

    ghost in_simple = { λ p. calls_of_simple p.0 p.1 };

    fn blame_atom(
        &self,
        _alloc: Global,
        _least: &mut Option<usize>,
        _atom: At<CAtom>,
    ) -> Result<(), NoMemory> {
        Ok(())
    }

    fn blame_simple(
        &self,
        _alloc: Global,
        least: &mut Option<usize>,
        statement: &RawSimple,
    ) -> Result<(), NoMemory> {
        simple_calls(least, self.tree, &self.body, statement);
        Ok(())
    }
}

fn body_calls(
    alloc: Global,
    least: &mut Option<usize>,
    tree: &RawModule,
    body: &Body,
) -> Result<(), NoMemory>
    requires { is_one_block body.now ≡ true }
    ensures { OnOk result (Blames least.old least.new
        (flat_map (item_calls (module_view tree.now) (body_view body.now)) (bodies.items_of (body_view body.now)))) }
{
    let calling = Calling { tree, body: *body };
    in_items(alloc, least, &calling, body)?;
    Ok(())
}

/// The rule, as it is asked of each body.
struct Calls;

impl BodyRule for Calls {
    ghost blamed = { λ m b. flat_map (item_calls m b) (bodies.items_of b) };

    fn blame_body(
        alloc: Global,
        least: &mut Option<usize>,
        tree: &RawModule,
        body: &Body,
    ) -> Result<(), NoMemory> {
        body_calls(alloc, least, tree, body)
    }
}

/// The least token at which a call names a function that does not stand earlier, or has another number of arguments. None where
/// each call fits.
pub fn calls_fault(alloc: Global, raw: &RawFile) -> Result<Option<usize>, NoMemory>
    requires { has_bodies raw.now ≡ true }
    ensures { IfOk result (λ least. least ≡ least_of (calls_fit (file_view raw.now))) }
{
    let mut least = None;
    in_bodies::<Calls>(alloc, &mut least, raw)?;
    Ok(least)
}
