//! The bodies of a module.
ghost use Rattle.std.specs.Prelude.{◌≡◌, IfOk, map, true};
ghost use Rattle.std.specs.List.{list_all};
ghost use Rattle.std.specs.List.{enumerate_from};
ghost use Rattle.c_tree.specs.rules.Bodies as rule;
ghost use Rattle.c_raw.specs.declared.file.RawFunction as spec_function;
ghost use Rattle.c_raw.specs.Blocks.{is_body};
ghost use Rattle.c_raw.specs.Views.{function_view, module_view, module_has_bodies};
ghost use Rattle.c_form.specs.Bodies.{body_view, statements_of, is_one_block};

use c_raw::{RawFunction, RawModule, RawStatement};
use std::alloc::{AllocError, Global};

/// A body of a module.
#[derive(Clone, Copy, Drop)]
pub enum Body<'a> {
    /// A function, with its place among those of the module.
    Function(usize, &'a RawFunction),
    SetupModel(&'a [RawStatement]),
    SetupInstance(&'a [RawStatement]),
    Evaluation(&'a [RawStatement]),
}

/// The statements of a body.
pub fn statements<'a>(body: &Body<'a>) -> &'a [RawStatement]
    ensures { result.now ≡ statements_of body.now }
{
    match *body {
        Body::Function(_, function) => function.body.as_list(),
        Body::SetupModel(list) => list,
        Body::SetupInstance(list) => list,
        Body::Evaluation(list) => list,
    }
}

/// The functions among the bodies.
fn function_bodies(alloc: Global, list: &[RawFunction]) -> Result<Vec<Body<'_>>, AllocError>
    requires { list_all (λ f. is_body (spec_function.RawFunction.body f)) list.now ≡ true }
    ensures are { IfOk result (λ bodies. map body_view bodies.items ≡ map rule.function_body (enumerate_from 0 (map function_view list.now))) }
    ensures blocks { IfOk result (λ bodies. list_all is_one_block bodies.items ≡ true) }
{
    let mut bodies = Vec::new(alloc);
    for (index, function) in list.iter().enumerate() {
        bodies.push(Body::Function(index, function))?;
    }
    Ok(bodies)
}

/// The bodies of a module: its functions, the two set-ups and the evaluation.
pub fn bodies_of<'a>(alloc: Global, tree: &'a RawModule) -> Result<Vec<Body<'a>>, AllocError>
    requires { module_has_bodies tree.now ≡ true }
    ensures are { IfOk result (λ bodies. map body_view bodies.items ≡ rule.bodies_of (module_view tree.now)) }
    ensures blocks { IfOk result (λ bodies. list_all is_one_block bodies.items ≡ true) }
{
    let mut bodies = function_bodies(alloc, tree.functions.as_list())?;
    bodies.push(Body::SetupModel(tree.setup_model.as_list()))?;
    bodies.push(Body::SetupInstance(tree.setup_instance.as_list()))?;
    bodies.push(Body::Evaluation(tree.eval.as_list()))?;
    Ok(bodies)
}
