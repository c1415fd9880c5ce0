//! The arguments of a body.
ghost use Rattle.std.specs.Prelude.{◌≡◌, ℕ, IfOk, map, nat_eq};
ghost use Rattle.indexmap.specs.IndexMap.{get};
ghost use Rattle.c_tree.specs.Raw as raw_tree;
ghost use Rattle.c_tree.specs.rules.Bodies as bodies;
ghost use Rattle.c_tree.specs.rules.Types.{type_of_argument};
ghost use Rattle.c_raw.specs.Blocks.{at_view};
ghost use Rattle.c_raw.specs.Views.{argument_view};
ghost use Rattle.c_form.specs.Bodies.{body_view};

use crate::body::Body;
use alg_laws::Ty;
use c_raw::{At, RawArgument};
use indexmap::IndexMap;
use std::alloc::Global;
use va_base::NoMemory;

/// The arguments of a body: a function has some.
pub fn arguments<'a>(body: &Body<'a>) -> &'a [RawArgument]
    ensures { map argument_view result.now ≡ bodies.RawBody.arguments (body_view body.now) }
{
    match *body {
        Body::Function(_, function) => function.arguments.as_list(),
        Body::SetupModel(_) => &[],
        Body::SetupInstance(_) => &[],
        Body::Evaluation(_) => &[],
    }
}

/// The types of arguments by their numbers. Of two with one number the first counts.
pub fn argument_types(alloc: Global, list: &[RawArgument]) -> Result<IndexMap<u32, Ty>, NoMemory>
    ensures { IfOk result (λ types. (i : ℕ) → get nat_eq types i ≡ type_of_argument i (map argument_view list.now)) }
{
    let mut types = IndexMap::new(alloc);
    let mut place = list.len();
    while place > 0 {
        place -= 1;
        let argument = list[place];
        types.insert(argument.number.value, argument.ty)?;
    }
    Ok(types)
}

/// The type of an argument, where it is there.
pub fn argument_type(types: &IndexMap<u32, Ty>, number: u32) -> Option<Ty>
    ensures { result ≡ get nat_eq types.now number }
{
    types.get(&number).copied()
}

/// The numbers of arguments, in order.
pub fn argument_numbers(alloc: Global, list: &[RawArgument]) -> Result<Vec<At<u32>>, NoMemory>
    ensures { IfOk result (λ numbers. map at_view numbers.items ≡ map (λ argument. raw_tree.RawArgument.number argument) (map argument_view list.now)) }
{
    let mut numbers = Vec::new(alloc);
    for argument in list {
        numbers.push(argument.number)?;
    }
    Ok(numbers)
}
