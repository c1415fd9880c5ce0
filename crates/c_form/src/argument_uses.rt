//! Arguments that are used are those of the function.
ghost use Rattle.std.specs.Prelude.{◌≡◌, [], OnOk, nat_eq, true};
ghost use Rattle.std.specs.List.{flat_map};
ghost use Rattle.indexmap.specs.IndexMap.{get};
ghost use Rattle.c_tree.specs.rules.Bodies as bodies;
ghost use Rattle.c_tree.specs.rules.Locals.{used_arguments};
ghost use Rattle.c_raw.specs.Blocks.{at_view};
ghost use Rattle.c_form.specs.Blames.{Blames};
ghost use Rattle.c_form.specs.Bodies.{body_view, is_one_block};
ghost use Rattle.c_form.specs.Uses as uses;

use crate::arguments::{argument_type, argument_types, arguments};
use crate::blame::blame_unless;
use crate::body::Body;
use crate::items::{ItemRule, in_items};
use alg_laws::Ty;
use c_raw::{At, RawSimple};
use c_tree::CAtom;
use indexmap::IndexMap;
use std::alloc::Global;
use va_base::NoMemory;

fn argument_used(least: &mut Option<usize>, types: &IndexMap<u32, Ty>, atom: At<CAtom>)
    ensures { (b : bodies.RawBody) → uses.HasArguments (get nat_eq types.now) b
        → Blames least.old least.new (uses.argument_used (bodies.RawBody.arguments b) (at_view atom)) }
{
    if let CAtom::Argument(number) = atom.value {
        blame_unless(
            least,
            argument_type(types, number).is_some(),
            atom.at as usize,
        );
    }
}

/// The types of a body's arguments, by their numbers.
#[derive(Drop)]
struct Arguments {
    types: IndexMap<u32, Ty>,
}

impl ItemRule for Arguments {
    ghost subject = { bodies.RawBody };

    ghost knows = { λ rule b. uses.HasArguments (get nat_eq rule.types) b };

    ghost in_atom = { λ b. uses.argument_used (bodies.RawBody.arguments b) };

    ghost in_simple = { λ b s. [] };

    fn blame_atom(
        &self,
        _alloc: Global,
        least: &mut Option<usize>,
        atom: At<CAtom>,
    ) -> Result<(), NoMemory> {
        argument_used(least, &self.types, atom);
        Ok(())
    }

    fn blame_simple(
        &self,
        _alloc: Global,
        _least: &mut Option<usize>,
        _statement: &RawSimple,
    ) -> Result<(), NoMemory> {
        Ok(())
    }
}

/// The arguments that a body uses.
pub fn body_arguments(alloc: Global, least: &mut Option<usize>, body: &Body) -> Result<(), NoMemory>
    requires { is_one_block body.now ≡ true }
    ensures { OnOk result (Blames least.old least.new
        (flat_map (used_arguments (body_view body.now)) (bodies.items_of (body_view body.now)))) }
{
    let types = argument_types(alloc, arguments(body))?;
    in_items(alloc, least, &Arguments { types }, body)?;
    Ok(())
}
