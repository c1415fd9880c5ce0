//! Rule 8 of form, reach, asked of a text.
ghost use Rattle.std.specs.Prelude.{◌≡◌, IfOk, OnOk, map, true};
ghost use Rattle.std.specs.List.{flat_map};
ghost use Rattle.c_tree.specs.Form.{least_of};
ghost use Rattle.c_tree.specs.Raw as raw_tree;
ghost use Rattle.c_tree.specs.rules.Reach as rule;
ghost use Rattle.c_raw.specs.Views.{file_view, has_bodies, module_view};
ghost use Rattle.c_form.specs.Blames.{Blames};
ghost use Rattle.c_form.specs.Bodies.{body_view, is_one_block};

use crate::deeper::deeper;
use crate::loads::module_loads;
use crate::spoken::spoken_of;
use crate::temperature::temperatures;
use crate::twice::twice;
use c_form::body::{Body, statements};
use c_form::walk::{BodyRule, in_bodies};
use c_raw::{RawFile, RawModule};
use std::alloc::Global;
use va_base::NoMemory;

fn one_body(alloc: Global, least: &mut Option<usize>, body: &Body) -> Result<(), NoMemory>
    requires { is_one_block body.now ≡ true }
    ensures { OnOk result ((m : raw_tree.RawModule) → Blames least.old least.new (rule.cells_of_body m (body_view body.now))) }
{
    deeper(least, statements(body));
    twice(alloc, least, statements(body))?;
    temperatures(least, statements(body));
    spoken_of(alloc, least, body)?;
    Ok(())
}

/// The rule, as it is asked of each body.
struct Reach;

impl BodyRule for Reach {
    ghost blamed = { rule.cells_of_body };

    fn blame_body(
        alloc: Global,
        least: &mut Option<usize>,
        _tree: &RawModule,
        body: &Body,
    ) -> Result<(), NoMemory> {
        one_body(alloc, least, body)?;
        Ok(())
    }
}

fn modules_loads(
    alloc: Global,
    least: &mut Option<usize>,
    list: &[RawModule],
) -> Result<(), NoMemory>
    ensures { OnOk result (Blames least.old least.new (flat_map (rule.loads_reached 0) (map module_view list.now))) }
{
    for tree in list {
        module_loads(alloc, least, tree)?;
    }
    Ok(())
}

/// The least token at which a text speaks of what is out of reach there, by its index among the tokens of the text, or None:
///
/// - Cells and collapse flags are set in the top block of a body alone, each at most once in it, and no statement sets `temp`.
/// - An evaluation sets no parameter, given flag, stored cell or collapse flag. A function reads and sets no cell. The set-up of
///   the model names no `inst`. Only the two set-ups report, and of the bodies the evaluation alone reads `x`.
/// - In a load function (`OsdiDescriptor`, the fields `load_..`) `dst`, `alpha` and `x` stand only where it has that argument,
///   and each cell that it reads is a double.
///
/// A cell is blamed at the word behind `->`, but in the set-up of the model at `inst`. Each body is to be one block, which
/// `c_form::closed::bodies_closed` tells. It fails where memory is refused.
pub fn reach_fault(alloc: Global, raw: &RawFile) -> Result<Option<usize>, NoMemory>
    requires { has_bodies raw.now ≡ true }
    ensures { IfOk result (λ least. least ≡ least_of (rule.cells_in_reach (file_view raw.now))) }
{
    let mut least = None;
    in_bodies::<Reach>(alloc, &mut least, raw)?;
    modules_loads(alloc, &mut least, raw.modules.as_list())?;
    Ok(least)
}
