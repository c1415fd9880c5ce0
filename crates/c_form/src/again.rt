//! Numbers that stand again.
ghost use Rattle.std.specs.Prelude.{◌≡◌, OnOk, map};
ghost use Rattle.c_tree.specs.rules.Bodies as bodies;
ghost use Rattle.c_raw.specs.Blocks.{at_view};
ghost use Rattle.c_form.specs.Blames.{Blames};

use crate::blame::blame_unless;
use c_raw::At;
use indexmap::IndexMap;
use std::alloc::Global;
use va_base::NoMemory;

/// Blames each number that stood before.
pub fn repeated(alloc: Global, least: &mut Option<usize>, list: &[At<u32>]) -> Result<(), NoMemory>
    ensures { OnOk result (Blames least.old least.new (bodies.repeated (map at_view list.now))) }
{
    let mut seen: IndexMap<u32, bool> = IndexMap::new(alloc);
    for number in list {
        let before = seen.insert(number.value, true)?;
        blame_unless(least, before.is_none(), number.at as usize);
    }
    Ok(())
}
