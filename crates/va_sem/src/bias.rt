//! What the names of a module mean, its biased variables, and what a walk over its statements finds.
ghost use Rattle.std.specs.Prelude.{◌≡◌, ℕ, ◌++◌, flat_map, IfOk};
ghost use Rattle.std.specs.Ordering.{nat_cmp};
ghost use Rattle.std.specs.BTreeMap as tree;
ghost use Rattle.alg_laws.specs.Least.{listed, least};
ghost use Rattle.va_sem.specs.Typing.{meaning_at};
ghost use Rattle.va_sem.specs.rules.Biased.{biased_by};
ghost use Rattle.va_sem.specs.rules.Values.{values_of};
ghost use Rattle.va_sem.specs.rules.Findings.{found_by, blocks_of, item_blocks};

use crate::findings::{Finding, visit};
use crate::influence::{count_nodes, influences};
use crate::names::{Meaning, NameUse};
use graphs::reach;
use std::alloc::{AllocError, Global};
use std::collections::BTreeMap;
use va_base::NoMemory;
use va_tree::{Item, ItemBody};

/// What the names of a module mean, by their tokens. Of two entries at one token the first counts.
pub fn meanings_of(alloc: Global, uses: &[NameUse]) -> Result<BTreeMap<u32, Meaning>, AllocError>
    ensures { IfOk result (λ map. (at : ℕ) → tree.get nat_cmp map at ≡ meaning_at uses.now at) }
{
    let mut map = BTreeMap::new(alloc);
    let mut place = uses.len();
    while place > 0 {
        place -= 1;
        let entry = uses[place];
        map.insert(entry.at, entry.meaning)?;
    }
    Ok(map)
}

/// Walks over the statement of an analogue block. Any other item has none.
fn find_in(
    item: &Item,
    meanings: &BTreeMap<u32, Meaning>,
    biased: &[bool],
    findings: &mut Vec<Finding>,
) -> Result<(), AllocError>
    ensures { IfOk result (λ done. findings.new.items ≡ findings.old.items ++ flat_map (found_by (tree.get nat_cmp meanings.now) (listed biased.now)) (values_of (item_blocks item.now))) }
{
    match &item.body {
        ItemBody::Analog { body, .. } => {
            let done = visit(body, false, meanings, biased, findings)?;
            Ok(done)
        }
        _ => Ok(()),
    }
}

/// What a walk over all analogue blocks finds.
pub fn find(
    alloc: Global,
    items: &[Item],
    meanings: &BTreeMap<u32, Meaning>,
    biased: &[bool],
) -> Result<Vec<Finding>, AllocError>
    ensures { IfOk result (λ findings. findings.items ≡ flat_map (found_by (tree.get nat_cmp meanings.now) (listed biased.now)) (values_of (blocks_of items.now))) }
{
    let mut findings = Vec::new(alloc);
    for item in items {
        find_in(item, meanings, biased, &mut findings)?;
    }
    Ok(findings)
}

/// The biased variables of a module with `count` variables: those that the unknowns reach along the edges of what influences what.
/// The time is linear in the text.
pub fn biased_variables(
    alloc: Global,
    count: usize,
    items: &[Item],
    meanings: &BTreeMap<u32, Meaning>,
) -> Result<Vec<bool>, NoMemory>
    ensures { IfOk result (λ set. (x : ℕ) → listed set.items x ≡ least count (biased_by (tree.get nat_cmp meanings.now) (values_of (blocks_of items.now))) x) }
{
    let edges = influences(alloc, count, items, meanings)?;
    let nodes = count_nodes(count, edges.len())?;
    let mut biased = reach(alloc, nodes, edges.as_slice(), &[count])?;
    biased.truncate(count);
    Ok(biased)
}
