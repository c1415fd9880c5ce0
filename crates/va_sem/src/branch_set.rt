//! Sets of branches, by their numbers.
ghost use Rattle.std.specs.Prelude.{◌≡◌, ℕ, ◌&&◌, ◌++◌, ◌∷◌, [], false, if◌then◌else◌, IfOk, nat_eq};
ghost use Rattle.std.specs.HashSet as bag;
ghost use Rattle.va_sem.specs.rules.Findings.{is_among};

use std::alloc::{AllocError, Global};
use std::collections::HashSet;

/// The branches of a list.
pub fn set_of(alloc: Global, branches: &[u32]) -> Result<HashSet<u32>, AllocError>
    ensures { IfOk result (λ set. (branch : ℕ) → bag.contains nat_eq set branch ≡ is_among branches.now branch) }
{
    let mut set = HashSet::new(alloc);
    for branch in branches {
        set.insert(*branch)?;
    }
    Ok(set)
}

/// Whether a branch is in a set.
pub fn is_in_set(set: &HashSet<u32>, branch: u32) -> bool
    ensures { result ≡ bag.contains nat_eq set.now branch }
{
    set.contains(&branch)
}

/// The empty set.
pub fn no_branches(alloc: Global) -> HashSet<u32>
    ensures { (branch : ℕ) → bag.contains nat_eq result branch ≡ false }
{
    HashSet::new(alloc)
}

/// Adds a branch to a list if it is found.
fn add_if(found: bool, branch: u32, list: &mut Vec<u32>) -> Result<(), AllocError>
    ensures { IfOk result (λ done. list.new.items ≡ (if found then list.old.items ++ branch ∷ [] else list.old.items)) }
{
    if found {
        list.push(branch)?;
    }
    Ok(())
}

/// The branches that are in both lists, each once.
pub fn in_both(alloc: Global, first: &[u32], second: &[u32]) -> Result<Vec<u32>, AllocError>
    ensures { IfOk result (λ list. (branch : ℕ) → is_among list.items branch ≡ (is_among first.now branch && is_among second.now branch)) }
{
    let mut left = set_of(alloc, second)?;
    let mut list = Vec::new(alloc);
    for branch in first {
        let found = left.remove(branch);
        add_if(found, *branch, &mut list)?;
    }
    Ok(list)
}
