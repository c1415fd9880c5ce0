//! The branches to which every path through a module's analogue blocks contributes, found in one walk.
//!
//! A walk adds the branches of a statement to a list. Where paths part, each arm has a list of its own, and those in all of them count.
//! What is left is at most half of what was compared, so the time stays linear in the text.
ghost use Rattle.std.specs.Prelude.{◌≡◌, ℕ, ◌||◌, ◌&&◌, if◌then◌else◌, IfOk};
ghost use Rattle.std.specs.List.{list_any};
ghost use Rattle.std.specs.Ordering.{nat_cmp};
ghost use Rattle.std.specs.BTreeMap as tree;
ghost use Rattle.va_tree.specs.Statements.{statement_of, statements_of, items_of, defaults_of};
ghost use Rattle.va_sem.specs.rules.BranchKinds.{always_contributes, some_contributes, each_item_contributes, each_default_contributes};
ghost use Rattle.va_sem.specs.rules.Coverage.{Adds, Keeps};
ghost use Rattle.va_sem.specs.rules.Findings.{else_contributes, some_default, is_among, blocks_of, item_blocks};
ghost use Rattle.va_sem.specs.rules.Uses.{is_access_to};

use crate::branch_set::in_both;
use crate::findings::{is_evaluated, meaning_at};
use crate::names::Meaning;
use sqlite_items::Boxed;
use std::alloc::{AllocError, Global};
use std::collections::BTreeMap;
use va_tree::{CaseDefault, CaseItem, Item, ItemBody, Stmt};

/// Adds the branch of an access, if a name is one.
fn add_access(meaning: Option<Meaning>, branches: &mut Vec<u32>) -> Result<(), AllocError>
    ensures { IfOk result (λ done. Adds (λ b. is_access_to b meaning) branches.old.items branches.new.items) }
{
    match meaning {
        Some(Meaning::Access { branch, .. }) => {
            branches.push(branch)?;
            Ok(())
        }
        _ => Ok(()),
    }
}

/// Adds the branches of a list.
fn add_all(list: &[u32], branches: &mut Vec<u32>) -> Result<(), AllocError>
    ensures { IfOk result (λ done. Adds (λ b. is_among list.now b) branches.old.items branches.new.items) }
{
    branches.extend_from_slice(list)?;
    Ok(())
}

/// Adds the branches to which every path through a statement contributes. Values play no part, so no loop does.
#[cycle(always)]
fn always(
    alloc: Global,
    s: &Stmt,
    meanings: &BTreeMap<u32, Meaning>,
    branches: &mut Vec<u32>,
) -> Result<(), AllocError>
    ensures { IfOk result (λ done. Adds (λ b. always_contributes (tree.get nat_cmp meanings.now) b (statement_of s.now)) branches.old.items branches.new.items) }
{
    match s {
        Stmt::Null { .. } => Ok(()),
        Stmt::Block { body, .. } => {
            let done = always_in(alloc, body.as_slice(), meanings, branches)?;
            Ok(done)
        }
        Stmt::If { yes, no, .. } => {
            let mut common = always_of(alloc, yes.get(), meanings)?;
            keep_else(alloc, no, meanings, &mut common)?;
            let done = add_all(common.as_slice(), branches)?;
            Ok(done)
        }
        Stmt::Case {
            items,
            defaults,
            ..
        } => {
            let mut common = always_in_defaults(alloc, defaults.as_slice(), meanings)?;
            keep_items(alloc, items.as_slice(), meanings, &mut common)?;
            let done = add_all(common.as_slice(), branches)?;
            Ok(done)
        }
        Stmt::For { .. } => Ok(()),
        Stmt::While { .. } => Ok(()),
        Stmt::Repeat { .. } => Ok(()),
        Stmt::Event { event, body, .. } => {
            if is_evaluated(*event) {
                let done = always(alloc, body.get(), meanings, branches)?;
                Ok(done)
            } else {
                Ok(())
            }
        }
        Stmt::Assign { .. } => Ok(()),
        Stmt::Contribute { at, .. } => {
            let done = add_access(meaning_at(meanings, *at), branches)?;
            Ok(done)
        }
        Stmt::Task { .. } => Ok(()),
    }
}

/// Adds those of some statement of a block.
#[cycle(always)]
fn always_in(
    alloc: Global,
    body: &[Stmt],
    meanings: &BTreeMap<u32, Meaning>,
    branches: &mut Vec<u32>,
) -> Result<(), AllocError>
    ensures { IfOk result (λ done. Adds (λ b. some_contributes (tree.get nat_cmp meanings.now) b (statements_of body.now)) branches.old.items branches.new.items) }
{
    for s in body {
        always(alloc, s, meanings, branches)?;
    }
    Ok(())
}

/// Those of a statement alone.
#[cycle(always)]
fn always_of(
    alloc: Global,
    s: &Stmt,
    meanings: &BTreeMap<u32, Meaning>,
) -> Result<Vec<u32>, AllocError>
    ensures { IfOk result (λ list. (b : ℕ) → is_among list.items b ≡ always_contributes (tree.get nat_cmp meanings.now) b (statement_of s.now)) }
{
    let mut list = Vec::new(alloc);
    always(alloc, s, meanings, &mut list)?;
    Ok(list)
}

/// Those of all defaults of a `case`. Without one there are none.
#[cycle(always)]
fn always_in_defaults(
    alloc: Global,
    defaults: &[CaseDefault],
    meanings: &BTreeMap<u32, Meaning>,
) -> Result<Vec<u32>, AllocError>
    ensures { IfOk result (λ common. (b : ℕ) → is_among common.items b ≡ (some_default defaults.now && each_default_contributes (tree.get nat_cmp meanings.now) b (defaults_of defaults.now))) }
{
    let mut common = Vec::new(alloc);
    let mut is_first = true;
    for default in defaults {
        keep_arm(alloc, is_first, &default.body, meanings, &mut common)?;
        is_first = false;
    }
    Ok(common)
}

/// The list of the first arm at the first arm, and else that of the arms before.
fn chosen<'a>(is_first: bool, arm: &'a [u32], common: &'a [u32]) -> &'a [u32]
    ensures { result.now ≡ (if is_first then arm.now else common.now) }
{
    if is_first { arm } else { common }
}

/// Keeps of a list those of a statement. At the first arm its list is all that of this one.
#[cycle(always)]
fn keep_arm(
    alloc: Global,
    is_first: bool,
    s: &Stmt,
    meanings: &BTreeMap<u32, Meaning>,
    common: &mut Vec<u32>,
) -> Result<(), AllocError>
    ensures { IfOk result (λ done. (b : ℕ) → is_among common.new.items b ≡ ((is_first || is_among common.old.items b) && always_contributes (tree.get nat_cmp meanings.now) b (statement_of s.now))) }
{
    let arm = always_of(alloc, s, meanings)?;
    let base = chosen(is_first, arm.as_slice(), common.as_slice());
    let next = in_both(alloc, base, arm.as_slice())?;
    *common = next;
    Ok(())
}

/// Keeps of a list those of a statement.
#[cycle(always)]
fn keep(
    alloc: Global,
    s: &Stmt,
    meanings: &BTreeMap<u32, Meaning>,
    common: &mut Vec<u32>,
) -> Result<(), AllocError>
    ensures { IfOk result (λ done. Keeps (λ b. always_contributes (tree.get nat_cmp meanings.now) b (statement_of s.now)) common.old.items common.new.items) }
{
    let arm = always_of(alloc, s, meanings)?;
    *common = in_both(alloc, common.as_slice(), arm.as_slice())?;
    Ok(())
}

/// Keeps of a list those of an `else`. Without one there are none.
#[cycle(always)]
fn keep_else(
    alloc: Global,
    no: &Option<Boxed<Stmt>>,
    meanings: &BTreeMap<u32, Meaning>,
    common: &mut Vec<u32>,
) -> Result<(), AllocError>
    ensures { IfOk result (λ done. Keeps (λ b. else_contributes (tree.get nat_cmp meanings.now) b no.now) common.old.items common.new.items) }
{
    match no {
        None => {
            common.clear();
            Ok(())
        }
        Some(s) => {
            let done = keep(alloc, s.get(), meanings, common)?;
            Ok(done)
        }
    }
}

/// Keeps of a list those of the statements of all items of a `case`.
#[cycle(always)]
fn keep_items(
    alloc: Global,
    items: &[CaseItem],
    meanings: &BTreeMap<u32, Meaning>,
    common: &mut Vec<u32>,
) -> Result<(), AllocError>
    ensures { IfOk result (λ done. Keeps (λ b. each_item_contributes (tree.get nat_cmp meanings.now) b (items_of items.now)) common.old.items common.new.items) }
{
    for item in items {
        keep(alloc, &item.body, meanings, common)?;
    }
    Ok(())
}

/// Adds those of the analogue block that an item is.
fn always_in_item(
    alloc: Global,
    item: &Item,
    meanings: &BTreeMap<u32, Meaning>,
    branches: &mut Vec<u32>,
) -> Result<(), AllocError>
    ensures { IfOk result (λ done. Adds (λ b. list_any (always_contributes (tree.get nat_cmp meanings.now) b) (item_blocks item.now)) branches.old.items branches.new.items) }
{
    match &item.body {
        ItemBody::Analog { body, .. } => {
            let done = always(alloc, body, meanings, branches)?;
            Ok(done)
        }
        _ => Ok(()),
    }
}

/// The branches to which every path through some analogue block contributes.
pub fn covered(
    alloc: Global,
    items: &[Item],
    meanings: &BTreeMap<u32, Meaning>,
) -> Result<Vec<u32>, AllocError>
    ensures { IfOk result (λ branches. (b : ℕ) → is_among branches.items b ≡ list_any (always_contributes (tree.get nat_cmp meanings.now) b) (blocks_of items.now)) }
{
    let mut branches = Vec::new(alloc);
    for item in items {
        always_in_item(alloc, item, meanings, &mut branches)?;
    }
    Ok(branches)
}
