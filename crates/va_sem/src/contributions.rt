//! The contributions of a module, and what they make of a branch.
ghost use Rattle.std.specs.Prelude.{◌≡◌, ℕ, ◌||◌, ◌++◌, flat_map, nat_eq, IfOk};
ghost use Rattle.std.specs.HashSet as bag;
ghost use Rattle.std.specs.List.{list_any};
ghost use Rattle.std.specs.Ordering.{nat_cmp};
ghost use Rattle.std.specs.BTreeMap as tree;
ghost use Rattle.va_sem.specs.TextOrder.{in_text_order};
ghost use Rattle.va_sem.specs.rules.BranchFacts.{tells, is_this, kind_told, AreFacts};
ghost use Rattle.va_sem.specs.rules.BranchFacts as spec;
ghost use Rattle.va_sem.specs.rules.Findings.{given_in, blocks_of};

use crate::branch::BranchKind;
use crate::branch_set::{is_in_set, set_of};
use crate::coverage::covered;
use crate::findings::{Finding, Given};
use crate::names::Meaning;
use std::alloc::{AllocError, Global};
use std::collections::{BTreeMap, HashSet};
use va_tree::Item;

/// Adds the contribution that a finding is, if it is one.
fn add_given(finding: Finding, givens: &mut Vec<Given>) -> Result<(), AllocError>
    ensures { IfOk result (λ done. givens.new.items ≡ givens.old.items ++ given_in finding) }
{
    match finding {
        Finding::Given(given) => {
            givens.push(given)?;
            Ok(())
        }
        Finding::Biased(_) => Ok(()),
        Finding::FlowRead(_) => Ok(()),
    }
}

/// The contributions among what a walk found.
pub fn givens_of(alloc: Global, findings: &[Finding]) -> Result<Vec<Given>, AllocError>
    ensures { IfOk result (λ givens. givens.items ≡ flat_map given_in findings.now) }
{
    let mut givens = Vec::new(alloc);
    for finding in findings {
        add_given(*finding, &mut givens)?;
    }
    Ok(givens)
}

/// What a finding can tell of a branch.
#[derive(Clone, Copy, Debug, PartialEq, Eq)]
pub enum Evidence {
    /// A potential is contributed.
    Potential,
    /// A potential is contributed that may not collapse the branch.
    Firm,
    /// A flow is contributed.
    Flow,
    /// The flow of the branch is read.
    Read,
}

/// The branch of which a contribution tells something, if it does.
fn given_told(evidence: Evidence, given: Given) -> Option<u32>
    ensures { result ≡ spec.given_told evidence given }
{
    let tells = match evidence {
        Evidence::Potential => !given.is_flow,
        Evidence::Firm => !given.is_flow && !given.may_collapse,
        Evidence::Flow => given.is_flow,
        Evidence::Read => false,
    };
    if tells { Some(given.branch) } else { None }
}

/// The branch whose flow is read, where this is asked for.
fn read_told(evidence: Evidence, branch: u32) -> Option<u32>
    ensures { result ≡ spec.read_told evidence branch }
{
    match evidence {
        Evidence::Potential => None,
        Evidence::Firm => None,
        Evidence::Flow => None,
        Evidence::Read => Some(branch),
    }
}

/// The branch of which a finding tells something, if it does.
fn told(evidence: Evidence, finding: Finding) -> Option<u32>
    ensures { result ≡ spec.told evidence finding }
{
    match finding {
        Finding::Biased(_) => None,
        Finding::FlowRead(branch) => read_told(evidence, branch),
        Finding::Given(given) => given_told(evidence, given),
    }
}

/// Adds the branch of which something is told, if there is one.
fn add_told(branch: Option<u32>, set: &mut HashSet<u32>) -> Result<(), AllocError>
    ensures { IfOk result (λ done. (b : ℕ) → bag.contains nat_eq set.new b ≡ (bag.contains nat_eq set.old b || is_this b branch)) }
{
    match branch {
        None => Ok(()),
        Some(number) => {
            set.insert(number)?;
            Ok(())
        }
    }
}

/// The branches of which some finding tells something.
fn branches_told(
    alloc: Global,
    evidence: Evidence,
    findings: &[Finding],
) -> Result<HashSet<u32>, AllocError>
    ensures { IfOk result (λ set. (branch : ℕ) → bag.contains nat_eq set branch ≡ list_any (tells evidence branch) findings.now) }
{
    let mut set = HashSet::new(alloc);
    for finding in findings {
        add_told(told(evidence, *finding), &mut set)?;
    }
    Ok(set)
}

/// What is known of the branches of a module, one set for each fact that makes their kinds.
#[derive(Drop)]
pub struct BranchFacts {
    pub potentials: HashSet<u32>,
    pub firm: HashSet<u32>,
    pub flows: HashSet<u32>,
    pub reads: HashSet<u32>,
    /// Every path contributes to them.
    pub covered: HashSet<u32>,
}

/// What findings and statements tell of the branches.
pub fn branch_facts(
    alloc: Global,
    items: &[Item],
    meanings: &BTreeMap<u32, Meaning>,
    findings: &[Finding],
) -> Result<BranchFacts, AllocError>
    ensures { IfOk result (AreFacts (tree.get nat_cmp meanings.now) (blocks_of items.now) findings.now) }
{
    let potentials = branches_told(alloc, Evidence::Potential, findings)?;
    let firm = branches_told(alloc, Evidence::Firm, findings)?;
    let flows = branches_told(alloc, Evidence::Flow, findings)?;
    let reads = branches_told(alloc, Evidence::Read, findings)?;
    let list = covered(alloc, items, meanings)?;
    let covered = set_of(alloc, list.as_slice())?;
    Ok(BranchFacts {
        potentials,
        firm,
        flows,
        reads,
        covered,
    })
}

/// The kind of a branch, if it has one.
pub fn kind_of(facts: &BranchFacts, branch: u32) -> Option<BranchKind>
    ensures { result ≡ kind_told facts.now branch }
{
    if !is_in_set(&facts.potentials, branch) {
        return Some(BranchKind::Flow);
    }
    if !is_in_set(&facts.firm, branch) && !is_in_set(&facts.reads, branch) {
        return Some(BranchKind::Collapsing);
    }
    if !is_in_set(&facts.flows, branch) && is_in_set(&facts.covered, branch) {
        return Some(BranchKind::Potential);
    }
    None
}

/// Contributions in the order of the text.
pub fn in_order(alloc: Global, givens: &[Given]) -> Result<Vec<Given>, AllocError>
    ensures { IfOk result (λ list. list.items ≡ in_text_order (λ g. g.at) givens.now) }
{
    let mut list = Vec::from_slice(alloc, givens)?;
    list.sort_by_key(|given| given.at)?;
    Ok(list)
}
