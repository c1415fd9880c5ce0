//! What walks over the statements of a module found, and the kinds and unknowns that follow.
ghost use Rattle.std.specs.Prelude.{◌≡◌, ◌++◌, map, filter, Some, IsSome, IfOk};
ghost use Rattle.std.specs.List.{range_with_len};
ghost use Rattle.va_sem.specs.declared.branch.Unknown.TheVariants.{Node, Branch};
ghost use Rattle.va_sem.specs.rules.Findings.{IsSurvey, has_potential_kind};
ghost use Rattle.va_sem.specs.rules.Unknowns.{kinds_in, potential_branches, first_of_each, HasKinds};
ghost use Rattle.va_sem.specs.rules.Biased.{analysis_of};
ghost use Rattle.va_sem.specs.rules.BranchFacts.{kind_told, TellKinds, HasAll, grown_by};
ghost use Rattle.va_sem.specs.Declarations.{analog_bodies};

use crate::bias::{biased_variables, find, meanings_of};
use crate::branch::{BranchKind, Unknown};
use crate::branch_set::{is_in_set, no_branches};
use crate::contributions::{BranchFacts, branch_facts, givens_of, in_order, kind_of};
use crate::findings::{Finding, Given};
use crate::names::{Meaning, ModuleNames};
use std::alloc::{AllocError, Global};
use std::collections::{BTreeMap, HashSet};
use va_base::NoMemory;
use va_tree::Module;

/// What walks over the statements of a module found.
#[derive(Drop)]
pub struct Survey {
    /// What the names mean, by their tokens.
    pub meanings: BTreeMap<u32, Meaning>,
    pub findings: Vec<Finding>,
    /// The contributions among them.
    pub givens: Vec<Given>,
}

/// Finds the biased variables of a module, and walks over its statements.
pub fn survey_module(alloc: Global, m: &Module, names: &ModuleNames) -> Result<Survey, NoMemory>
    ensures { IfOk result (IsSurvey names.now m.now) }
{
    let items = m.items.as_list();
    let meanings = meanings_of(alloc, names.uses.as_list())?;
    let biased = biased_variables(alloc, names.vars.as_list().len(), items, &meanings)?;
    let findings = find(alloc, items, &meanings, biased.as_slice())?;
    let givens = givens_of(alloc, findings.as_slice())?;
    Ok(Survey {
        meanings,
        findings,
        givens,
    })
}

/// What is known of the branches of a module.
fn facts_of(
    alloc: Global,
    m: &Module,
    names: &ModuleNames,
    survey: &Survey,
) -> Result<BranchFacts, AllocError>
    requires { IsSurvey names.now m.now survey.now }
    ensures { IfOk result (TellKinds names.now m.now) }
{
    let facts = branch_facts(
        alloc,
        m.items.as_list(),
        &survey.meanings,
        survey.findings.as_slice(),
    )?;
    Ok(facts)
}

/// A length as a 32-bit number.
pub fn number_of(len: usize) -> Result<u32, NoMemory>
    ensures { IfOk result (λ n. n ≡ len) }
{
    match u32::try_from(len) {
        Ok(n) => Ok(n),
        Err(_) => Err(NoMemory),
    }
}

/// The kind of a branch that has one.
fn known_kind(facts: &BranchFacts, branch: u32) -> BranchKind
    requires { IsSome (kind_told facts.now branch) }
    ensures { Some result ≡ kind_told facts.now branch }
{
    kind_of(facts, branch).unwrap()
}

/// The kinds of the branches of a module in the order of `branches`, where each has one.
pub fn surveyed_kinds(
    alloc: Global,
    m: &Module,
    names: &ModuleNames,
    survey: &Survey,
) -> Result<Vec<BranchKind>, NoMemory>
    requires survey { IsSurvey names.now m.now survey.now }
    requires kinds { HasKinds names.now m.now }
    ensures { IfOk result (λ kinds. map Some kinds.items ≡ kinds_in names.now m.now) }
{
    let facts = facts_of(alloc, m, names, survey)?;
    let count = number_of(names.branches.as_list().len())?;
    let mut kinds = Vec::new(alloc);
    for branch in 0..count {
        let kind = known_kind(&facts, branch);
        kinds.push(kind)?;
    }
    Ok(kinds)
}

fn is_potential(kind: Option<BranchKind>) -> bool
    ensures { result ≡ has_potential_kind kind }
{
    match kind {
        Some(BranchKind::Potential) => true,
        _ => false,
    }
}

/// Adds a branch to a list if it is a potential branch and not there yet. The set has what the list has.
fn add_potential(
    facts: &BranchFacts,
    branch: u32,
    branches: &mut Vec<u32>,
    listed: &mut HashSet<u32>,
) -> Result<(), AllocError>
    requires { HasAll branches.old.items listed.old }
    ensures grown { IfOk result (λ done. branches.new.items ≡ grown_by (has_potential_kind (kind_told facts.now branch)) branches.old.items branch) }
    ensures listed { IfOk result (λ done. HasAll branches.new.items listed.new) }
{
    if is_potential(kind_of(facts, branch)) && !is_in_set(listed, branch) {
        branches.push(branch)?;
        listed.insert(branch)?;
    }
    Ok(())
}

/// The potential branches among those of some contributions, each once.
fn potentials_among(
    alloc: Global,
    facts: &BranchFacts,
    ordered: &[Given],
) -> Result<Vec<u32>, AllocError>
    ensures { IfOk result (λ branches. branches.items ≡ filter (λ b. has_potential_kind (kind_told facts.now b)) (first_of_each (map (λ g. g.branch) ordered.now))) }
{
    let mut branches = Vec::new(alloc);
    let mut listed = no_branches(alloc);
    for given in ordered {
        add_potential(facts, given.branch, &mut branches, &mut listed)?;
    }
    Ok(branches)
}

/// The potential branches in order of their first contributions.
pub fn surveyed_potentials(
    alloc: Global,
    m: &Module,
    names: &ModuleNames,
    survey: &Survey,
) -> Result<Vec<u32>, AllocError>
    requires { IsSurvey names.now m.now survey.now }
    ensures { IfOk result (λ branches. branches.items ≡ potential_branches (analysis_of names.now (analog_bodies m.now))) }
{
    let facts = facts_of(alloc, m, names, survey)?;
    let ordered = in_order(alloc, survey.givens.as_slice())?;
    let branches = potentials_among(alloc, &facts, ordered.as_slice())?;
    Ok(branches)
}

/// Adds the nodes, ports first.
pub fn add_nodes(count: u32, list: &mut Vec<Unknown>) -> Result<(), AllocError>
    ensures { IfOk result (λ done. list.new.items ≡ list.old.items ++ map Node (range_with_len 0 count)) }
{
    for node in 0..count {
        list.push(Unknown::Node(node))?;
    }
    Ok(())
}

pub fn add_branches(branches: &[u32], list: &mut Vec<Unknown>) -> Result<(), AllocError>
    ensures { IfOk result (λ done. list.new.items ≡ list.old.items ++ map Branch branches.now) }
{
    for branch in branches {
        list.push(Unknown::Branch(*branch))?;
    }
    Ok(())
}
