//! The kinds of a module's branches, and its unknowns.
ghost use Rattle.std.specs.Prelude.{◌≡◌, map, Some, IfOk};
ghost use Rattle.va_sem.specs.rules.Unknowns.{kinds_in, unknowns_in, HasKinds};

use crate::branch::{BranchKind, Unknown};
use crate::names::ModuleNames;
use crate::surveys::{
    add_branches, add_nodes, number_of, survey_module, surveyed_kinds, surveyed_potentials,
};
use std::alloc::Global;
use va_base::{Items, NoMemory};
use va_tree::Module;

/// The kinds of the branches of a module, in the order of `branches`. Each branch has one where no rule is broken.
pub fn branch_kinds(
    alloc: Global,
    m: &Module,
    names: &ModuleNames,
) -> Result<Items<BranchKind>, NoMemory>
    requires { HasKinds names.now m.now }
    ensures { IfOk result (λ kinds. map Some kinds ≡ kinds_in names.now m.now) }
{
    let survey = survey_module(alloc, m, names)?;
    let kinds = surveyed_kinds(alloc, m, names, &survey)?;
    Ok(Items::new(kinds))
}

/// The unknowns of a module in order: its nodes, ports first, and then its potential branches in order of their first
/// contributions.
pub fn unknowns(alloc: Global, m: &Module, names: &ModuleNames) -> Result<Items<Unknown>, NoMemory>
    ensures { IfOk result (λ list. list ≡ unknowns_in names.now m.now) }
{
    let survey = survey_module(alloc, m, names)?;
    let branches = surveyed_potentials(alloc, m, names, &survey)?;
    let count = number_of(names.nodes.as_list().len())?;
    let mut list = Vec::new(alloc);
    add_nodes(count, &mut list)?;
    add_branches(branches.as_slice(), &mut list)?;
    Ok(Items::new(list))
}
