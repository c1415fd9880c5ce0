//! Texts that keep all rules, with what is known of them.
ghost use Rattle.std.specs.Prelude.{◌≡◌, ◌<◌, All, IfOk, Some, map, zip, length, slice_get};
ghost use Rattle.va_tree.specs.OwnTokens.{EachNameHasItsToken};
ghost use Rattle.va_sem.specs.Checked.{IsOfSize};
ghost use Rattle.va_sem.specs.Meanings.{names_of};
ghost use Rattle.va_sem.specs.Typing.{types_of};
ghost use Rattle.va_sem.specs.Faults.{KeepsRules, HasSoundNumerals};
ghost use Rattle.va_sem.specs.Kinds.{module_kinds, module_unknowns, HasAllKinds, kinds_of, unknowns_of};

use crate::branch::{BranchKind, Unknown};
use crate::kinds::{branch_kinds, unknowns};
use crate::names::{ModuleNames, Names};
use crate::typed::Typed;
use std::alloc::Global;
use std::marker::Model;
use va_base::{Items, NoMemory};
use va_tree::{Module, Source};

/// A text without fault of names, types and rules, with what its names mean, the types of its expressions, and of each module
/// the kinds of its branches and its unknowns. Contracts see it as its source tree.
#[derive(Drop)]
pub struct Checked {
    source: Source,
    names: Names,
    typed: Typed,
    kinds: Items<Items<BranchKind>>,
    unknowns: Items<Items<Unknown>>,
}

impl Model for Checked {
    ghost use Rattle.va_tree.specs.declared.source.Source.{Source};

    ghost Value = { Source };

    ghost use Rattle.va_tree.specs.contracts.source.Source as e;
    ghost use Rattle.std.specs.Coded.{codes};

    ghost coded = { Prim.hlevel (codes, e.the_row.coded) };

    ghost use Rattle.va_sem.specs.Checked.{IsChecked};

    ghost view = { λ c. c.source };

    ghost invariant = { λ c. IsChecked c };
}

/// The kinds of the branches of each module, with its names.
fn kinds_of_modules(
    alloc: Global,
    modules: &[Module],
    names: &[ModuleNames],
) -> Result<Items<Items<BranchKind>>, NoMemory>
    requires named { length names.now ≡ length modules.now }
    requires kinds { All HasAllKinds (zip modules.now names.now) }
    ensures { IfOk result (λ list. map (map Some) list ≡ map module_kinds (zip modules.now names.now)) }
{
    let mut list = Vec::new(alloc);
    for (index, m) in modules.iter().enumerate() {
        let of_module = branch_kinds(alloc, m, &names[index])?;
        list.push(of_module)?;
    }
    Ok(Items::new(list))
}

/// The unknowns of each module, with its names.
fn unknowns_of_modules(
    alloc: Global,
    modules: &[Module],
    names: &[ModuleNames],
) -> Result<Items<Items<Unknown>>, NoMemory>
    requires { length names.now ≡ length modules.now }
    ensures { IfOk result (λ list. list ≡ map module_unknowns (zip modules.now names.now)) }
{
    let mut list = Vec::new(alloc);
    for (index, m) in modules.iter().enumerate() {
        let of_module = unknowns(alloc, m, &names[index])?;
        list.push(of_module)?;
    }
    Ok(Items::new(list))
}

impl Checked {
    /// The checked text of a tree of allowed size that keeps all rules, whose names have tokens of their own and whose numerals
    /// are sound, with its names and types.
    pub fn seal(
        alloc: Global,
        source: Source,
        names: Names,
        typed: Typed,
    ) -> Result<Checked, NoMemory>
        requires size { IsOfSize source }
        requires tokens { EachNameHasItsToken source }
        requires names { names ≡ names_of source }
        requires types { typed ≡ types_of source (names_of source) }
        requires keeps { KeepsRules source }
        requires numerals { HasSoundNumerals source }
        ensures { IfOk result (λ c. c ≡ source) }
    {
        let kinds = kinds_of_modules(alloc, source.modules.as_list(), names.modules.as_list())?;
        let unknowns = unknowns_of_modules(
            alloc,
            source.modules.as_list(),
            names.modules.as_list(),
        )?;
        Ok(Checked {
            source,
            names,
            typed,
            kinds,
            unknowns,
        })
    }

    /// The source tree.
    pub fn source(&self) -> &Source
        ensures { result.now ≡ self.now }
    {
        &self.source
    }

    /// What its names mean.
    pub fn names(&self) -> &Names
        ensures { result.now ≡ names_of self.now }
    {
        &self.names
    }

    /// The types of its expressions.
    pub fn typed(&self) -> &Typed
        ensures { result.now ≡ types_of self.now (names_of self.now) }
    {
        &self.typed
    }

    /// The kinds of the branches of a module, by its number, in the order of `branches`.
    pub fn kinds(&self, m: usize) -> &[BranchKind]
        requires { m < length self.now.modules }
        ensures { slice_get (kinds_of self.now) m ≡ Some (map Some result.now) }
    {
        self.kinds.as_list()[m].as_list()
    }

    /// The unknowns of a module, by its number, in order.
    pub fn unknowns(&self, m: usize) -> &[Unknown]
        requires { m < length self.now.modules }
        ensures { slice_get (unknowns_of self.now) m ≡ Some result.now }
    {
        self.unknowns.as_list()[m].as_list()
    }

    /// It is of allowed size, its names have tokens of their own, it keeps all rules, and its numerals are sound.
    pub fn keeps_rules(&self)
        ensures size { IsOfSize self.now }
        ensures tokens { EachNameHasItsToken self.now }
        ensures rules { KeepsRules self.now }
        ensures numerals { HasSoundNumerals self.now }
    {
        let _ = &self.source;
    }
}
