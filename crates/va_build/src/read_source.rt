//! Reading a whole text: its natures, disciplines and modules.
//!
//! Each function takes the next tree of the parse tree, and its tokens with it.
ghost use Rattle.std.specs.Prelude.{◌≡◌, ◌++◌, IfOk, OnOk};
ghost use Rattle.predict.specs.Sentence.{IsParsed};
ghost use Rattle.va_base.specs.Expansion.{IsExpanded};
ghost use Rattle.va_grammar.specs.Kinds.{kinds_of};
ghost use Rattle.va_grammar.specs.declared.nonterminal.Nonterminal.TheVariants as nonterminal;
ghost use Rattle.va_build.specs.Due.{IsDue};
ghost use Rattle.va_build.specs.Reading.{Reads};
ghost use Rattle.va_grammar.specs.Sets.{va_rules};
ghost use Rattle.va_build.specs.SourceOf.{IsSourceOf};
ghost use Rattle.va_build.specs.SourceOf as top_level;

use crate::attributes::attribute_groups;
use crate::disciplines::discipline_of;
use crate::modules::module_of;
use crate::natures::nature;
use crate::reader::Reader;
use predict::ParseTree;
use std::alloc::{AllocError, Global};
use va_base::{Expanded, Items};
use va_grammar::row;
use va_tree::{AttributeGroup, Discipline, Module, Nature, Source};

/// What was read of a text, each sort in the order of the text.
#[derive(Drop)]
pub(crate) struct Found {
    pub natures: Vec<Nature>,
    pub disciplines: Vec<Discipline>,
    pub modules: Vec<Module>,
}

/// A nature, a discipline or a module, behind its attributes.
fn declared_at_top(
    alloc: Global,
    e: &Expanded,
    reader: &mut Reader<'_>,
    attributes: Vec<AttributeGroup>,
    found: &mut Found,
) -> Result<(), AllocError>
    requires expanded { IsExpanded e.now }
    requires due { IsDue nonterminal.TopItemBody reader.old }
    ensures natures { OnOk result (Reads (λ at t. found.old.natures.items ++ top_level.body_of_sort top_level.nature e.now attributes.items at t) reader.old reader.new found.new.natures.items) }
    ensures disciplines { OnOk result (Reads (λ at t. found.old.disciplines.items ++ top_level.body_of_sort top_level.discipline_of e.now attributes.items at t) reader.old reader.new found.new.disciplines.items) }
    ensures modules { OnOk result (Reads (λ at t. found.old.modules.items ++ top_level.body_of_sort top_level.module_of e.now attributes.items at t) reader.old reader.new found.new.modules.items) }
{
    match reader.enter() {
        row::TOP_NATURE => {
            let next = nature(alloc, e, reader, attributes)?;
            found.natures.push(next)?;
            Ok(())
        }
        row::TOP_DISCIPLINE => {
            let next = discipline_of(alloc, e, reader, attributes)?;
            found.disciplines.push(next)?;
            Ok(())
        }
        row::TOP_MODULE => {
            let next = module_of(alloc, e, reader, attributes)?;
            found.modules.push(next)?;
            Ok(())
        }
        _ => unreachable!(),
    }
}

/// A nature, a discipline or a module, with the attributes before it.
fn top_item(
    alloc: Global,
    e: &Expanded,
    reader: &mut Reader<'_>,
    found: &mut Found,
) -> Result<(), AllocError>
    requires expanded { IsExpanded e.now }
    requires due { IsDue nonterminal.TopItem reader.old }
    ensures natures { OnOk result (Reads (λ at t. found.old.natures.items ++ top_level.of_sort top_level.nature e.now at t) reader.old reader.new found.new.natures.items) }
    ensures disciplines { OnOk result (Reads (λ at t. found.old.disciplines.items ++ top_level.of_sort top_level.discipline_of e.now at t) reader.old reader.new found.new.disciplines.items) }
    ensures modules { OnOk result (Reads (λ at t. found.old.modules.items ++ top_level.of_sort top_level.module_of e.now at t) reader.old reader.new found.new.modules.items) }
{
    reader.enter();
    let attributes = attribute_groups(alloc, e, reader)?;
    declared_at_top(alloc, e, reader, attributes, found)?;
    Ok(())
}

/// All natures, disciplines and modules of a text.
fn all_found(alloc: Global, e: &Expanded, reader: &mut Reader<'_>) -> Result<Found, AllocError>
    requires expanded { IsExpanded e.now }
    requires due { IsDue nonterminal.Source reader.old }
    ensures natures { IfOk result (λ v. Reads (top_level.all_of_sort top_level.nature e.now) reader.old reader.new v.natures.items) }
    ensures disciplines { IfOk result (λ v. Reads (top_level.all_of_sort top_level.discipline_of e.now) reader.old reader.new v.disciplines.items) }
    ensures modules { IfOk result (λ v. Reads (top_level.all_of_sort top_level.module_of e.now) reader.old reader.new v.modules.items) }
{
    let mut found = Found {
        natures: Vec::new(alloc),
        disciplines: Vec::new(alloc),
        modules: Vec::new(alloc),
    };
    loop {
        match reader.enter() {
            row::TOP_ITEMS => top_item(alloc, e, reader, &mut found)?,
            row::NO_TOP_ITEMS => return Ok(found),
            _ => unreachable!(),
        }
    }
}

/// The source that a parse tree stands for. The tree is the parse tree of the kinds of `e`.
pub(crate) fn read_source(
    alloc: Global,
    tree: &ParseTree,
    e: &Expanded,
) -> Result<Source, AllocError>
    requires expanded { IsExpanded e.now }
    requires parsed { IsParsed va_rules (kinds_of e.now) tree.now }
    ensures { IfOk result (λ s. IsSourceOf e.now s) }
{
    let mut reader = Reader::new(tree.nodes());
    let found = all_found(alloc, e, &mut reader)?;
    Ok(Source {
        natures: Items::new(found.natures),
        disciplines: Items::new(found.disciplines),
        modules: Items::new(found.modules),
    })
}
