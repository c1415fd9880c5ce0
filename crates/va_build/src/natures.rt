//! Reading natures (Natures).
//!
//! Each function takes the next tree of the parse tree, and its tokens with it.
ghost use Rattle.std.specs.Prelude.{◌≡◌, [], ◌∷◌, IfOk};
ghost use Rattle.va_base.specs.Expansion.{IsExpanded};
ghost use Rattle.va_grammar.specs.declared.nonterminal.Nonterminal.TheVariants as nonterminal;
ghost use Rattle.va_build.specs.Due.{IsDue};
ghost use Rattle.va_build.specs.Reading.{Reads, first_tree, trees};
ghost use Rattle.va_build.specs.SourceOf as top_level;

use crate::read_expressions::argument;
use crate::read_names::{name_at, named};
use crate::reader::Reader;
use std::alloc::{AllocError, Global};
use va_base::{Expanded, Items};
use va_grammar::row;
use va_tree::{AttributeGroup, NameAt, Nature, NatureItem};

/// The nature from which another is derived, if any.
fn parent(
    alloc: Global,
    e: &Expanded,
    reader: &mut Reader<'_>,
) -> Result<Option<NameAt>, AllocError>
    requires expanded { IsExpanded e.now }
    requires due { IsDue nonterminal.ParentNature reader.old }
    ensures { IfOk result (λ v. Reads (top_level.parent e.now) reader.old reader.new v) }
{
    match reader.enter() {
        row::PARENT => {
            reader.pass();
            let name = named(alloc, e, reader)?;
            Ok(Some(name))
        }
        row::NO_PARENT => Ok(None),
        _ => unreachable!(),
    }
}

/// A semicolon, if there is one.
pub(crate) fn semicolon(reader: &mut Reader<'_>)
    requires due { IsDue nonterminal.OptionalSemicolon reader.old }
    ensures { Reads {X = Unit {0}} (λ _ _. tt) reader.old reader.new tt }
{
    match reader.enter() {
        row::SEMICOLON => {
            reader.pass();
        }
        row::NO_SEMICOLON => {}
        _ => unreachable!(),
    }
}

/// The items of a nature.
fn nature_items(
    alloc: Global,
    e: &Expanded,
    reader: &mut Reader<'_>,
) -> Result<Vec<NatureItem>, AllocError>
    requires expanded { IsExpanded e.now }
    requires due { IsDue nonterminal.NatureItems reader.old }
    ensures { IfOk result (λ v. Reads (top_level.nature_items e.now) reader.old reader.new v.items) }
{
    let mut list = Vec::new(alloc);
    loop {
        match reader.enter() {
            row::NATURE_ITEMS => {
                let at = reader.pass();
                let name = name_at(alloc, e, at)?;
                reader.pass();
                let value = argument(alloc, e, reader)?;
                reader.pass();
                list.push(NatureItem { at, name, value })?;
            }
            row::NO_NATURE_ITEMS => return Ok(list),
            _ => unreachable!(),
        }
    }
}

/// A nature (Natures), with the attributes before it.
pub(crate) fn nature(
    alloc: Global,
    e: &Expanded,
    reader: &mut Reader<'_>,
    attributes: Vec<AttributeGroup>,
) -> Result<Nature, AllocError>
    requires expanded { IsExpanded e.now }
    requires due { IsDue nonterminal.NatureDeclaration reader.old }
    ensures nature { IfOk result (λ v. Reads (top_level.nature e.now attributes.items) reader.old reader.new (v ∷ [])) }
    ensures no_discipline { IfOk result (λ _. top_level.discipline_of e.now attributes.items reader.old.at (first_tree (trees reader.old)) ≡ []) }
    ensures no_module { IfOk result (λ _. top_level.module_of e.now attributes.items reader.old.at (first_tree (trees reader.old)) ≡ []) }
{
    reader.enter();
    reader.pass();
    let at = reader.pass();
    let name = name_at(alloc, e, at)?;
    let parent = parent(alloc, e, reader)?;
    semicolon(reader);
    let items = nature_items(alloc, e, reader)?;
    reader.pass();
    Ok(Nature {
        attributes: Items::new(attributes),
        at,
        name,
        parent,
        items: Items::new(items),
    })
}
