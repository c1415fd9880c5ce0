//! Reading modules.
//!
//! Each function takes the next tree of the parse tree, and its tokens with it.
ghost use Rattle.std.specs.Prelude.{◌≡◌, [], ◌∷◌, IfOk};
ghost use Rattle.va_base.specs.Expansion.{IsExpanded};
ghost use Rattle.va_grammar.specs.declared.nonterminal.Nonterminal.TheVariants as nonterminal;
ghost use Rattle.va_build.specs.Due.{IsDue};
ghost use Rattle.va_build.specs.Reading.{Reads, first_tree, trees};
ghost use Rattle.va_build.specs.SourceOf as top_level;

use crate::attributes::attribute_groups;
use crate::item_bodies::item_body;
use crate::name_lists::ports;
use crate::read_names::name_at;
use crate::reader::Reader;
use std::alloc::{AllocError, Global};
use va_base::{Expanded, Items};
use va_grammar::row;
use va_tree::{AttributeGroup, Item, Module};

/// An item of a module, with the attributes before it.
fn item(alloc: Global, e: &Expanded, reader: &mut Reader<'_>) -> Result<Item, AllocError>
    requires expanded { IsExpanded e.now }
    requires due { IsDue nonterminal.Item reader.old }
    ensures { IfOk result (λ v. Reads (top_level.item e.now) reader.old reader.new (v ∷ [])) }
{
    reader.enter();
    let attributes = attribute_groups(alloc, e, reader)?;
    let body = item_body(alloc, e, reader)?;
    Ok(Item {
        attributes: Items::new(attributes),
        body,
    })
}

/// The items of a module.
fn items(alloc: Global, e: &Expanded, reader: &mut Reader<'_>) -> Result<Vec<Item>, AllocError>
    requires expanded { IsExpanded e.now }
    requires due { IsDue nonterminal.Items reader.old }
    ensures { IfOk result (λ v. Reads (top_level.items e.now) reader.old reader.new v.items) }
{
    let mut list = Vec::new(alloc);
    loop {
        match reader.enter() {
            row::ITEMS => {
                let next = item(alloc, e, reader)?;
                list.push(next)?;
            }
            row::NO_ITEMS => return Ok(list),
            _ => unreachable!(),
        }
    }
}

/// A module, with the attributes before it.
pub(crate) fn module_of(
    alloc: Global,
    e: &Expanded,
    reader: &mut Reader<'_>,
    attributes: Vec<AttributeGroup>,
) -> Result<Module, AllocError>
    requires expanded { IsExpanded e.now }
    requires due { IsDue nonterminal.ModuleDeclaration reader.old }
    ensures module { IfOk result (λ v. Reads (top_level.module_of e.now attributes.items) reader.old reader.new (v ∷ [])) }
    ensures no_nature { IfOk result (λ _. top_level.nature e.now attributes.items reader.old.at (first_tree (trees reader.old)) ≡ []) }
    ensures no_discipline { IfOk result (λ _. top_level.discipline_of e.now attributes.items reader.old.at (first_tree (trees reader.old)) ≡ []) }
{
    reader.enter();
    reader.pass();
    let at = reader.pass();
    let name = name_at(alloc, e, at)?;
    let ports = ports(alloc, e, reader)?;
    reader.pass();
    let items = items(alloc, e, reader)?;
    reader.pass();
    Ok(Module {
        attributes: Items::new(attributes),
        at,
        name,
        ports: Items::new(ports),
        items: Items::new(items),
    })
}
