//! Reading disciplines (Disciplines).
//!
//! Each function takes the next tree of the parse tree, and its tokens with it.
ghost use Rattle.std.specs.Prelude.{◌≡◌, [], ◌∷◌, IfOk};
ghost use Rattle.va_base.specs.Expansion.{IsExpanded};
ghost use Rattle.va_grammar.specs.declared.nonterminal.Nonterminal.TheVariants as nonterminal;
ghost use Rattle.va_build.specs.Due.{IsDue};
ghost use Rattle.va_build.specs.Reading.{Reads, first_tree, trees};
ghost use Rattle.va_build.specs.SourceOf as top_level;

use crate::natures::semicolon;
use crate::read_expressions::argument;
use crate::read_names::{name_at, named};
use crate::reader::Reader;
use std::alloc::{AllocError, Global};
use va_base::{Expanded, Items};
use va_grammar::row;
use va_tree::{AttributeGroup, Discipline, DisciplineItem, Quantity};

/// What is bound to a potential or a flow, or overridden of it.
fn binding(
    alloc: Global,
    e: &Expanded,
    reader: &mut Reader<'_>,
    start: u32,
    of: Quantity,
) -> Result<DisciplineItem, AllocError>
    requires expanded { IsExpanded e.now }
    requires due { IsDue nonterminal.NatureBinding reader.old }
    ensures { IfOk result (λ v. Reads (top_level.binding e.now start of) reader.old reader.new v) }
{
    match reader.enter() {
        row::BINDING => {
            let nature = named(alloc, e, reader)?;
            reader.pass();
            Ok(DisciplineItem::Binding {
                at: start,
                quantity: of,
                nature,
            })
        }
        row::OVERRIDE => {
            reader.pass();
            let name = named(alloc, e, reader)?;
            reader.pass();
            let value = argument(alloc, e, reader)?;
            reader.pass();
            Ok(DisciplineItem::Override {
                at: start,
                quantity: of,
                name,
                value,
            })
        }
        _ => unreachable!(),
    }
}

/// An item of a discipline.
fn discipline_item(
    alloc: Global,
    e: &Expanded,
    reader: &mut Reader<'_>,
) -> Result<DisciplineItem, AllocError>
    requires expanded { IsExpanded e.now }
    requires due { IsDue nonterminal.DisciplineItem reader.old }
    ensures { IfOk result (λ v. Reads (top_level.discipline_item e.now) reader.old reader.new v) }
{
    match reader.enter() {
        row::POTENTIAL => {
            let start = reader.pass();
            let value = binding(alloc, e, reader, start, Quantity::Potential)?;
            Ok(value)
        }
        row::FLOW => {
            let start = reader.pass();
            let value = binding(alloc, e, reader, start, Quantity::Flow)?;
            Ok(value)
        }
        row::DOMAIN => {
            let at = reader.pass();
            let name = named(alloc, e, reader)?;
            reader.pass();
            Ok(DisciplineItem::Domain { at, name })
        }
        _ => unreachable!(),
    }
}

/// The items of a discipline.
fn discipline_items(
    alloc: Global,
    e: &Expanded,
    reader: &mut Reader<'_>,
) -> Result<Vec<DisciplineItem>, AllocError>
    requires expanded { IsExpanded e.now }
    requires due { IsDue nonterminal.DisciplineItems reader.old }
    ensures { IfOk result (λ v. Reads (top_level.discipline_items e.now) reader.old reader.new v.items) }
{
    let mut list = Vec::new(alloc);
    loop {
        match reader.enter() {
            row::DISCIPLINE_ITEMS => {
                let next = discipline_item(alloc, e, reader)?;
                list.push(next)?;
            }
            row::NO_DISCIPLINE_ITEMS => return Ok(list),
            _ => unreachable!(),
        }
    }
}

/// A discipline (Disciplines), with the attributes before it.
pub(crate) fn discipline_of(
    alloc: Global,
    e: &Expanded,
    reader: &mut Reader<'_>,
    attributes: Vec<AttributeGroup>,
) -> Result<Discipline, AllocError>
    requires expanded { IsExpanded e.now }
    requires due { IsDue nonterminal.DisciplineDeclaration reader.old }
    ensures discipline { IfOk result (λ v. Reads (top_level.discipline_of e.now attributes.items) reader.old reader.new (v ∷ [])) }
    ensures no_nature { IfOk result (λ _. top_level.nature e.now attributes.items reader.old.at (first_tree (trees reader.old)) ≡ []) }
    ensures no_module { IfOk result (λ _. top_level.module_of e.now attributes.items reader.old.at (first_tree (trees reader.old)) ≡ []) }
{
    reader.enter();
    reader.pass();
    let at = reader.pass();
    let name = name_at(alloc, e, at)?;
    semicolon(reader);
    let items = discipline_items(alloc, e, reader)?;
    reader.pass();
    Ok(Discipline {
        attributes: Items::new(attributes),
        at,
        name,
        items: Items::new(items),
    })
}
