//! Reading the items of modules, without their attributes.
//!
//! Each function takes the next tree of the parse tree, and its tokens with it.
ghost use Rattle.std.specs.Prelude.{◌≡◌, ◌⊎◌, [], ◌∷◌, IfOk};
ghost use Rattle.va_base.specs.Expansion.{IsExpanded};
ghost use Rattle.va_build.specs.Directions.{ReadsDirected};
ghost use Rattle.va_grammar.specs.declared.nonterminal.Nonterminal.TheVariants as nonterminal;
ghost use Rattle.va_build.specs.Due.{IsDue, next_row};
ghost use Rattle.va_build.specs.Reading.{Reads};
ghost use Rattle.va_build.specs.SourceItems as source_items;

use crate::functions::analog_item;
use crate::name_lists::names_behind;
use crate::parameters::parameter_item;
use crate::read_names::{name_at, named};
use crate::reader::Reader;
use crate::statement_parts::{declared, second_node, variables};
use std::alloc::{AllocError, Global};
use va_base::{Expanded, Items};
use va_grammar::row;
use va_tree::{Direction, ItemBody, NameAt, Ty};

/// `input`, `output` or `inout`.
fn direction(reader: &mut Reader<'_>) -> Direction
    requires due { IsDue nonterminal.Direction reader.old }
    ensures { Reads (λ at t. source_items.direction t) reader.old reader.new result }
{
    match reader.enter() {
        row::INPUT => {
            reader.pass();
            Direction::Input
        }
        row::OUTPUT => {
            reader.pass();
            Direction::Output
        }
        row::INOUT => {
            reader.pass();
            Direction::Inout
        }
        _ => unreachable!(),
    }
}

/// The ports behind a direction.
#[derive(Drop)]
struct Ports {
    discipline: Option<NameAt>,
    names: Vec<NameAt>,
}

/// What follows the first name of a direction: that name is a discipline where another name comes next.
fn directed(
    alloc: Global,
    e: &Expanded,
    reader: &mut Reader<'_>,
    name: NameAt,
) -> Result<Ports, AllocError>
    requires expanded { IsExpanded e.now }
    requires due { IsDue nonterminal.DirectionTail reader.old }
    ensures { IfOk result (λ v. ReadsDirected e.now name reader.old reader.new v.discipline v.names.items) }
{
    match reader.enter() {
        row::DIRECTED_DISCIPLINE => {
            let first = named(alloc, e, reader)?;
            let names = names_behind(alloc, e, reader, first)?;
            Ok(Ports {
                discipline: Some(name),
                names,
            })
        }
        row::DIRECTED_NAMES => {
            let names = names_behind(alloc, e, reader, name)?;
            Ok(Ports {
                discipline: None,
                names,
            })
        }
        _ => unreachable!(),
    }
}

/// Ports of one direction.
fn direction_item(
    alloc: Global,
    e: &Expanded,
    reader: &mut Reader<'_>,
) -> Result<ItemBody, AllocError>
    requires expanded { IsExpanded e.now }
    requires due { IsDue nonterminal.ItemBody reader.old }
    requires row { next_row reader.old ≡ 40 }
    ensures { IfOk result (λ v. Reads (source_items.item_body e.now) reader.old reader.new (v ∷ [])) }
{
    reader.enter();
    let at = reader.at();
    let direction = direction(reader);
    let name = named(alloc, e, reader)?;
    let ports = directed(alloc, e, reader, name)?;
    reader.pass();
    Ok(ItemBody::Direction {
        at,
        direction,
        discipline: ports.discipline,
        names: Items::new(ports.names),
    })
}

/// Nodes of a discipline.
fn nodes(alloc: Global, e: &Expanded, reader: &mut Reader<'_>) -> Result<ItemBody, AllocError>
    requires expanded { IsExpanded e.now }
    requires due { IsDue nonterminal.ItemBody reader.old }
    requires row { next_row reader.old ≡ 41 }
    ensures { IfOk result (λ v. Reads (source_items.item_body e.now) reader.old reader.new (v ∷ [])) }
{
    reader.enter();
    let at = reader.pass();
    let discipline = name_at(alloc, e, at)?;
    let first = named(alloc, e, reader)?;
    let names = names_behind(alloc, e, reader, first)?;
    reader.pass();
    Ok(ItemBody::Nodes {
        at,
        discipline,
        names: Items::new(names),
    })
}

/// Branches between two nodes, or of one (Branches).
fn branch(alloc: Global, e: &Expanded, reader: &mut Reader<'_>) -> Result<ItemBody, AllocError>
    requires expanded { IsExpanded e.now }
    requires due { IsDue nonterminal.ItemBody reader.old }
    requires row { next_row reader.old ≡ 42 }
    ensures { IfOk result (λ v. Reads (source_items.item_body e.now) reader.old reader.new (v ∷ [])) }
{
    reader.enter();
    let at = reader.pass();
    reader.pass();
    let first = named(alloc, e, reader)?;
    let second = second_node(alloc, e, reader)?;
    reader.pass();
    let name = named(alloc, e, reader)?;
    let names = names_behind(alloc, e, reader, name)?;
    reader.pass();
    Ok(ItemBody::Branch {
        at,
        first,
        second,
        names: Items::new(names),
    })
}

/// An alias of a parameter (Aliasparam).
fn alias(alloc: Global, e: &Expanded, reader: &mut Reader<'_>) -> Result<ItemBody, AllocError>
    requires expanded { IsExpanded e.now }
    requires due { IsDue nonterminal.ItemBody reader.old }
    requires row { next_row reader.old ≡ 45 }
    ensures { IfOk result (λ v. Reads (source_items.item_body e.now) reader.old reader.new (v ∷ [])) }
{
    reader.enter();
    let at = reader.pass();
    let name = named(alloc, e, reader)?;
    reader.pass();
    let target = named(alloc, e, reader)?;
    reader.pass();
    Ok(ItemBody::Alias { at, name, target })
}

/// Variables of one type.
fn variable_item(
    alloc: Global,
    e: &Expanded,
    reader: &mut Reader<'_>,
) -> Result<ItemBody, AllocError>
    requires expanded { IsExpanded e.now }
    requires due { IsDue nonterminal.ItemBody reader.old }
    requires row { (next_row reader.old ≡ 46) ⊎ (next_row reader.old ≡ 47) }
    ensures { IfOk result (λ v. Reads (source_items.item_body e.now) reader.old reader.new (v ∷ [])) }
{
    let row = reader.enter();
    let at = reader.pass();
    let list = variables(alloc, e, reader)?;
    reader.pass();
    match row {
        row::REAL_VARIABLES => Ok(ItemBody::Variables(declared(at, Ty::Real, list))),
        row::INTEGER_VARIABLES => Ok(ItemBody::Variables(declared(at, Ty::Integer, list))),
        _ => unreachable!(),
    }
}

/// An item of a module, without its attributes.
pub(crate) fn item_body(
    alloc: Global,
    e: &Expanded,
    reader: &mut Reader<'_>,
) -> Result<ItemBody, AllocError>
    requires expanded { IsExpanded e.now }
    requires due { IsDue nonterminal.ItemBody reader.old }
    ensures { IfOk result (λ v. Reads (source_items.item_body e.now) reader.old reader.new (v ∷ [])) }
{
    match reader.peek() {
        row::DIRECTION_ITEM => direction_item(alloc, e, reader),
        row::NODES => nodes(alloc, e, reader),
        row::BRANCH => branch(alloc, e, reader),
        row::PARAMETERS => parameter_item(alloc, e, reader),
        row::LOCAL_PARAMETERS => parameter_item(alloc, e, reader),
        row::ALIAS => alias(alloc, e, reader),
        row::REAL_VARIABLES => variable_item(alloc, e, reader),
        row::INTEGER_VARIABLES => variable_item(alloc, e, reader),
        row::ANALOG => analog_item(alloc, e, reader),
        _ => unreachable!(),
    }
}
