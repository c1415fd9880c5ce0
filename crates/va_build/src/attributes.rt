//! Reading attributes.
//!
//! Each function takes the next tree of the parse tree, and its tokens with it.
ghost use Rattle.std.specs.Prelude.{◌≡◌, [], ◌∷◌, IfOk};
ghost use Rattle.va_base.specs.Expansion.{IsExpanded};
ghost use Rattle.va_build.specs.AttributeLists.{ReadsGroup};
ghost use Rattle.va_grammar.specs.Rows.{rule, token};
ghost use Rattle.va_grammar.specs.declared.nonterminal.Nonterminal.TheVariants as nonterminal;
ghost use Rattle.va_grammar.specs.declared.terminal.Terminal.TheVariants as terminal;
ghost use Rattle.va_build.specs.Due.{AreDue, IsDue};
ghost use Rattle.va_build.specs.Reading.{Reads};
ghost use Rattle.va_build.specs.SourceItems as source_items;

use crate::read_expressions::argument;
use crate::read_names::name_at;
use crate::reader::Reader;
use std::alloc::{AllocError, Global};
use va_base::{Expanded, Items};
use va_grammar::row;
use va_tree::{Arg, Attribute, AttributeGroup};

/// The value of an attribute, if it has one.
fn attribute_value(
    alloc: Global,
    e: &Expanded,
    reader: &mut Reader<'_>,
) -> Result<Option<Arg>, AllocError>
    requires expanded { IsExpanded e.now }
    requires due { IsDue nonterminal.AttributeValue reader.old }
    ensures { IfOk result (λ v. Reads (source_items.attribute_value e.now) reader.old reader.new v) }
{
    match reader.enter() {
        row::ATTRIBUTE_VALUE => {
            reader.pass();
            let value = argument(alloc, e, reader)?;
            Ok(Some(value))
        }
        row::NO_ATTRIBUTE_VALUE => Ok(None),
        _ => unreachable!(),
    }
}

/// An attribute.
fn attribute(alloc: Global, e: &Expanded, reader: &mut Reader<'_>) -> Result<Attribute, AllocError>
    requires expanded { IsExpanded e.now }
    requires due { IsDue nonterminal.Attribute reader.old }
    ensures { IfOk result (λ v. Reads (source_items.attribute e.now) reader.old reader.new (v ∷ [])) }
{
    reader.enter();
    let at = reader.pass();
    let name = name_at(alloc, e, at)?;
    let value = attribute_value(alloc, e, reader)?;
    Ok(Attribute { at, name, value })
}

/// An attribute, and those behind it.
fn attributes_behind(
    alloc: Global,
    e: &Expanded,
    reader: &mut Reader<'_>,
    first: Attribute,
) -> Result<Vec<Attribute>, AllocError>
    requires expanded { IsExpanded e.now }
    requires due { IsDue nonterminal.MoreAttributes reader.old }
    ensures { IfOk result (λ v. Reads (λ at t. first ∷ source_items.more_attributes e.now at t) reader.old reader.new v.items) }
{
    let mut list = vec![in alloc; first]?;
    loop {
        match reader.enter() {
            row::MORE_ATTRIBUTES => {
                reader.pass();
                let next = attribute(alloc, e, reader)?;
                list.push(next)?;
            }
            row::NO_MORE_ATTRIBUTES => return Ok(list),
            _ => unreachable!(),
        }
    }
}

/// What stands between one `(*` and its `*)`, and both of them.
fn group(alloc: Global, e: &Expanded, reader: &mut Reader<'_>) -> Result<AttributeGroup, AllocError>
    requires expanded { IsExpanded e.now }
    requires due { AreDue (token terminal.AttributeOpen ∷ rule nonterminal.Attribute ∷ rule nonterminal.MoreAttributes ∷ token terminal.AttributeClose ∷ rule nonterminal.Attributes ∷ []) reader.old }
    ensures { IfOk result (ReadsGroup e.now reader.old reader.new) }
{
    reader.pass();
    let first = attribute(alloc, e, reader)?;
    let list = attributes_behind(alloc, e, reader, first)?;
    reader.pass();
    Ok(AttributeGroup {
        attributes: Items::new(list),
    })
}

/// What stands between each `(*` and its `*)`.
pub(crate) fn attribute_groups(
    alloc: Global,
    e: &Expanded,
    reader: &mut Reader<'_>,
) -> Result<Vec<AttributeGroup>, AllocError>
    requires expanded { IsExpanded e.now }
    requires due { IsDue nonterminal.Attributes reader.old }
    ensures { IfOk result (λ v. Reads (source_items.attribute_groups e.now) reader.old reader.new v.items) }
{
    let mut list = Vec::new(alloc);
    loop {
        match reader.enter() {
            row::ATTRIBUTES => {
                let next = group(alloc, e, reader)?;
                list.push(next)?;
            }
            row::NO_ATTRIBUTES => return Ok(list),
            _ => unreachable!(),
        }
    }
}
