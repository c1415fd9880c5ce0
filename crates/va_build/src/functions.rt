//! Reading analog blocks and functions (Analog procedural block, User-defined analog functions).
//!
//! Each function takes the next tree of the parse tree, and its tokens with it.
ghost use Rattle.std.specs.Prelude.{◌≡◌, [], ◌∷◌, IfOk};
ghost use Rattle.va_base.specs.Expansion.{IsExpanded};
ghost use Rattle.va_grammar.specs.declared.nonterminal.Nonterminal.TheVariants as nonterminal;
ghost use Rattle.va_build.specs.Due.{IsDue, next_row};
ghost use Rattle.va_build.specs.Reading.{Reads};
ghost use Rattle.va_build.specs.SourceItems as source_items;

use crate::name_lists::names_behind;
use crate::parameters::optional_type;
use crate::read_names::named;
use crate::read_statements::one_statement;
use crate::reader::Reader;
use std::alloc::{AllocError, Global};
use va_base::{Expanded, Items};
use va_grammar::row;
use va_tree::{FunctionItem, ItemBody, Ty};

/// Inputs or variables of a function, behind the word that begins their declaration.
fn function_names(
    alloc: Global,
    e: &Expanded,
    reader: &mut Reader<'_>,
) -> Result<FunctionItem, AllocError>
    requires expanded { IsExpanded e.now }
    requires due { IsDue nonterminal.FunctionItem reader.old }
    ensures { IfOk result (λ v. Reads (source_items.function_item e.now) reader.old reader.new (v ∷ [])) }
{
    let row = reader.enter();
    let at = reader.pass();
    let first = named(alloc, e, reader)?;
    let list = names_behind(alloc, e, reader, first)?;
    reader.pass();
    let names = Items::new(list);
    match row {
        row::FUNCTION_INPUT => Ok(FunctionItem::Input { at, names }),
        row::FUNCTION_REAL => Ok(FunctionItem::Variables {
            at,
            ty: Ty::Real,
            names,
        }),
        row::FUNCTION_INTEGER => Ok(FunctionItem::Variables {
            at,
            ty: Ty::Integer,
            names,
        }),
        _ => unreachable!(),
    }
}

/// The declarations of a function.
fn function_items(
    alloc: Global,
    e: &Expanded,
    reader: &mut Reader<'_>,
) -> Result<Vec<FunctionItem>, AllocError>
    requires expanded { IsExpanded e.now }
    requires due { IsDue nonterminal.FunctionItems reader.old }
    ensures { IfOk result (λ v. Reads (source_items.function_items e.now) reader.old reader.new v.items) }
{
    let mut list = Vec::new(alloc);
    loop {
        match reader.enter() {
            row::FUNCTION_ITEMS => {
                let next = function_names(alloc, e, reader)?;
                list.push(next)?;
            }
            row::NO_FUNCTION_ITEMS => return Ok(list),
            _ => unreachable!(),
        }
    }
}

/// A function (User-defined analog functions), or an analog block, behind the word `analog`.
fn analog(
    alloc: Global,
    e: &Expanded,
    reader: &mut Reader<'_>,
    start: u32,
) -> Result<ItemBody, AllocError>
    requires expanded { IsExpanded e.now }
    requires due { IsDue nonterminal.AnalogItem reader.old }
    ensures { IfOk result (λ v. Reads (source_items.analog e.now start) reader.old reader.new v) }
{
    match reader.enter() {
        row::FUNCTION => {
            reader.pass();
            let ty = optional_type(reader);
            let name = named(alloc, e, reader)?;
            reader.pass();
            let list = function_items(alloc, e, reader)?;
            let body = one_statement(alloc, e, reader)?;
            reader.pass();
            Ok(ItemBody::Function {
                at: start,
                ty,
                name,
                items: Items::new(list),
                body,
            })
        }
        row::ANALOG_STATEMENT => {
            let body = one_statement(alloc, e, reader)?;
            Ok(ItemBody::Analog { at: start, body })
        }
        _ => unreachable!(),
    }
}

/// An analog block or function.
pub(crate) fn analog_item(
    alloc: Global,
    e: &Expanded,
    reader: &mut Reader<'_>,
) -> Result<ItemBody, AllocError>
    requires expanded { IsExpanded e.now }
    requires due { IsDue nonterminal.ItemBody reader.old }
    requires row { next_row reader.old ≡ 48 }
    ensures { IfOk result (λ v. Reads (source_items.item_body e.now) reader.old reader.new (v ∷ [])) }
{
    reader.enter();
    let start = reader.pass();
    let body = analog(alloc, e, reader, start)?;
    Ok(body)
}
