//! Reading parameters (Parameters).
//!
//! Each function takes the next tree of the parse tree, and its tokens with it.
ghost use Rattle.std.specs.Prelude.{◌≡◌, ◌⊎◌, [], ◌∷◌, IfOk};
ghost use Rattle.va_base.specs.Expansion.{IsExpanded};
ghost use Rattle.va_grammar.specs.declared.nonterminal.Nonterminal.TheVariants as nonterminal;
ghost use Rattle.va_build.specs.Due.{IsDue, next_row};
ghost use Rattle.va_build.specs.Reading.{Reads};
ghost use Rattle.va_build.specs.SourceItems as source_items;

use crate::ranges::ranges;
use crate::read_expressions::expression;
use crate::read_names::named;
use crate::reader::Reader;
use std::alloc::{AllocError, Global};
use va_base::{Expanded, Items};
use va_grammar::row;
use va_tree::{ItemBody, Parameter, Ty};

/// `real` or `integer`, if it is said.
pub(crate) fn optional_type(reader: &mut Reader<'_>) -> Option<Ty>
    requires due { IsDue nonterminal.OptionalType reader.old }
    ensures { Reads (λ at t. source_items.optional_type t) reader.old reader.new result }
{
    match reader.enter() {
        row::REAL_TYPE => {
            reader.pass();
            Some(Ty::Real)
        }
        row::INTEGER_TYPE => {
            reader.pass();
            Some(Ty::Integer)
        }
        row::NO_TYPE => None,
        _ => unreachable!(),
    }
}

/// A parameter.
fn parameter(alloc: Global, e: &Expanded, reader: &mut Reader<'_>) -> Result<Parameter, AllocError>
    requires expanded { IsExpanded e.now }
    requires due { IsDue nonterminal.ParameterAssignment reader.old }
    ensures { IfOk result (λ v. Reads (source_items.parameter e.now) reader.old reader.new (v ∷ [])) }
{
    reader.enter();
    let name = named(alloc, e, reader)?;
    reader.pass();
    let default = expression(alloc, e, reader)?;
    let list = ranges(alloc, e, reader)?;
    Ok(Parameter {
        name,
        default,
        ranges: Items::new(list),
    })
}

/// A parameter, and those behind it.
fn parameters_behind(
    alloc: Global,
    e: &Expanded,
    reader: &mut Reader<'_>,
    first: Parameter,
) -> Result<Vec<Parameter>, AllocError>
    requires expanded { IsExpanded e.now }
    requires due { IsDue nonterminal.MoreParameterAssignments reader.old }
    ensures { IfOk result (λ v. Reads (λ at t. first ∷ source_items.more_parameters e.now at t) reader.old reader.new v.items) }
{
    let mut list = vec![in alloc; first]?;
    loop {
        match reader.enter() {
            row::MORE_PARAMETERS => {
                reader.pass();
                let next = parameter(alloc, e, reader)?;
                list.push(next)?;
            }
            row::NO_MORE_PARAMETERS => return Ok(list),
            _ => unreachable!(),
        }
    }
}

/// Parameters of one declaration.
fn parameters(
    alloc: Global,
    e: &Expanded,
    reader: &mut Reader<'_>,
) -> Result<Vec<Parameter>, AllocError>
    requires expanded { IsExpanded e.now }
    requires due { IsDue nonterminal.ParameterAssignments reader.old }
    ensures { IfOk result (λ v. Reads (source_items.parameters e.now) reader.old reader.new v.items) }
{
    reader.enter();
    let first = parameter(alloc, e, reader)?;
    let list = parameters_behind(alloc, e, reader, first)?;
    Ok(list)
}

/// Parameters of one type, local or not (Parameters).
pub(crate) fn parameter_item(
    alloc: Global,
    e: &Expanded,
    reader: &mut Reader<'_>,
) -> Result<ItemBody, AllocError>
    requires expanded { IsExpanded e.now }
    requires due { IsDue nonterminal.ItemBody reader.old }
    requires row { (next_row reader.old ≡ 43) ⊎ (next_row reader.old ≡ 44) }
    ensures { IfOk result (λ v. Reads (source_items.item_body e.now) reader.old reader.new (v ∷ [])) }
{
    let row = reader.enter();
    let at = reader.pass();
    let ty = optional_type(reader);
    let list = parameters(alloc, e, reader)?;
    reader.pass();
    let parameters = Items::new(list);
    match row {
        row::PARAMETERS => Ok(ItemBody::Parameters {
            at,
            local: false,
            ty,
            parameters,
        }),
        row::LOCAL_PARAMETERS => Ok(ItemBody::Parameters {
            at,
            local: true,
            ty,
            parameters,
        }),
        _ => unreachable!(),
    }
}
