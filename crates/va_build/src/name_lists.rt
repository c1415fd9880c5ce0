//! Reading lists of names.
//!
//! Each function takes the next tree of the parse tree, and its tokens with it.
ghost use Rattle.std.specs.Prelude.{◌∷◌, IfOk};
ghost use Rattle.va_base.specs.Expansion.{IsExpanded};
ghost use Rattle.va_grammar.specs.declared.nonterminal.Nonterminal.TheVariants as nonterminal;
ghost use Rattle.va_build.specs.Due.{IsDue};
ghost use Rattle.va_build.specs.Reading.{Reads};
ghost use Rattle.va_build.specs.SourceItems as source_items;
ghost use Rattle.va_build.specs.SourceOf as top_level;

use crate::read_names::named;
use crate::reader::Reader;
use std::alloc::{AllocError, Global};
use va_base::Expanded;
use va_grammar::row;
use va_tree::NameAt;

/// A name, and those behind it.
pub(crate) fn names_behind(
    alloc: Global,
    e: &Expanded,
    reader: &mut Reader<'_>,
    first: NameAt,
) -> Result<Vec<NameAt>, AllocError>
    requires expanded { IsExpanded e.now }
    requires due { IsDue nonterminal.MoreNames reader.old }
    ensures { IfOk result (λ v. Reads (λ at t. first ∷ source_items.more_names e.now at t) reader.old reader.new v.items) }
{
    let mut list = vec![in alloc; first]?;
    loop {
        match reader.enter() {
            row::MORE_NAMES => {
                reader.pass();
                let next = named(alloc, e, reader)?;
                list.push(next)?;
            }
            row::NO_MORE_NAMES => return Ok(list),
            _ => unreachable!(),
        }
    }
}

/// The names of ports, if there are any.
fn port_list(
    alloc: Global,
    e: &Expanded,
    reader: &mut Reader<'_>,
) -> Result<Vec<NameAt>, AllocError>
    requires expanded { IsExpanded e.now }
    requires due { IsDue nonterminal.PortList reader.old }
    ensures { IfOk result (λ v. Reads (top_level.port_list e.now) reader.old reader.new v.items) }
{
    match reader.enter() {
        row::PORT_LIST => {
            let first = named(alloc, e, reader)?;
            let list = names_behind(alloc, e, reader, first)?;
            Ok(list)
        }
        row::NO_PORT_LIST => Ok(Vec::new(alloc)),
        _ => unreachable!(),
    }
}

/// The ports of a module, if it lists any.
pub(crate) fn ports(
    alloc: Global,
    e: &Expanded,
    reader: &mut Reader<'_>,
) -> Result<Vec<NameAt>, AllocError>
    requires expanded { IsExpanded e.now }
    requires due { IsDue nonterminal.Ports reader.old }
    ensures { IfOk result (λ v. Reads (top_level.ports e.now) reader.old reader.new v.items) }
{
    match reader.enter() {
        row::PORTS => {
            reader.pass();
            let list = port_list(alloc, e, reader)?;
            reader.pass();
            Ok(list)
        }
        row::NO_PORTS => Ok(Vec::new(alloc)),
        _ => unreachable!(),
    }
}
