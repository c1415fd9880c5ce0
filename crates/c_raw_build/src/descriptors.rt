//! Reading descriptors.
ghost use Rattle.std.specs.Prelude.{IfOk, map, [], ◌∷◌};
ghost use Rattle.c_raw.specs.Views.{descriptor_view};
ghost use Rattle.c_raw_build.specs.Due.{AreDueIn, IsDueIn};
ghost use Rattle.c_raw_build.specs.Nonterminals as nonterminals;
ghost use Rattle.c_raw_build.specs.Reading.{Reads, ReadsElement, row_symbols};
ghost use Rattle.c_raw_build.specs.RawTables as raw;
ghost use Rattle.c_raw_build.specs.RowNumbers.{descriptor_row};

use crate::atoms::placed_number;
use crate::reader::Reader;
use crate::row;
use crate::text::Text;
use c_raw::RawDescriptor;
use std::alloc::{AllocError, Global};
use va_base::Items;

/// The descriptors.
pub(crate) fn descriptors(
    alloc: Global,
    text: &Text<'_>,
    reader: &mut Reader<'_>,
) -> Result<Vec<RawDescriptor>, AllocError>
    requires { IsDueIn text.now (nonterminals.descriptors ∷ []) reader.old }
    ensures { IfOk result (λ v. Reads (raw.descriptors text.now) reader.old reader.new (map descriptor_view v.items)) }
{
    let mut list = Vec::new(alloc);
    loop {
        match reader.row() {
            row::DESCRIPTORS => {
                reader.pass(1);
            }
            row::DESCRIPTOR => {
                let next = descriptor(alloc, text, reader)?;
                list.push(next)?;
            }
            row::NO_DESCRIPTOR => {
                reader.pass(2);
                return Ok(list);
            }
            _ => unreachable!(),
        }
    }
}

/// A descriptor, whose row was taken, up to those behind it.
fn descriptor(
    alloc: Global,
    text: &Text<'_>,
    reader: &mut Reader<'_>,
) -> Result<RawDescriptor, AllocError>
    requires { AreDueIn text.now (row_symbols descriptor_row) reader.old }
    ensures read { IfOk result (λ v. ReadsElement descriptor_row (raw.descriptor text.now) reader.old reader.new (descriptor_view v)) }
    ensures due { IfOk result (λ _. IsDueIn text.now (nonterminals.descriptors ∷ []) reader.new) }
{
    let first = reader.at();
    reader.pass(2);
    let name = text.string(alloc, reader.at())?;
    reader.pass(4);
    let num_nodes = placed_number(text, reader);
    reader.pass(3);
    let num_terminals = placed_number(text, reader);
    reader.pass(7);
    let num_entries = placed_number(text, reader);
    reader.pass(7);
    let num_collapsible = placed_number(text, reader);
    reader.pass(24);
    let num_params = placed_number(text, reader);
    reader.pass(3);
    let num_instance_params = placed_number(text, reader);
    reader.pass(3);
    let num_opvars = placed_number(text, reader);
    reader.pass(106);
    let numbers = text.module_numbers(alloc, first, reader.at())?;
    Ok(RawDescriptor {
        numbers: Items::new(numbers),
        name,
        num_nodes,
        num_terminals,
        num_entries,
        num_collapsible,
        num_params,
        num_instance_params,
        num_opvars,
    })
}
