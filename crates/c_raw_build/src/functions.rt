//! Reading functions, and the access function behind them.
ghost use Rattle.std.specs.Prelude.{◌≡◌, IfOk, true, map, [], ◌∷◌};
ghost use Rattle.std.specs.List.{list_all};
ghost use Rattle.c_raw.specs.Blocks.{is_body};
ghost use Rattle.c_raw.specs.Views.{function_view, access_view};
ghost use Rattle.c_raw.specs.declared.file.RawFunction as spec_function;
ghost use Rattle.c_raw_build.specs.Due.{AreDueIn, IsDueIn};
ghost use Rattle.c_raw_build.specs.Nonterminals as nonterminals;
ghost use Rattle.c_raw_build.specs.Reading.{Reads, ReadsElement, row_symbols, next_tree};
ghost use Rattle.c_raw_build.specs.RawFiles as raw;
ghost use Rattle.c_raw_build.specs.RowNumbers.{function_row};

use crate::atoms::{placed_atom, ty};
use crate::bodies::{closed, statements};
use crate::headers::{instance, model};
use crate::reader::Reader;
use crate::row;
use crate::structs::{access_rows, arguments};
use crate::text::Text;
use c_raw::{At, RawAccess, RawFunction};
use std::alloc::{AllocError, Global};
use va_base::Items;

/// A function, whose row was taken, up to what stands behind it.
fn function(
    alloc: Global,
    text: &Text<'_>,
    reader: &mut Reader<'_>,
) -> Result<RawFunction, AllocError>
    requires { AreDueIn text.now (row_symbols function_row) reader.old }
    ensures read { IfOk result (λ v. ReadsElement function_row (raw.function text.now) reader.old reader.new (function_view v)) }
    ensures due { IfOk result (λ _. IsDueIn text.now (nonterminals.functions ∷ []) reader.new) }
    ensures body { IfOk result (λ v. is_body v.body ≡ true) }
{
    let result = ty(reader);
    let at = reader.at();
    let value = text.function(at);
    reader.pass(2);
    let arguments = arguments(alloc, text, reader)?;
    reader.pass(2);
    let list = statements(alloc, text, reader)?;
    reader.pass(1);
    let returned = placed_atom(text, reader);
    reader.pass(1);
    let body = closed(list, reader.at())?;
    reader.pass(1);
    Ok(RawFunction {
        number: At { at, value },
        result,
        arguments: Items::new(arguments),
        body: Items::new(body),
        value: returned,
    })
}

/// The functions of a module, and the rows of its access function.
#[derive(Drop)]
pub(crate) struct Functions {
    pub functions: Vec<RawFunction>,
    pub access: Vec<RawAccess>,
}

/// The functions of a module, and the access function behind them.
pub(crate) fn all_functions(
    alloc: Global,
    text: &Text<'_>,
    reader: &mut Reader<'_>,
) -> Result<Functions, AllocError>
    requires { IsDueIn text.now (nonterminals.functions ∷ []) reader.old }
    ensures read { IfOk result (λ v. Reads (raw.functions text.now) reader.old reader.new (map function_view v.functions.items)) }
    ensures access { IfOk result (λ v. map access_view v.access.items ≡ raw.access text.now (next_tree reader.old)) }
    ensures bodies { IfOk result (λ v. list_all (λ f. is_body (spec_function.RawFunction.body f)) v.functions.items ≡ true) }
{
    let mut list = Vec::new(alloc);
    loop {
        match reader.row() {
            row::FUNCTIONS => {
                reader.pass(1);
            }
            row::FUNCTION => {
                let next = function(alloc, text, reader)?;
                list.push(next)?;
            }
            row::ACCESS => {
                reader.pass(19);
                instance(reader);
                model(reader);
                let access = access_rows(alloc, text, reader)?;
                reader.pass(4);
                return Ok(Functions {
                    functions: list,
                    access,
                });
            }
            _ => unreachable!(),
        }
    }
}
