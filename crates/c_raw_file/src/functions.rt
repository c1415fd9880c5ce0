//! Functions, and the access function.
ghost use Rattle.std.specs.Prelude.{◌≡◌, IfOk, map, true};
ghost use Rattle.std.specs.List.{list_all};
ghost use Rattle.c_tree.specs.FileOf.{access_row, flag_of, function_of};
ghost use Rattle.c_raw.specs.Blocks.{is_body};
ghost use Rattle.c_raw.specs.Views.{access_view, argument_view, flag_view, function_view};
ghost use Rattle.c_raw.specs.declared.file.RawFunction as spec_function;
ghost use Rattle.c_raw_file.specs.Parts.{argument_of};

use crate::bodies::body_of;
use c_raw::{At, RawAccess, RawArgument, RawFunction};
use c_tree::{AccessRow, CArgument, CCell, CFunction};
use std::alloc::{AllocError, Global};
use va_base::Items;

fn argument(raw: &RawArgument) -> CArgument
    ensures { result ≡ argument_of (argument_view raw.now) }
{
    CArgument {
        ty: raw.ty,
        number: raw.number.value,
    }
}

fn arguments(alloc: Global, raw: &[RawArgument]) -> Result<Items<CArgument>, AllocError>
    ensures { IfOk result (λ v. v ≡ map argument_of (map argument_view raw.now)) }
{
    let mut list = Vec::new(alloc);
    for element in raw {
        list.push(argument(element))?;
    }
    Ok(Items::new(list))
}

fn function(alloc: Global, raw: &RawFunction) -> Result<CFunction, AllocError>
    requires { is_body raw.now.body ≡ true }
    ensures { IfOk result (λ v. v ≡ function_of (function_view raw.now)) }
{
    let arguments = arguments(alloc, raw.arguments.as_list())?;
    let body = body_of(alloc, raw.body.as_list())?;
    Ok(CFunction {
        result: raw.result,
        arguments,
        body,
        value: raw.value.value,
    })
}

/// The functions of a module.
pub(crate) fn functions(alloc: Global, raw: &[RawFunction]) -> Result<Items<CFunction>, AllocError>
    requires { list_all (λ f. is_body (spec_function.RawFunction.body f)) raw.now ≡ true }
    ensures { IfOk result (λ v. v ≡ map function_of (map function_view raw.now)) }
{
    let mut list = Vec::new(alloc);
    for element in raw {
        list.push(function(alloc, element)?)?;
    }
    Ok(Items::new(list))
}

/// The cell that is marked where a row's cell is set.
fn flag(raw: Option<At<CCell>>) -> Option<CCell>
    ensures { result ≡ flag_of (flag_view raw) }
{
    match raw {
        Some(cell) => Some(cell.value),
        None => None,
    }
}

fn row(raw: &RawAccess) -> AccessRow
    ensures { result ≡ access_row (access_view raw.now) }
{
    AccessRow {
        id: raw.id.value,
        instance: raw.instance,
        flag: flag(raw.flag),
        cell: raw.cell.value,
    }
}

/// The rows of the access function.
pub(crate) fn access(alloc: Global, raw: &[RawAccess]) -> Result<Items<AccessRow>, AllocError>
    ensures { IfOk result (λ v. v ≡ map access_row (map access_view raw.now)) }
{
    let mut list = Vec::new(alloc);
    for element in raw {
        list.push(row(element))?;
    }
    Ok(Items::new(list))
}
