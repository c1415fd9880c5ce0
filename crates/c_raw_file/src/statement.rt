//! Statements without blocks.
ghost use Rattle.std.specs.Prelude.{◌≡◌, IfOk, map};
ghost use Rattle.c_tree.specs.Raw as raw_tree;
ghost use Rattle.c_tree.specs.FileOf.{right_of, simple_of};
ghost use Rattle.c_raw.specs.Blocks.{at_view, right_view, simple_view};

use c_raw::{At, RawRight, RawSimple};
use c_tree::{CAtom, CCallee, CRight, CSimple};
use std::alloc::{AllocError, Global};
use va_base::Items;

/// The arguments of a call.
fn arguments(alloc: Global, raw: &[At<CAtom>]) -> Result<Items<CAtom>, AllocError>
    ensures { IfOk result (λ v. v ≡ map (λ a. raw_tree.At.value a) (map at_view raw.now)) }
{
    let mut list = Vec::new(alloc);
    for element in raw {
        list.push(element.value)?;
    }
    Ok(Items::new(list))
}

fn call(alloc: Global, callee: CCallee, list: &[At<CAtom>]) -> Result<CRight, AllocError>
    ensures { IfOk result (λ v. v ≡ right_of (raw_tree.call callee (map at_view list.now))) }
{
    let args = arguments(alloc, list)?;
    Ok(CRight::Call { callee, args })
}

/// The right side of a constant local.
fn right(alloc: Global, raw: &RawRight) -> Result<CRight, AllocError>
    ensures { IfOk result (λ v. v ≡ right_of (right_view raw.now)) }
{
    match raw {
        RawRight::Same(atom) => Ok(CRight::Same(atom.value)),
        RawRight::Negated(atom) => Ok(CRight::Negated(atom.value)),
        RawRight::Contrary(atom) => Ok(CRight::Contrary(atom.value)),
        RawRight::ToReal(atom) => Ok(CRight::ToReal(atom.value)),
        RawRight::ToInteger(atom) => Ok(CRight::ToInteger(atom.value)),
        RawRight::Call { callee, args } => call(alloc, *callee, args.as_list()),
        RawRight::Binary {
            left,
            operator,
            right,
        } => Ok(CRight::Binary {
            left: left.value,
            operator: *operator,
            right: right.value,
        }),
    }
}

/// A statement without blocks.
pub(crate) fn simple(alloc: Global, raw: &RawSimple) -> Result<CSimple, AllocError>
    ensures { IfOk result (λ v. v ≡ simple_of (simple_view raw.now)) }
{
    match raw {
        RawSimple::Constant {
            ty,
            local,
            right: side,
            ..
        } => {
            let right = right(alloc, side)?;
            Ok(CSimple::Constant {
                ty: *ty,
                local: local.value,
                right,
            })
        }
        RawSimple::Join { ty, local } => Ok(CSimple::Join {
            ty: *ty,
            local: local.value,
        }),
        RawSimple::Head { ty, local, first } => Ok(CSimple::Head {
            ty: *ty,
            local: local.value,
            first: first.value,
        }),
        RawSimple::Assign { local, value } => Ok(CSimple::Assign {
            local: local.value,
            value: value.value,
        }),
        RawSimple::SetCell { cell, value } => Ok(CSimple::SetCell {
            cell: cell.value,
            value: value.value,
        }),
        RawSimple::SetCollapse { pair, value } => Ok(CSimple::SetCollapse {
            pair: pair.value,
            value: value.value,
        }),
        RawSimple::Report { id } => Ok(CSimple::Report { id: id.value }),
    }
}
