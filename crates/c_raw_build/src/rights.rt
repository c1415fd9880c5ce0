//! Reading right sides.
ghost use Rattle.std.specs.Prelude.{IfOk, map, [], ◌∷◌};
ghost use Rattle.c_raw.specs.Blocks.{at_view, right_view};
ghost use Rattle.c_raw_build.specs.Due.{IsDueIn};
ghost use Rattle.c_raw_build.specs.Nonterminals as nonterminals;
ghost use Rattle.c_raw_build.specs.Reading.{Reads};
ghost use Rattle.c_raw_build.specs.RawAtoms as raw;

use crate::atoms::{callee, operator, placed_atom};
use crate::reader::Reader;
use crate::row;
use crate::text::Text;
use c_raw::{At, RawRight};
use c_tree::CAtom;
use std::alloc::{AllocError, Global};
use va_base::Items;

/// The arguments of a call.
fn values(
    alloc: Global,
    text: &Text<'_>,
    reader: &mut Reader<'_>,
) -> Result<Vec<At<CAtom>>, AllocError>
    requires { IsDueIn text.now (nonterminals.values ∷ []) reader.old }
    ensures { IfOk result (λ v. Reads (raw.values text.now) reader.old reader.new (map at_view v.items)) }
{
    let mut list = Vec::new(alloc);
    loop {
        match reader.row() {
            row::VALUES => {
                let first = placed_atom(text, reader);
                list.push(first)?;
            }
            row::MORE_VALUES => {
                reader.pass(1);
                let next = placed_atom(text, reader);
                list.push(next)?;
            }
            row::NO_VALUES => return Ok(list),
            row::NO_MORE_VALUES => return Ok(list),
            _ => unreachable!(),
        }
    }
}

/// An operator and its right operand behind a left one, if they stand there.
fn operation(text: &Text<'_>, reader: &mut Reader<'_>, left: At<CAtom>) -> RawRight
    requires { IsDueIn text.now (nonterminals.operation ∷ []) reader.old }
    ensures { Reads (raw.operation text.now (at_view left)) reader.old reader.new (right_view result) }
{
    match reader.row() {
        row::OPERATION => {
            let operator = operator(reader);
            let right = placed_atom(text, reader);
            RawRight::Binary {
                left,
                operator,
                right,
            }
        }
        row::NO_OPERATION => RawRight::Same(left),
        _ => unreachable!(),
    }
}

/// A conversion, behind its first bracket.
fn conversion(text: &Text<'_>, reader: &mut Reader<'_>) -> RawRight
    requires { IsDueIn text.now (nonterminals.conversion ∷ []) reader.old }
    ensures { Reads (raw.conversion text.now) reader.old reader.new (right_view result) }
{
    match reader.row() {
        row::TO_REAL => {
            reader.pass(2);
            let value = placed_atom(text, reader);
            RawRight::ToReal(value)
        }
        row::TO_INTEGER => {
            reader.pass(4);
            let value = placed_atom(text, reader);
            reader.pass(1);
            RawRight::ToInteger(value)
        }
        _ => unreachable!(),
    }
}

/// A right side.
pub(crate) fn right(
    alloc: Global,
    text: &Text<'_>,
    reader: &mut Reader<'_>,
) -> Result<RawRight, AllocError>
    requires { IsDueIn text.now (nonterminals.right ∷ []) reader.old }
    ensures { IfOk result (λ v. Reads (raw.right_of text.now) reader.old reader.new (right_view v)) }
{
    match reader.row() {
        row::NEGATED => {
            reader.pass(1);
            let value = placed_atom(text, reader);
            Ok(RawRight::Negated(value))
        }
        row::CONTRARY => {
            reader.pass(1);
            let value = placed_atom(text, reader);
            Ok(RawRight::Contrary(value))
        }
        row::CONVERTED => {
            reader.pass(1);
            let value = conversion(text, reader);
            Ok(value)
        }
        row::CALLED => {
            let callee = callee(text, reader);
            reader.pass(1);
            let args = values(alloc, text, reader)?;
            reader.pass(1);
            Ok(RawRight::Call {
                callee,
                args: Items::new(args),
            })
        }
        row::OPERANDS => {
            let left = placed_atom(text, reader);
            let value = operation(text, reader, left);
            Ok(value)
        }
        _ => unreachable!(),
    }
}
