//! The types and faults of an expression and of those in it.
ghost use Rattle.std.specs.Prelude.{[], IfOk};
ghost use Rattle.va_tree.specs.Expressions.{expression_of, arguments_of};
ghost use Rattle.va_tree.specs.Preorder.{expressions_in, expressions_in_arguments};
ghost use Rattle.va_sem.specs.LookedAt as looked;
ghost use Rattle.va_sem.specs.Typing.{all_real};
ghost use Rattle.va_types.specs.Found.{Finds, IsRead, AreRead, IsArgumentRead, in_argument};

use crate::arguments::call_looks;
use crate::calls::call_type;
use crate::found::Found;
use crate::kinds::note_call;
use crate::operators::{binary_type, either_type, is_real_remainder, literal_type, unary_type};
use crate::table::Table;
use alg_laws::Ty;
use std::alloc::{AllocError, Global};
use va_base::{FaultCode, Name};
use va_tree::{Arg, Callee, Expr};

/// Adds an expression that isn't looked at, and those in it: they are real.
#[cycle(skip)]
pub fn skip(e: &Expr, found: &mut Found) -> Result<(), AllocError>
    ensures { IfOk result (λ done. Finds (all_real (expressions_in (expression_of e.now))) [] found.old found.new) }
{
    found.add(Ty::Real)?;
    match e {
        Expr::Literal { .. } => Ok(()),
        Expr::Inf { .. } => Ok(()),
        Expr::Name { .. } => Ok(()),
        Expr::Group { inner, .. } => {
            let done = skip(inner.get(), found)?;
            Ok(done)
        }
        Expr::Unary { operand, .. } => {
            let done = skip(operand.get(), found)?;
            Ok(done)
        }
        Expr::Binary { left, right, .. } => {
            skip(left.get(), found)?;
            let done = skip(right.get(), found)?;
            Ok(done)
        }
        Expr::Choose { test, yes, no, .. } => {
            skip(test.get(), found)?;
            skip(yes.get(), found)?;
            let done = skip(no.get(), found)?;
            Ok(done)
        }
        Expr::Call { args, .. } => {
            let done = skip_args(args.as_slice(), found)?;
            Ok(done)
        }
    }
}

/// The same of arguments.
#[cycle(skip)]
pub fn skip_args(args: &[Arg], found: &mut Found) -> Result<(), AllocError>
    ensures { IfOk result (λ done. Finds (all_real (expressions_in_arguments (arguments_of args.now))) [] found.old found.new) }
{
    for arg in args {
        skip_arg(arg, found)?;
    }
    Ok(())
}

#[cycle(skip)]
fn skip_arg(arg: &Arg, found: &mut Found) -> Result<(), AllocError>
    ensures { IfOk result (λ done. Finds (all_real (in_argument arg.now)) [] found.old found.new) }
{
    match arg {
        Arg::Text(_) => Ok(()),
        Arg::Expr(e) => {
            let done = skip(e, found)?;
            Ok(done)
        }
    }
}

/// Notes the faults of an expression that is looked at and of those in it, adds their types, and answers its own.
#[cycle(read)]
pub fn read(e: &Expr, alloc: Global, table: &Table, found: &mut Found) -> Result<Ty, AllocError>
    ensures { IfOk result (IsRead table.now (expression_of e.now) found.old found.new) }
{
    let place = found.open()?;
    match e {
        Expr::Literal { integer, .. } => Ok(found.close(place, literal_type(*integer))),
        Expr::Inf { .. } => Ok(found.close(place, Ty::Real)),
        Expr::Name { at, .. } => Ok(found.close(place, table.type_of_name(table.meaning(*at)))),
        Expr::Group { inner, .. } => {
            let ty = read(inner.get(), alloc, table, found)?;
            Ok(found.close(place, ty))
        }
        Expr::Unary { op, operand, .. } => {
            let ty = read(operand.get(), alloc, table, found)?;
            Ok(found.close(place, unary_type(*op, ty)))
        }
        Expr::Binary {
            at,
            left,
            op,
            right,
        } => {
            let a = read(left.get(), alloc, table, found)?;
            let b = read(right.get(), alloc, table, found)?;
            found.note_if(is_real_remainder(*op, a, b), *at, FaultCode::RealOperand);
            Ok(found.close(place, binary_type(*op, a, b)))
        }
        Expr::Choose { test, yes, no, .. } => {
            let _test = read(test.get(), alloc, table, found)?;
            let a = read(yes.get(), alloc, table, found)?;
            let b = read(no.get(), alloc, table, found)?;
            Ok(found.close(place, either_type(a, b)))
        }
        Expr::Call {
            at,
            callee,
            name,
            args,
        } => {
            let args = args.as_slice();
            let fit = note_call(args, *at, *callee, name, table, found);
            let types = read_args(args, alloc, *callee, name, table, found)?;
            let ty = call_type(table, *at, *callee, name, fit, types.as_slice());
            Ok(found.close(place, ty))
        }
    }
}

/// The same of the arguments of a call. Those that aren't looked at are real and have no faults.
#[cycle(read)]
fn read_args(
    args: &[Arg],
    alloc: Global,
    callee: Callee,
    name: &Name,
    table: &Table,
    found: &mut Found,
) -> Result<Vec<Option<Ty>>, AllocError>
    ensures { IfOk result (λ types. AreRead table.now (looked.call_looks callee name.now) (arguments_of args.now) found.old found.new types.items) }
{
    let mut types = Vec::new(alloc);
    for (place, arg) in args.iter().enumerate() {
        let ty = read_arg(arg, alloc, call_looks(callee, name, place), table, found)?;
        types.push(ty)?;
    }
    Ok(types)
}

/// An argument, that is looked at or not.
#[cycle(read)]
fn read_arg(
    arg: &Arg,
    alloc: Global,
    looks: bool,
    table: &Table,
    found: &mut Found,
) -> Result<Option<Ty>, AllocError>
    ensures { IfOk result (IsArgumentRead table.now looks arg.now found.old found.new) }
{
    match arg {
        Arg::Text(_) => Ok(None),
        Arg::Expr(e) => {
            if looks {
                let ty = read(e, alloc, table, found)?;
                Ok(Some(ty))
            } else {
                skip(e, found)?;
                Ok(Some(Ty::Real))
            }
        }
    }
}
