//! The types of calls, by those of their arguments.
ghost use Rattle.std.specs.Prelude.{◌≡◌, if◌then◌else◌};
ghost use Rattle.alg_laws.specs.declared.number.Ty.TheVariants.{Real};
ghost use Rattle.va_sem.specs.Builtins.{builtin_at as row_of};
ghost use Rattle.va_sem.specs.Typing as typing;

use crate::table::Table;
use alg_laws::Ty;
use va_base::Name;
use va_sem::builtin::{builtin_at, system_name};
use va_sem::{Builtin, Meaning, SystemName};
use va_tree::Callee;

fn builtin_type(builtin: Option<Builtin>, arguments: &[Option<Ty>]) -> Ty
    ensures { result ≡ typing.type_of_builtin builtin arguments.now }
{
    match builtin {
        None => Ty::Real,
        Some(function) => function.answer_type(arguments),
    }
}

fn fitting_builtin_type(fit: bool, row: u32, arguments: &[Option<Ty>]) -> Ty
    ensures { result ≡ (if fit then typing.type_of_builtin (row_of row) arguments.now else Real) }
{
    if fit {
        builtin_type(builtin_at(row), arguments)
    } else {
        Ty::Real
    }
}

fn called_type(table: &Table, fit: bool, arguments: &[Option<Ty>], meaning: Option<Meaning>) -> Ty
    ensures { result ≡ typing.type_of_called table.now fit arguments.now meaning }
{
    match meaning {
        Some(Meaning::Builtin(row)) => fitting_builtin_type(fit, row, arguments),
        Some(Meaning::Function(function)) => table.result_type(function),
        _ => Ty::Real,
    }
}

fn system_type(fit: bool, arguments: &[Option<Ty>], name: Option<SystemName>) -> Ty
    ensures { result ≡ typing.type_of_system fit arguments.now name }
{
    match name {
        Some(SystemName::Function(function)) => {
            if fit {
                function.answer_type(arguments)
            } else {
                Ty::Real
            }
        }
        _ => Ty::Real,
    }
}

/// The type of the call at a token, by whether its arguments fit, and by their types. A string has none.
pub fn call_type(
    table: &Table,
    at: u32,
    callee: Callee,
    name: &Name,
    fit: bool,
    arguments: &[Option<Ty>],
) -> Ty
    ensures { result ≡ typing.type_of_call table.now at callee name.now fit arguments.now }
{
    match callee {
        Callee::Function => called_type(table, fit, arguments, table.meaning(at)),
        Callee::System => system_type(fit, arguments, system_name(name.as_bytes())),
    }
}
