//! Which arguments calls take (Mathematical functions, Environment parameter functions, User-defined analog functions).
ghost use Rattle.std.specs.Prelude.{◌≡◌, ◌&&◌, Some, length};
ghost use Rattle.va_tree.specs.Expressions.{expression_of, arguments_of};
ghost use Rattle.va_sem.specs.Builtins.{taken_at, taken_by_name, taken_by, string_fits as string_may_stand, system_name_of};
ghost use Rattle.va_sem.specs.LookedAt as looked;
ghost use Rattle.va_sem.specs.Typing as typing;

use crate::table::Table;
use va_base::Name;
use va_sem::builtin::{builtin_at, system_name};
use va_sem::{Builtin, Meaning, SystemFunction, SystemName};
use va_tree::{Arg, Callee, Expr};

fn builtin_takes(builtin: Option<Builtin>, count: usize) -> bool
    ensures { result ≡ typing.builtin_takes builtin count }
{
    match builtin {
        None => true,
        Some(function) => function.takes(count),
    }
}

fn meaning_takes(table: &Table, meaning: Option<Meaning>, count: usize) -> bool
    ensures { result ≡ typing.meaning_takes table.now meaning count }
{
    match meaning {
        Some(Meaning::Builtin(row)) => builtin_takes(builtin_at(row), count),
        Some(Meaning::Function(function)) => table.argument_count(function) == count,
        _ => true,
    }
}

fn system_name_takes(name: Option<SystemName>, count: usize) -> bool
    ensures { result ≡ typing.system_name_takes name count }
{
    match name {
        Some(SystemName::Function(function)) => function.takes(count),
        _ => true,
    }
}

/// Whether the call at a token takes so many arguments.
pub fn call_takes(table: &Table, at: u32, callee: Callee, name: &Name, count: usize) -> bool
    ensures { result ≡ typing.call_takes table.now at callee name.now count }
{
    match callee {
        Callee::Function => meaning_takes(table, table.meaning(at), count),
        Callee::System => system_name_takes(system_name(name.as_bytes()), count),
    }
}

fn means_access(meaning: Option<Meaning>) -> bool
    ensures { result ≡ typing.means_access meaning }
{
    match meaning {
        Some(Meaning::Access { .. }) => true,
        _ => false,
    }
}

fn means_parameter(meaning: Option<Meaning>) -> bool
    ensures { result ≡ typing.means_parameter meaning }
{
    match meaning {
        Some(Meaning::Param(_)) => true,
        _ => false,
    }
}

/// Whether an expression is an access and no more.
fn is_access_call(table: &Table, e: &Expr) -> bool
    ensures { result ≡ typing.is_access_call table.now.uses (expression_of e.now) }
{
    match e {
        Expr::Literal { .. } => false,
        Expr::Inf { .. } => false,
        Expr::Name { .. } => false,
        Expr::Group { .. } => false,
        Expr::Unary { .. } => false,
        Expr::Binary { .. } => false,
        Expr::Choose { .. } => false,
        Expr::Call { at, callee, .. } => match callee {
            Callee::Function => means_access(table.meaning(*at)),
            Callee::System => false,
        },
    }
}

/// Whether an expression is the bare name of a parameter.
fn is_parameter_name(table: &Table, e: &Expr) -> bool
    ensures { result ≡ typing.is_parameter_name table.now.uses (expression_of e.now) }
{
    match e {
        Expr::Literal { .. } => false,
        Expr::Inf { .. } => false,
        Expr::Name { at, .. } => means_parameter(table.meaning(*at)),
        Expr::Group { .. } => false,
        Expr::Unary { .. } => false,
        Expr::Binary { .. } => false,
        Expr::Choose { .. } => false,
        Expr::Call { .. } => false,
    }
}

fn function_takes_string(function: SystemFunction, place: usize) -> bool
    ensures { result ≡ string_may_stand (taken_by function place) }
{
    match function {
        SystemFunction::Temperature => false,
        SystemFunction::ThermalVoltage => false,
        SystemFunction::Limit => place != 0,
        SystemFunction::SimParam => place == 0,
        SystemFunction::ParamGiven => false,
    }
}

fn named_takes_string(name: Option<SystemName>, place: usize) -> bool
    ensures { result ≡ string_may_stand (taken_by_name name place) }
{
    match name {
        Some(SystemName::Function(function)) => function_takes_string(function, place),
        _ => true,
    }
}

/// Whether a call takes a string at a place, from 0 on.
pub fn takes_string(callee: Callee, name: &Name, place: usize) -> bool
    ensures { result ≡ string_may_stand (taken_at callee name.now place) }
{
    match callee {
        Callee::Function => false,
        Callee::System => named_takes_string(system_name(name.as_bytes()), place),
    }
}

fn function_takes(table: &Table, function: SystemFunction, place: usize, e: &Expr) -> bool
    ensures { result ≡ typing.expression_fits table.now.uses (taken_by function place) (expression_of e.now) }
{
    match function {
        SystemFunction::Temperature => true,
        SystemFunction::ThermalVoltage => true,
        SystemFunction::Limit => place != 0 || is_access_call(table, e),
        SystemFunction::SimParam => place != 0,
        SystemFunction::ParamGiven => is_parameter_name(table, e),
    }
}

fn named_takes(table: &Table, name: Option<SystemName>, place: usize, e: &Expr) -> bool
    ensures { result ≡ typing.expression_fits table.now.uses (taken_by_name name place) (expression_of e.now) }
{
    match name {
        Some(SystemName::Function(function)) => function_takes(table, function, place, e),
        _ => true,
    }
}

/// Whether a call takes an expression at a place, from 0 on.
pub fn takes_expression(table: &Table, callee: Callee, name: &Name, place: usize, e: &Expr) -> bool
    ensures { result ≡ typing.expression_fits table.now.uses (taken_at callee name.now place) (expression_of e.now) }
{
    match callee {
        Callee::Function => true,
        Callee::System => named_takes(table, system_name(name.as_bytes()), place, e),
    }
}

fn name_looks(name: Option<SystemName>, place: usize) -> bool
    ensures { result ≡ looked.looks name place }
{
    match name {
        None => true,
        Some(SystemName::Task) => false,
        Some(SystemName::Function(function)) => function.looks_at(place),
    }
}

/// Whether the argument of a call at a place, from 0 on, is looked at.
pub fn call_looks(callee: Callee, name: &Name, place: usize) -> bool
    ensures { result ≡ looked.call_looks callee name.now place }
{
    match callee {
        Callee::Function => true,
        Callee::System => name_looks(system_name(name.as_bytes()), place),
    }
}
