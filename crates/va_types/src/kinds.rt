//! Faults of the arguments of calls: how many they are, and of which kinds.
ghost use Rattle.std.specs.Prelude.{◌≡◌, ◌&&◌, ◌++◌, [], not};
ghost use Rattle.va_base.specs.declared.fault.FaultCode.TheVariants.{ArgumentCount, ArgumentKind};
ghost use Rattle.va_tree.specs.Expressions.{expression_of, arguments_of, at_of};
ghost use Rattle.va_sem.specs.Builtins.{taken_at};
ghost use Rattle.va_sem.specs.NamesFaults.{fault_if};
ghost use Rattle.va_sem.specs.Typing as typing;
ghost use Rattle.va_sem.specs.TypesFaults.{kind_faults};
ghost use Rattle.va_types.specs.Found.{Finds, kind_fits, token_of as token_in};

use crate::arguments::{call_takes, takes_expression, takes_string};
use crate::found::Found;
use crate::table::Table;
use va_base::{FaultCode, Name};
use va_tree::{Arg, Callee, Expr};

/// The first token of an expression.
fn first_token(e: &Expr) -> u32
    ensures { result ≡ at_of (expression_of e.now) }
{
    match e {
        Expr::Literal { at, .. } => *at,
        Expr::Inf { at } => *at,
        Expr::Name { at, .. } => *at,
        Expr::Group { at, .. } => *at,
        Expr::Unary { at, .. } => *at,
        Expr::Binary { at, .. } => *at,
        Expr::Choose { at, .. } => *at,
        Expr::Call { at, .. } => *at,
    }
}

fn token_of(arg: &Arg) -> u32
    ensures { result ≡ token_in arg.now }
{
    match arg {
        Arg::Text(text) => text.at,
        Arg::Expr(e) => first_token(e),
    }
}

/// Whether a call takes an argument at a place, from 0 on.
fn takes(arg: &Arg, place: usize, callee: Callee, name: &Name, table: &Table) -> bool
    ensures { result ≡ kind_fits table.now.uses (taken_at callee name.now place) arg.now }
{
    match arg {
        Arg::Text(_) => takes_string(callee, name, place),
        Arg::Expr(e) => takes_expression(table, callee, name, place, e),
    }
}

/// The one and the other.
fn both(a: bool, b: bool) -> bool
    ensures { result ≡ a && b }
{
    a && b
}

/// Notes each argument that is of another kind than is taken, and answers whether there is none.
fn note_kinds(args: &[Arg], callee: Callee, name: &Name, table: &Table, found: &mut Found) -> bool
    ensures answer { result ≡ typing.kinds_fit table.now.uses (taken_at callee name.now) 0 (arguments_of args.now) }
    ensures finds { Finds [] (kind_faults table.now.uses (taken_at callee name.now) 0 (arguments_of args.now)) found.old found.new }
{
    let mut all = true;
    for (place, arg) in args.iter().enumerate() {
        let fits = takes(arg, place, callee, name, table);
        found.note_if(!fits, token_of(arg), FaultCode::ArgumentKind);
        all = both(all, fits);
    }
    all
}

/// Notes where the call at a token has another number of arguments, or arguments of other kinds, than it takes, and answers whether
/// they fit.
pub fn note_call(
    args: &[Arg],
    at: u32,
    callee: Callee,
    name: &Name,
    table: &Table,
    found: &mut Found,
) -> bool
    ensures answer { result ≡ typing.arguments_fit table.now at callee name.now (arguments_of args.now) }
    ensures finds { Finds [] (fault_if (not (typing.call_takes table.now at callee name.now (typing.argument_count (arguments_of args.now)))) at ArgumentCount
        ++ kind_faults table.now.uses (taken_at callee name.now) 0 (arguments_of args.now)) found.old found.new }
{
    let takes = call_takes(table, at, callee, name, args.len());
    found.note_if(!takes, at, FaultCode::ArgumentCount);
    let fit = note_kinds(args, callee, name, table, found);
    both(takes, fit)
}
