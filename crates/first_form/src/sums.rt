//! The flow of a form, and the straight code that is written for it.
ghost use Rattle.std.specs.Prelude.{◌≡◌, true, false, Contains, MatchOption, IfOk, IsErrOf};
ghost use Rattle.c_tree.specs.declared.short.Atom.TheVariants.{Field as field};
ghost use Rattle.c_tree.specs.declared.short.Field.TheVariants.{Param as param};
ghost use Rattle.va_tree.specs.Expressions.{expression_of, arguments_of};
ghost use Rattle.first_form.specs.Form as form_spec;
ghost use Rattle.first_form.specs.Form.{is_arithmetic};
ghost use Rattle.first_form.specs.Residuals.{number_in};
ghost use Rattle.first_form.specs.Code.{operator_of, potential_code};
ghost use Rattle.first_form.specs.Reading as reading;
ghost use Rattle.first_form.specs.Reading.{HasWritten, is_name_of, are_port_arguments, IsSumIn, ReadsSum};

use crate::TranslateErr;
use crate::code::Writer;
use crate::names::{Names, is_named};
use c_tree::short::{Atom, Field, Operator, Right};
use va_base::Name;
use va_tree::{Arg, BinaryOp, Callee, Expr};

/// What may be named in a flow.
#[derive(Drop)]
pub struct Scope<'a> {
    /// The first port.
    pub first: &'a [u8],
    /// The second port.
    pub second: &'a [u8],
    /// The parameters, in order of declaration.
    pub names: Names<'a>,
}

/// The operator of the C file for one of the form, and none for another.
fn operator(op: BinaryOp) -> Option<Operator>
    ensures { MatchOption result (is_arithmetic op ≡ false)
        (λ operator. (is_arithmetic op ≡ true) × (operator ≡ operator_of op)) }
{
    match op {
        BinaryOp::Add => Some(Operator::Plus),
        BinaryOp::Subtract => Some(Operator::Minus),
        BinaryOp::Multiply => Some(Operator::Times),
        BinaryOp::Divide => Some(Operator::Over),
        _ => None,
    }
}

/// The cell of a parameter.
fn parameter(scope: &Scope, name: &Name) -> Option<Atom>
    ensures { MatchOption result (Contains scope.now.names name.now → ⊥)
        (λ value. Contains scope.now.names name.now × (value ≡ field (param (number_in scope.now.names name.now)))) }
{
    let number = scope.names.number(name.as_bytes())?;
    Some(Atom::Field(Field::Param(number)))
}

/// Whether an expression is this name alone.
fn is_name(e: &Expr, name: &[u8]) -> bool
    ensures { result ≡ is_name_of name.now e.now }
{
    match e {
        Expr::Name { name: found, .. } => is_named(found, name),
        _ => false,
    }
}

/// Whether an argument is this name alone.
fn is_name_argument(arg: &Arg, name: &[u8]) -> bool
    ensures { result ≡ reading.is_name_argument name.now arg.now }
{
    match arg {
        Arg::Expr(e) => is_name(e, name),
        Arg::Text(_) => false,
    }
}

/// Whether the arguments are the two ports, in order.
fn are_port_names(scope: &Scope, args: &[Arg]) -> bool
    ensures { result ≡ are_port_arguments scope.now.first.now scope.now.second.now args.now }
{
    match args {
        [first, second] => {
            is_name_argument(first, scope.first) && is_name_argument(second, scope.second)
        }
        _ => false,
    }
}

/// Whether a call is the potential between the ports.
#[tactic(auto, using(crate::proofs::Flows::port_arguments))]
fn is_potential(scope: &Scope, callee: Callee, access: &Name, args: &[Arg]) -> bool
    ensures { result ≡ form_spec.is_potential scope.now.first.now scope.now.second.now callee access.now (arguments_of args.now) }
{
    match callee {
        Callee::Function => is_named(access, b"V") && are_port_names(scope, args),
        Callee::System => false,
    }
}

/// Writes the code of the potential between the ports.
fn potential(code: &mut Writer) -> Result<Atom, TranslateErr>
    ensures written { IfOk result (λ value. HasWritten code.old (potential_code code.old.next) code.new value) }
    ensures memory { IsErrOf result TranslateErr.Unbuilt → ⊥ }
{
    let value = code.declare(Right::Binary(Atom::Unknown(0), Operator::Minus, Atom::Unknown(1)))?;
    Ok(value)
}

/// Reads an expression of the form, and writes its code. At most `depth` parentheses may be open in it at once. It gives the
/// expression's value. It recurses as deep as the tree is.
#[cycle(sum)]
pub fn sum(scope: &Scope, code: &mut Writer, e: &Expr, depth: u32) -> Result<Atom, TranslateErr>
    ensures read { IfOk result (λ value. ReadsSum scope.now depth (expression_of e.now) code.old value code.new) }
    ensures unread { IsErrOf result TranslateErr.Unbuilt → IsSumIn scope.now depth (expression_of e.now) → ⊥ }
{
    match e {
        Expr::Name { name, .. } => parameter(scope, name).ok_or(TranslateErr::Unbuilt),
        Expr::Group { inner, .. } => {
            if depth == 0 {
                return Err(TranslateErr::Unbuilt);
            }
            let value = sum(scope, code, inner.get(), depth - 1)?;
            Ok(value)
        }
        Expr::Binary {
            left,
            op,
            right,
            ..
        } => {
            let Some(operator) = operator(*op) else {
                return Err(TranslateErr::Unbuilt);
            };
            let first = sum(scope, code, left.get(), depth)?;
            let second = sum(scope, code, right.get(), depth)?;
            let value = code.declare(Right::Binary(first, operator, second))?;
            Ok(value)
        }
        Expr::Call {
            callee,
            name,
            args,
            ..
        } => {
            if !is_potential(scope, *callee, name, args.as_slice()) {
                return Err(TranslateErr::Unbuilt);
            }
            let value = potential(code)?;
            Ok(value)
        }
        Expr::Unary { .. } => Err(TranslateErr::Unbuilt),
        Expr::Choose { .. } => Err(TranslateErr::Unbuilt),
        Expr::Literal { .. } | Expr::Inf { .. } => Err(TranslateErr::Unbuilt),
    }
}
