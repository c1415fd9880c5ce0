//! Reading expressions.
//!
//! Each function takes the next tree of the parse tree, and its tokens with it.
ghost use Rattle.std.specs.Prelude.{◌≡◌, ◌∷◌, IfOk};
ghost use Rattle.va_build.specs.TokensAt as tokens_at;
ghost use Rattle.va_base.specs.Expansion.{IsExpanded};
ghost use Rattle.va_grammar.specs.declared.nonterminal.Nonterminal.TheVariants as nonterminal;
ghost use Rattle.va_build.specs.Due.{IsDue, IsOperandDue, IsTailDue};
ghost use Rattle.va_build.specs.Reading.{Reads};
ghost use Rattle.va_build.specs.SourceExpressions as source_expressions;

use crate::operators::{OperandRow, TailRow, operand_row, tail_row};
use crate::read_names::{literal, name_at, named};
use crate::reader::Reader;
use sqlite_items::{Boxed, Items as Children};
use std::alloc::{AllocError, Global};
use va_base::Expanded;
use va_grammar::row;
use va_tree::{Arg, BinaryOp, Callee, Expr, UnaryOp};

/// An expression (Expressions).
#[cycle(expression)]
pub(crate) fn expression(
    alloc: Global,
    e: &Expanded,
    reader: &mut Reader<'_>,
) -> Result<Expr, AllocError>
    requires expanded { IsExpanded e.now }
    requires due { IsDue nonterminal.Expression reader.old }
    ensures { IfOk result (λ v. Reads (source_expressions.expression e.now) reader.old reader.new v) }
{
    reader.enter();
    let first = reader.at();
    let test = operand(alloc, e, reader)?;
    let value = choice(alloc, e, reader, first, test)?;
    Ok(value)
}

/// What `?` and `:` choose behind a test, or the test itself where they do not follow it.
#[cycle(expression)]
fn choice(
    alloc: Global,
    e: &Expanded,
    reader: &mut Reader<'_>,
    first: u32,
    test: Expr,
) -> Result<Expr, AllocError>
    requires expanded { IsExpanded e.now }
    requires due { IsDue nonterminal.ConditionalTail reader.old }
    ensures { IfOk result (λ v. Reads (source_expressions.choice e.now first test) reader.old reader.new v) }
{
    match reader.enter() {
        row::CHOICE => {
            reader.pass();
            let yes = expression(alloc, e, reader)?;
            reader.pass();
            let no = expression(alloc, e, reader)?;
            let value = choose(alloc, first, test, yes, no)?;
            Ok(value)
        }
        row::NO_CHOICE => Ok(test),
        _ => unreachable!(),
    }
}

/// Operands of one precedence and the operators between them, a sign and its operand, or an operand without signs.
#[cycle(expression)]
fn operand(alloc: Global, e: &Expanded, reader: &mut Reader<'_>) -> Result<Expr, AllocError>
    requires expanded { IsExpanded e.now }
    requires due { IsOperandDue reader.old }
    ensures { IfOk result (λ v. Reads (source_expressions.operand e.now) reader.old reader.new v) }
{
    let row = reader.enter();
    let at = reader.at();
    match operand_row(row) {
        OperandRow::Operands => {
            let first = operand(alloc, e, reader)?;
            // The common case, in which `chain` would but hand the operand on, which costs a copy at each precedence.
            if reader.take_end() {
                return Ok(first);
            }
            let value = chain(alloc, e, reader, at, first)?;
            Ok(value)
        }
        OperandRow::Sign(op) => {
            reader.pass();
            let signed = operand(alloc, e, reader)?;
            let value = unary(alloc, at, op, signed)?;
            Ok(value)
        }
        OperandRow::Unsigned => {
            let value = primary(alloc, e, reader)?;
            Ok(value)
        }
    }
}

/// What operators and their right operands make of a first operand, which begins at `first`: the next one takes in all before
/// it, so that they associate to the left.
#[cycle(expression)]
fn chain(
    alloc: Global,
    e: &Expanded,
    reader: &mut Reader<'_>,
    first: u32,
    left: Expr,
) -> Result<Expr, AllocError>
    requires expanded { IsExpanded e.now }
    requires due { IsTailDue reader.old }
    ensures { IfOk result (λ v. Reads (source_expressions.chain e.now first left) reader.old reader.new v) }
{
    let mut value = left;
    loop {
        let row = reader.enter();
        match tail_row(row) {
            TailRow::Operator(op) => {
                reader.pass();
                let right = operand(alloc, e, reader)?;
                value = binary(alloc, first, value, op, right)?;
            }
            TailRow::End => return Ok(value),
        }
    }
}

/// A numeral, `inf`, an expression in parentheses, or a name and the arguments behind it.
#[cycle(expression)]
fn primary(alloc: Global, e: &Expanded, reader: &mut Reader<'_>) -> Result<Expr, AllocError>
    requires expanded { IsExpanded e.now }
    requires due { IsDue nonterminal.Primary reader.old }
    ensures { IfOk result (λ v. Reads (source_expressions.primary e.now) reader.old reader.new v) }
{
    let row = reader.enter();
    let at = reader.pass();
    match row {
        row::NUMBER => Ok(literal(e, at)),
        row::INF => Ok(Expr::Inf { at }),
        row::GROUP => {
            let inner = expression(alloc, e, reader)?;
            reader.pass();
            let value = group(alloc, at, inner)?;
            Ok(value)
        }
        row::WORD => {
            let value = called(alloc, e, reader, at, Callee::Function)?;
            Ok(value)
        }
        row::SYSTEM => {
            let value = called(alloc, e, reader, at, Callee::System)?;
            Ok(value)
        }
        _ => unreachable!(),
    }
}

/// The call of a name, or the name alone where no parentheses follow it.
#[cycle(expression)]
fn called(
    alloc: Global,
    e: &Expanded,
    reader: &mut Reader<'_>,
    name: u32,
    who: Callee,
) -> Result<Expr, AllocError>
    requires expanded { IsExpanded e.now }
    requires due { IsDue nonterminal.CallArguments reader.old }
    ensures { IfOk result (λ v. Reads (source_expressions.called e.now name who) reader.old reader.new v) }
{
    match reader.enter() {
        row::CALL => {
            reader.pass();
            let args = arguments(alloc, e, reader)?;
            reader.pass();
            let value = call(alloc, e, name, who, args)?;
            Ok(value)
        }
        row::NO_CALL => {
            let value = bare(alloc, e, name, who)?;
            Ok(value)
        }
        _ => unreachable!(),
    }
}

/// The arguments of a call or a task.
#[cycle(expression)]
pub(crate) fn arguments(
    alloc: Global,
    e: &Expanded,
    reader: &mut Reader<'_>,
) -> Result<Vec<Arg>, AllocError>
    requires expanded { IsExpanded e.now }
    requires due { IsDue nonterminal.Arguments reader.old }
    ensures { IfOk result (λ v. Reads (source_expressions.arguments e.now) reader.old reader.new v.items) }
{
    match reader.enter() {
        row::ARGUMENTS => {
            let first = argument(alloc, e, reader)?;
            let args = more_arguments(alloc, e, reader, first)?;
            Ok(args)
        }
        row::NO_ARGUMENTS => Ok(Vec::new(alloc)),
        _ => unreachable!(),
    }
}

/// The arguments behind the first.
#[cycle(expression)]
fn more_arguments(
    alloc: Global,
    e: &Expanded,
    reader: &mut Reader<'_>,
    first: Arg,
) -> Result<Vec<Arg>, AllocError>
    requires expanded { IsExpanded e.now }
    requires due { IsDue nonterminal.MoreArguments reader.old }
    ensures { IfOk result (λ v. Reads (λ at t. first ∷ source_expressions.more_arguments e.now at t) reader.old reader.new v.items) }
{
    let mut args = vec![in alloc; first]?;
    loop {
        match reader.enter() {
            row::MORE_ARGUMENTS => {
                reader.pass();
                let next = argument(alloc, e, reader)?;
                args.push(next)?;
            }
            row::NO_MORE_ARGUMENTS => return Ok(args),
            _ => unreachable!(),
        }
    }
}

/// An argument: a string or an expression.
#[cycle(expression)]
pub(crate) fn argument(
    alloc: Global,
    e: &Expanded,
    reader: &mut Reader<'_>,
) -> Result<Arg, AllocError>
    requires expanded { IsExpanded e.now }
    requires due { IsDue nonterminal.Argument reader.old }
    ensures { IfOk result (λ v. Reads (source_expressions.argument e.now) reader.old reader.new v) }
{
    match reader.enter() {
        row::TEXT_ARGUMENT => {
            let text = named(alloc, e, reader)?;
            Ok(Arg::Text(text))
        }
        row::ARGUMENT => {
            let value = expression(alloc, e, reader)?;
            Ok(Arg::Expr(value))
        }
        _ => unreachable!(),
    }
}

fn choose(alloc: Global, at: u32, test: Expr, yes: Expr, no: Expr) -> Result<Expr, AllocError>
    ensures { IfOk result (λ v. v ≡ Expr.Choose at test yes no) }
{
    Ok(Expr::Choose {
        at,
        test: Boxed::new(alloc, test)?,
        yes: Boxed::new(alloc, yes)?,
        no: Boxed::new(alloc, no)?,
    })
}

fn unary(alloc: Global, at: u32, op: UnaryOp, operand: Expr) -> Result<Expr, AllocError>
    ensures { IfOk result (λ v. v ≡ Expr.Unary at op operand) }
{
    Ok(Expr::Unary {
        at,
        op,
        operand: Boxed::new(alloc, operand)?,
    })
}

fn binary(alloc: Global, at: u32, left: Expr, op: BinaryOp, right: Expr) -> Result<Expr, AllocError>
    ensures { IfOk result (λ v. v ≡ Expr.Binary at left op right) }
{
    Ok(Expr::Binary {
        at,
        left: Boxed::new(alloc, left)?,
        op,
        right: Boxed::new(alloc, right)?,
    })
}

fn group(alloc: Global, at: u32, inner: Expr) -> Result<Expr, AllocError>
    ensures { IfOk result (λ v. v ≡ Expr.Group at inner) }
{
    Ok(Expr::Group {
        at,
        inner: Boxed::new(alloc, inner)?,
    })
}

/// A name with arguments in parentheses.
fn call(
    alloc: Global,
    e: &Expanded,
    at: u32,
    callee: Callee,
    args: Vec<Arg>,
) -> Result<Expr, AllocError>
    requires { IsExpanded e.now }
    ensures { IfOk result (λ v. v ≡ Expr.Call at callee (tokens_at.name_at e.now at) args.items) }
{
    let name = name_at(alloc, e, at)?;
    Ok(Expr::Call {
        at,
        callee,
        name,
        args: Children::from_vec(args),
    })
}

/// A name without parentheses behind it.
fn bare(alloc: Global, e: &Expanded, at: u32, callee: Callee) -> Result<Expr, AllocError>
    requires { IsExpanded e.now }
    ensures { IfOk result (λ v. v ≡ source_expressions.bare e.now at callee) }
{
    let name = name_at(alloc, e, at)?;
    match callee {
        Callee::Function => Ok(Expr::Name { at, name }),
        Callee::System => Ok(Expr::Call {
            at,
            callee,
            name,
            args: Children::from_vec(Vec::new(alloc)),
        }),
    }
}
