//! Reading the ranges of parameters.
//!
//! Each function takes the next tree of the parse tree, and its tokens with it.
ghost use Rattle.std.specs.Prelude.{◌≡◌, [], ◌∷◌, IfOk};
ghost use Rattle.va_base.specs.Expansion.{IsExpanded};
ghost use Rattle.va_grammar.specs.declared.nonterminal.Nonterminal.TheVariants as nonterminal;
ghost use Rattle.va_build.specs.Due.{IsDue};
ghost use Rattle.va_build.specs.Reading.{Reads};
ghost use Rattle.va_build.specs.SourceItems as source_items;

use crate::read_expressions::expression;
use crate::reader::Reader;
use std::alloc::{AllocError, Global};
use va_base::Expanded;
use va_grammar::row;
use va_tree::{Bound, Expr, Interval, Range};

/// Whether an interval has its lower end: whether the bracket there is a square one.
fn is_lower_closed(reader: &mut Reader<'_>) -> bool
    requires due { IsDue nonterminal.LowerBracket reader.old }
    ensures { Reads (λ at t. source_items.is_closed t) reader.old reader.new result }
{
    match reader.enter() {
        row::LOWER_SQUARE => {
            reader.pass();
            true
        }
        row::LOWER_ROUND => {
            reader.pass();
            false
        }
        _ => unreachable!(),
    }
}

/// Whether an interval has its upper end.
fn is_upper_closed(reader: &mut Reader<'_>) -> bool
    requires due { IsDue nonterminal.UpperBracket reader.old }
    ensures { Reads (λ at t. source_items.is_closed t) reader.old reader.new result }
{
    match reader.enter() {
        row::UPPER_SQUARE => {
            reader.pass();
            true
        }
        row::UPPER_ROUND => {
            reader.pass();
            false
        }
        _ => unreachable!(),
    }
}

/// The interval with these ends.
fn interval_of(below: bool, low: Expr, high: Expr, above: bool) -> Interval
    ensures { result ≡ source_items.interval_of below low high above }
{
    Interval {
        low: Bound {
            closed: below,
            value: low,
        },
        high: Bound {
            closed: above,
            value: high,
        },
    }
}

/// An interval that a parameter has to lie in.
fn interval(alloc: Global, e: &Expanded, reader: &mut Reader<'_>) -> Result<Range, AllocError>
    requires expanded { IsExpanded e.now }
    requires due { IsDue nonterminal.Interval reader.old }
    ensures { IfOk result (λ v. Reads (source_items.interval e.now) reader.old reader.new (v ∷ [])) }
{
    reader.enter();
    let below = is_lower_closed(reader);
    let low = expression(alloc, e, reader)?;
    reader.pass();
    let high = expression(alloc, e, reader)?;
    let above = is_upper_closed(reader);
    Ok(Range::From(interval_of(below, low, high, above)))
}

/// What is excluded in round brackets, behind its first expression: an interval, or that value.
fn exclusion_rest(
    alloc: Global,
    e: &Expanded,
    reader: &mut Reader<'_>,
    low: Expr,
) -> Result<Range, AllocError>
    requires expanded { IsExpanded e.now }
    requires due { IsDue nonterminal.ExclusionRest reader.old }
    ensures { IfOk result (λ v. Reads (source_items.exclusion_rest e.now low) reader.old reader.new (v ∷ [])) }
{
    match reader.enter() {
        row::EXCLUDED_TO => {
            reader.pass();
            let high = expression(alloc, e, reader)?;
            let above = is_upper_closed(reader);
            Ok(Range::ExcludeInterval(interval_of(false, low, high, above)))
        }
        row::EXCLUDED_SINGLE => {
            reader.pass();
            Ok(Range::ExcludeValue(low))
        }
        _ => unreachable!(),
    }
}

/// What a parameter may not be.
fn exclusion(alloc: Global, e: &Expanded, reader: &mut Reader<'_>) -> Result<Range, AllocError>
    requires expanded { IsExpanded e.now }
    requires due { IsDue nonterminal.Exclusion reader.old }
    ensures { IfOk result (λ v. Reads (source_items.exclusion e.now) reader.old reader.new (v ∷ [])) }
{
    match reader.enter() {
        row::EXCLUDED_SQUARE => {
            reader.pass();
            let low = expression(alloc, e, reader)?;
            reader.pass();
            let high = expression(alloc, e, reader)?;
            let above = is_upper_closed(reader);
            Ok(Range::ExcludeInterval(interval_of(true, low, high, above)))
        }
        row::EXCLUDED_ROUND => {
            reader.pass();
            let low = expression(alloc, e, reader)?;
            let range = exclusion_rest(alloc, e, reader, low)?;
            Ok(range)
        }
        row::EXCLUDED_VALUE => {
            let value = expression(alloc, e, reader)?;
            Ok(Range::ExcludeValue(value))
        }
        _ => unreachable!(),
    }
}

/// The values that a parameter may and may not take.
pub(crate) fn ranges(
    alloc: Global,
    e: &Expanded,
    reader: &mut Reader<'_>,
) -> Result<Vec<Range>, AllocError>
    requires expanded { IsExpanded e.now }
    requires due { IsDue nonterminal.Ranges reader.old }
    ensures { IfOk result (λ v. Reads (source_items.ranges e.now) reader.old reader.new v.items) }
{
    let mut list = Vec::new(alloc);
    loop {
        match reader.enter() {
            row::FROM => {
                reader.pass();
                let next = interval(alloc, e, reader)?;
                list.push(next)?;
            }
            row::EXCLUDE => {
                reader.pass();
                let next = exclusion(alloc, e, reader)?;
                list.push(next)?;
            }
            row::NO_RANGES => return Ok(list),
            _ => unreachable!(),
        }
    }
}
