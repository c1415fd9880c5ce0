//! What a row of the grammar does to the depth of what stands in it.
ghost use Rattle.std.specs.Prelude.{◌≡◌, ◌==◌, if◌then◌else◌, map, IfOk};
ghost use Rattle.va_grammar.specs.Parts.{symbol_of};
ghost use Rattle.va_build.specs.Reading.{row_symbols};
ghost use Rattle.va_build.specs.SizeDeep.{if_deep, deep_row};
ghost use Rattle.va_build.specs.SizeRows as depths;

use predict::Symbol;
use std::alloc::AllocError;
use va_grammar::nonterminal::Nonterminal as N;
use va_grammar::row;
use va_grammar::rows::{Part, ROWS};

/// The depth that no node may have.
const TOO_DEEP: u32 = 501;

// The numbers of the nonterminals whose rows do more than pass their depth on.
const STATEMENT: u16 = N::Statement as u16;

const EXPRESSION: u16 = N::Expression as u16;

const CONDITIONAL_TAIL: u16 = N::ConditionalTail as u16;

const OR: u16 = N::Or as u16;

const OR_TAIL: u16 = N::OrTail as u16;

const AND: u16 = N::And as u16;

const AND_TAIL: u16 = N::AndTail as u16;

const EQUALITY: u16 = N::Equality as u16;

const EQUALITY_TAIL: u16 = N::EqualityTail as u16;

const RELATION: u16 = N::Relation as u16;

const RELATION_TAIL: u16 = N::RelationTail as u16;

const SUM: u16 = N::Sum as u16;

const SUM_TAIL: u16 = N::SumTail as u16;

const PRODUCT: u16 = N::Product as u16;

const PRODUCT_TAIL: u16 = N::ProductTail as u16;

const POWER: u16 = N::Power as u16;

const POWER_TAIL: u16 = N::PowerTail as u16;

const UNARY: u16 = N::Unary as u16;

const PRIMARY: u16 = N::Primary as u16;

/// What a row does to the depth.
#[derive(Clone, Copy, Debug, PartialEq, Eq)]
pub(crate) enum Rule {
    /// All that stands in it is as deep as it.
    Passes,
    /// A node begins with it, and all that stands in it is one deeper.
    Opens,
    /// A chain of operators: a node begins with it for each of them, and the first operand is the deepest.
    Chains,
    /// An operator and what follows it: the right operand is as much deeper as operators stand there.
    Follows,
    /// The two values of a choice, which are one deeper than it.
    Chooses,
}

/// A symbol that is due: still to be read, and how deep the outermost nodes of its tree are.
#[derive(Clone, Copy, Debug, PartialEq, Eq)]
pub(crate) struct Due {
    pub symbol: Symbol,
    pub depth: u32,
}

/// The parts of a row, and none where there is no such row.
pub(crate) fn row_parts(row: u16) -> &'static [Part]
    ensures { map symbol_of result.now ≡ row_symbols row }
{
    let i = row as usize;
    if i < ROWS.len() { ROWS[i] } else { &[] }
}

/// What a row of this nonterminal does.
pub(crate) fn row_rule(left: u16, row: u16) -> Rule
    ensures { result ≡ depths.rule_of left row }
{
    match left {
        STATEMENT | PRIMARY => Rule::Opens,
        UNARY => sign_rule(row),
        EXPRESSION | OR | AND | EQUALITY | RELATION | SUM | PRODUCT | POWER => Rule::Chains,
        OR_TAIL | AND_TAIL | EQUALITY_TAIL | RELATION_TAIL | SUM_TAIL | PRODUCT_TAIL | POWER_TAIL =>
            Rule::Follows,
        CONDITIONAL_TAIL => Rule::Chooses,
        _ => Rule::Passes,
    }
}

/// What a row of an operand with its signs does.
fn sign_rule(row: u16) -> Rule
    ensures { result ≡ (if row == 165 then Rule.Passes else Rule.Opens) }
{
    if row == row::UNSIGNED {
        Rule::Passes
    } else {
        Rule::Opens
    }
}

/// The index of a node, where its depth is 501.
fn one_deep(at: u32, depth: u32) -> Option<u32>
    ensures { result ≡ if_deep at depth }
{
    if depth == TOO_DEEP { Some(at) } else { None }
}

/// The index at which so many nodes begin, each in the one before, where one of them has the depth 501. The first has this depth.
fn row_deep(at: u32, depth: u32, count: u32) -> Option<u32>
    ensures { result ≡ deep_row at depth count }
{
    if depth > TOO_DEEP {
        None
    } else if count > TOO_DEEP - depth {
        Some(at)
    } else {
        None
    }
}

/// Where the first node of depth 501 begins among those that begin with a row, if there is one. Here the row has this depth
/// and so many links, and its first token this index.
pub(crate) fn opened(rule: Rule, at: u32, depth: u32, links: u32) -> Option<u32>
    ensures { result ≡ depths.deep_opened rule at depth links }
{
    match rule {
        Rule::Opens => one_deep(at, depth),
        Rule::Chains => row_deep(at, depth, links),
        Rule::Passes | Rule::Follows | Rule::Chooses => None,
    }
}

/// The depth of the parts of a row but for the last.
pub(crate) fn depth_below(rule: Rule, depth: u32, links: u32) -> Result<u32, AllocError>
    ensures { IfOk result (λ d. d ≡ depths.depth_below rule depth links) }
{
    match rule {
        Rule::Passes => Ok(depth),
        Rule::Opens | Rule::Chooses => depth.checked_add(1).ok_or(AllocError),
        Rule::Chains | Rule::Follows => depth.checked_add(links).ok_or(AllocError),
    }
}

/// The depth of the last part of a row.
pub(crate) fn depth_last(rule: Rule, depth: u32) -> Result<u32, AllocError>
    ensures { IfOk result (λ d. d ≡ depths.depth_last rule depth) }
{
    match rule {
        Rule::Opens | Rule::Chooses => depth.checked_add(1).ok_or(AllocError),
        Rule::Passes | Rule::Chains | Rule::Follows => Ok(depth),
    }
}
