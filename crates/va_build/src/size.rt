//! The least fault of size of a text, found on its parse tree.
//!
//! A node of the source tree may have the depth 500: so many statements, expressions and parentheses are around it and it itself.
//! A word or a string may have 1024 bytes, and a text 64 modules. The parse tree is looked through without recursion, so a text
//! that is nested deeper costs no stack.
ghost use Rattle.std.specs.Prelude.{◌≡◌, ◌<◌, length, nat_lt, Some, None, Ok};
ghost use Rattle.predict.specs.Sentence.{IsParsed};
ghost use Rattle.va_base.specs.Expansion.{IsExpanded};
ghost use Rattle.va_base.specs.declared.fault.Fault.{Fault};
ghost use Rattle.va_grammar.specs.Kinds.{kinds_of};
ghost use Rattle.va_grammar.specs.Sets.{va_rules};
ghost use Rattle.va_build.specs.SizeFaults.{IsFirst, IsLong, IsFaultAt};
ghost use Rattle.va_build.specs.SizeFaults as faults;
ghost use Rattle.va_build.specs.SourceOf.{IsSourceOf};
ghost use Rattle.va_tree.specs.Size.{LeastSizeFault, IsWithinSize};
ghost use Rattle.va_tree.specs.Size as limits;
ghost use Rattle.va_tree.specs.declared.source.Source.{Source};

use crate::size_scan::{Found, scan};
use predict::ParseTree;
use std::alloc::Global;
use va_base::{Expanded, Fault, FaultCode, NoMemory, Phase, TokenKind};

/// How many bytes a word or a string may have.
const LONGEST: usize = 1024;

/// The least fault of size that stands in a text, or None where none stands: the one at the lowest token, and of several at one
/// token TooDeep before TooLong before ModulesMany.
pub(crate) fn size_fault(
    alloc: Global,
    tree: &ParseTree,
    e: &Expanded,
) -> Result<Option<Fault>, NoMemory>
    requires expanded { IsExpanded e.now }
    requires parsed { IsParsed va_rules (kinds_of e.now) tree.now }
    ensures fault { (f : Fault) → result ≡ Ok (Some f) → (s : Source) → IsSourceOf e.now s → LeastSizeFault e.now s f }
    ensures none { result ≡ Ok None → (s : Source) → IsSourceOf e.now s → IsWithinSize e.now s }
{
    let found = scan(alloc, tree.nodes())?;
    let long = first_long(e);
    let first = earliest(found, long);
    match first {
        None => Ok(None),
        Some(stands) => {
            let fault = fault_at(e, stands);
            Ok(Some(fault))
        }
    }
}

/// A fault that stands: its code, and the index of its token.
#[derive(Clone, Copy, Debug, PartialEq, Eq)]
pub(crate) struct Standing {
    pub code: FaultCode,
    pub at: u32,
}

/// The earliest of the faults that were found.
fn earliest(found: Found, long: Option<u32>) -> Option<Standing>
    ensures { result ≡ faults.earliest found.deep long found.extra }
{
    let deep = fault_of(FaultCode::TooDeep, found.deep);
    let length = fault_of(FaultCode::TooLong, long);
    let many = fault_of(FaultCode::ModulesMany, found.extra);
    sooner(deep, sooner(length, many))
}

/// The fault of this code, where there is one.
fn fault_of(code: FaultCode, at: Option<u32>) -> Option<Standing>
    ensures { result ≡ faults.first_of code at }
{
    match at {
        None => None,
        Some(at) => Some(Standing { code, at }),
    }
}

/// The one at the lower token, and the first where both are at one.
fn sooner(a: Option<Standing>, b: Option<Standing>) -> Option<Standing>
    ensures { result ≡ faults.sooner a b }
{
    match (a, b) {
        (None, _) => b,
        (Some(_), None) => a,
        (Some(x), Some(y)) => { if y.at < x.at { Some(y) } else { Some(x) } }
    }
}

/// The fault with the place of its token, which the text has.
fn fault_at(e: &Expanded, stands: Standing) -> Fault
    requires { stands.at < length e.now.tokens }
    ensures { IsFaultAt e.now stands result }
{
    match e.tokens.as_list().get(stands.at as usize) {
        Some(token) => Fault {
            phase: Phase::Size,
            at: stands.at,
            place: token.place,
            code: stands.code,
        },
        None => unreachable!(),
    }
}

/// The index of the first word or string that is too long.
fn first_long(e: &Expanded) -> Option<u32>
    requires { IsExpanded e.now }
    ensures { IsFirst (IsLong e.now) result }
{
    let count = e.tokens.as_list().len() as u32;
    for at in 0..count {
        if long_at(e, at) {
            return Some(at);
        }
    }
    None
}

/// Whether the token with this index is a word or a string that is too long.
fn long_at(e: &Expanded, at: u32) -> bool
    requires { IsExpanded e.now }
    ensures { result ≡ faults.is_long e.now at }
{
    match e.tokens.as_list().get(at as usize) {
        Some(token) => is_too_long(token.kind, e.bytes(token)),
        None => false,
    }
}

/// Whether a token of these bytes is a word or a string that is too long.
fn is_too_long(kind: TokenKind, bytes: &[u8]) -> bool
    ensures { result ≡ nat_lt 1024 (limits.counted_len kind bytes.now) }
{
    counted_len(kind, bytes) > LONGEST
}

/// The length of a token that the limit counts: of a word without the `\` of its escaped form, and of a string between its quotes.
fn counted_len(kind: TokenKind, bytes: &[u8]) -> usize
    ensures { result ≡ limits.counted_len kind bytes.now }
{
    match kind {
        TokenKind::Word => word_len(bytes),
        TokenKind::Text => bytes.len().saturating_sub(2),
        _ => 0,
    }
}

/// The length of a word without the `\` of its escaped form.
fn word_len(bytes: &[u8]) -> usize
    ensures { result ≡ limits.word_len bytes.now }
{
    match bytes.split_first() {
        Some((b'\\', rest)) => rest.len(),
        _ => bytes.len(),
    }
}
