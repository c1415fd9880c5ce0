//! The token at the front of a text.
//!
//! Each byte of a token is looked at a few times at most.
ghost use Rattle.std.specs.Prelude.{◌≡◌, ◌<◌, ◌≤◌, ◌==◌, IsTrue, IfSome, Some, None, codes, drop, length, if◌then◌else◌};
ghost use Rattle.std.specs.List.{starts_with};
ghost use Rattle.va_base.specs.Longest.{longest};
ghost use Rattle.va_base.specs.Spelling as base;
ghost use Rattle.va_base.specs.Spelling.{is_letter, is_digit};
ghost use Rattle.c_tree.specs.tokens.Spelling as spelling;
ghost use Rattle.c_tree.specs.tokens.Tokens as tokens;
ghost use Rattle.c_syntax.specs.Fronts as fronts;

use crate::bytes::WordByte;
use crate::number::{is_within, tail_kind, tail_len};
use c_tree::token::CTokenKind;
use va_base::bytes::{ByteTest, Digit, InLine, Letter, begins, begins_with, front_len};

/// What stands at the front of a text: a token of a kind, and how many bytes it has.
#[derive(Clone, Copy, Debug, PartialEq, Eq)]
pub struct FrontToken {
    pub kind: CTokenKind,
    pub len: usize,
}

fn word(text: &[u8]) -> Option<FrontToken>
    requires { IsTrue (base.begins is_letter text.now) }
    ensures { result ≡ fronts.front_of text.now }
{
    Some(FrontToken {
        kind: CTokenKind::Word,
        len: front_len::<WordByte>(text),
    })
}

fn number(text: &[u8]) -> Option<FrontToken>
    requires { IsTrue (base.begins is_digit text.now) }
    ensures { result ≡ fronts.front_of text.now }
{
    let digits = front_len::<Digit>(text);
    let tail = tail_len(&text[digits..]);
    let end = digits + tail;
    if !is_within(&text[..end]) {
        return None;
    }
    let kind = tail_kind(&text[digits..end]);
    Some(FrontToken { kind, len: end })
}

/// `#include` and its line.
fn include(text: &[u8]) -> Option<FrontToken>
    requires { IsTrue (base.begins (λ first. first == 35) text.now) }
    ensures { result ≡ fronts.front_of text.now }
{
    let rest = &text[1..];
    if !rest.starts_with(b"include") {
        return None;
    }
    Some(FrontToken {
        kind: CTokenKind::Include,
        len: 8 + front_len::<InLine>(&rest[7..]),
    })
}

/// Whether a point and a letter stand at the front.
fn begins_name(text: &[u8]) -> bool
    ensures { result ≡ fronts.begins_name text.now }
{
    text.len() > 1 && text[0] == b'.' && Letter::passes(text[1])
}

/// How many bytes behind a name's first letter belong to the name of a field.
fn name_len(text: &[u8]) -> usize
    ensures longest { longest spelling.is_in_name text.now ≡ Some result }
    ensures within { result ≤ length text.now }
{
    let mut at = front_len::<WordByte>(text);
    'names: while begins_name(&text[at..]) {
        at += 2;
        at += front_len::<WordByte>(&text[at..]);
    }
    at
}

/// The name of a field.
fn field(text: &[u8]) -> Option<FrontToken>
    requires { IsTrue (base.begins (λ first. first == 46) text.now) }
    ensures { result ≡ fronts.front_of text.now }
{
    if !begins_name(text) {
        return None;
    }
    Some(FrontToken {
        kind: CTokenKind::Field,
        len: 2 + name_len(&text[2..]),
    })
}

/// Whether a byte stands as itself in a string.
fn is_plain(byte: u8) -> bool
    ensures { result ≡ spelling.is_plain byte }
{
    32 <= byte && byte <= 126 && !matches!(byte, b'"' | b'?' | b'\\' | b'`')
}

fn is_octal_digit(byte: u8) -> bool
    ensures { result ≡ spelling.is_octal_digit byte }
{
    48 <= byte && byte <= 55
}

/// Whether three bytes behind a `\` stand for a byte.
fn is_escape(first: u8, second: u8, third: u8) -> bool
    ensures { result ≡ spelling.is_escape first second third }
{
    if !is_octal_digit(first) || !is_octal_digit(second) || !is_octal_digit(third) {
        return false;
    }
    let value = 64 * (first as u32 - 48) + 8 * (second as u32 - 48) + (third as u32 - 48);
    value <= 255 && !is_plain(value as u8)
}

fn begins_escape(rest: &[u8]) -> bool
    ensures { result ≡ fronts.begins_escape rest.now }
{
    rest.len() > 3 && rest[0] == b'\\' && is_escape(rest[1], rest[2], rest[3])
}

/// How many bytes at the front stand for one byte of a string: one, or the four of an escape; none where a quote stands
/// there, or what no string holds.
fn unit_len(rest: &[u8]) -> usize
    ensures unit { 0 < result → longest spelling.is_string_rest rest.now ≡ fronts.shifted result (longest spelling.is_string_rest (drop result rest.now)) }
    ensures none { result ≡ 0
        → longest spelling.is_string_rest rest.now ≡ (if base.begins (λ first. first == 34) rest.now then Some 1 else None) }
    ensures within { result ≤ length rest.now }
{
    if rest.is_empty() {
        return 0;
    }
    if is_plain(rest[0]) {
        return 1;
    }
    if begins_escape(rest) { 4 } else { 0 }
}

/// The length of what follows a string's first quote, up to the quote that ends it.
fn string_rest_len(rest: &[u8]) -> Option<usize>
    ensures longest { result ≡ longest spelling.is_string_rest rest.now }
    ensures within { IfSome result (λ n. n ≤ length rest.now) }
{
    let mut at = 0;
    let mut unit = unit_len(rest);
    'units: while unit > 0 {
        at += unit;
        unit = unit_len(&rest[at..]);
    }
    if begins_with(&rest[at..], b'"') {
        Some(at + 1)
    } else {
        None
    }
}

fn string(text: &[u8]) -> Option<FrontToken>
    requires { IsTrue (base.begins (λ first. first == 34) text.now) }
    ensures { result ≡ fronts.front_of text.now }
{
    match string_rest_len(&text[1..]) {
        Some(len) => Some(FrontToken {
            kind: CTokenKind::Text,
            len: 1 + len,
        }),
        None => None,
    }
}

fn is_single_mark(byte: u8) -> bool
    ensures { result ≡ spelling.is_single_mark byte }
{
    matches!(
        byte,
        b'(' | b')'
            | b'{'
            | b'}'
            | b'['
            | b']'
            | b';'
            | b','
            | b'*'
            | b'='
            | b'+'
            | b'-'
            | b'/'
            | b'%'
            | b'<'
            | b'>'
            | b'!'
            | b'&'
            | b'|'
    )
}

fn is_double_mark(first: u8, second: u8) -> bool
    ensures { result ≡ spelling.is_double_mark first second }
{
    matches!(
        (first, second),
        (b'-', b'>')
            | (b'&', b'&')
            | (b'<', b'=')
            | (b'>', b'=')
            | (b'=', b'=')
            | (b'!', b'=')
            | (b'+', b'=')
            | (b'-', b'=')
    )
}

fn begins_double_mark(text: &[u8]) -> bool
    ensures { result ≡ fronts.begins_double_mark text.now }
{
    text.len() > 1 && is_double_mark(text[0], text[1])
}

/// The length of the longest mark at the front.
fn mark_len(text: &[u8]) -> Option<usize>
    ensures longest { result ≡ longest spelling.is_mark text.now }
    ensures within { IfSome result (λ n. n ≤ length text.now) }
{
    if begins_double_mark(text) {
        return Some(2);
    }
    let (first, _rest) = text.split_first()?;
    if is_single_mark(*first) {
        Some(1)
    } else {
        None
    }
}

fn mark(text: &[u8]) -> Option<FrontToken>
    requires { IsTrue (base.begins fronts.is_other_byte text.now) }
    ensures { result ≡ fronts.front_of text.now }
{
    match mark_len(text) {
        Some(len) => Some(FrontToken {
            kind: CTokenKind::Mark,
            len,
        }),
        None => None,
    }
}

/// The token at the front of a text, by its first byte.
fn front_by_first_byte(text: &[u8]) -> Option<FrontToken>
    requires { 0 < length text.now }
    ensures { result ≡ fronts.front_of text.now }
{
    let first = text[0];
    if Letter::passes(first) {
        return word(text);
    }
    if Digit::passes(first) {
        return number(text);
    }
    match first {
        b'#' => include(text),
        b'.' => field(text),
        b'"' => string(text),
        _ => mark(text),
    }
}

/// The token at the front of a text: the longest one, unless that is a number outside the limits.
pub fn front(text: &[u8]) -> Option<FrontToken>
    requires { 0 < length text.now }
    ensures front { result ≡ fronts.front_of text.now }
    ensures some { IfSome result (λ f. 0 < f.len) }
    ensures within { IfSome result (λ f. f.len ≤ length text.now) }
{
    front_by_first_byte(text)
}
