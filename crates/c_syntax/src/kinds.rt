//! The kind of a token, as the rows number it.
ghost use Rattle.std.specs.Prelude.{◌≡◌, ◌<◌, IfOk, IfSome, get_or, map, length};
ghost use Rattle.std.specs.List.{All};
ghost use Rattle.std.specs.Str.{bytes_eq};
ghost use Rattle.c_syntax.specs.grammar.Names as name_rules;
ghost use Rattle.c_syntax.specs.grammar.Kinds as kind_rules;
ghost use Rattle.c_syntax.specs.Fronts.{IsWithin};

use crate::kind_names::{fields, functions, includes, marks, numbered, words};
use crate::number::is_number_in_name;
use c_tree::token::{CToken, CTokenKind};
use std::alloc::Global;
use va_base::NoMemory;
use va_base::bytes::{ByteTest, Digit, front_len};

/// The kind that ends a text.
const END: u16 = 0;
/// The kind of a token that no row holds.
const OTHER: u16 = 1;

const STRING: u16 = 7;

const REAL: u16 = 10;
/// A function of C's library.
const FUNCTION: u16 = 11;
/// A function of a module.
const FN: u16 = 15;
/// The kinds of the first mark, the first word and the first field; the others follow in order.
const FIRST_MARK: u16 = 38;

const FIRST_WORD: u16 = 65;

const FIRST_FIELD: u16 = 135;

/// The kinds of the names that end with one number.
static NUMBERED_KINDS: [u16; 27] = [
    12, 13, 14, 14, 14, 14, 14, 14, 14, 14, 16, 17, 18, 19, 20, 21, 22, 23, 24, 25, 26, 27, 28, 29,
    30, 31, 32,
];

/// Any byte but a digit.
struct NoDigit;

impl ByteTest for NoDigit {
    ghost test = { kind_rules.is_no_digit };

    fn passes(byte: u8) -> bool {
        !byte.is_ascii_digit()
    }
}

/// Whether two words are the same.
fn is_same(first: &[u8], second: &[u8]) -> bool
    ensures { result ≡ bytes_eq first.now second.now }
{
    first == second
}

/// The place of a name in a list, counted from 0, or None where it isn't in the list.
pub fn place_of(names: &[&str], word: &[u8]) -> Option<usize>
    ensures place { result ≡ name_rules.place_of (map (λ name. name.now) names.now) word.now }
    ensures within { IfSome result (λ place. place < length names.now) }
{
    for (place, name) in names.iter().enumerate() {
        if is_same(name.as_bytes(), word) {
            return Some(place);
        }
    }
    None
}

fn is_second_number(bytes: &[u8]) -> bool
    ensures { result ≡ kind_rules.is_second_number bytes.now }
{
    !bytes.is_empty() && bytes[0] == b'_' && is_number_in_name(&bytes[1..])
}

/// Whether bytes are a number and, behind `_`, another.
fn are_two_numbers(bytes: &[u8]) -> bool
    ensures { result ≡ kind_rules.are_two_numbers bytes.now }
{
    let end = front_len::<Digit>(bytes);
    is_number_in_name(&bytes[..end]) && is_second_number(&bytes[end..])
}

/// The kind with this place among those of the names that end with a number.
fn kind_with_place(place: Option<usize>) -> Option<u16>
    ensures { result ≡ kind_rules.kind_with_place kind_rules.numbered_kinds place }
{
    match place {
        None => None,
        Some(place) => Some(numbered_kind_at(place)),
    }
}

fn numbered_kind_at(place: usize) -> u16
    ensures { result ≡ get_or kind_rules.numbered_kinds place 1 }
{
    if place < NUMBERED_KINDS.len() {
        NUMBERED_KINDS[place]
    } else {
        OTHER
    }
}

/// The kind of a name that ends with a number, by what stands before its first digit and by the rest.
fn numbered_kind(name: &[u8], rest: &[u8]) -> Option<u16>
    ensures { result ≡ kind_rules.numbered_kind name.now rest.now }
{
    if is_same(name, b"fn_") {
        return function_kind(rest);
    }
    if !is_number_in_name(rest) {
        return None;
    }
    kind_with_place(place_of(numbered(), name))
}

/// The kind of a function of a module, by its numbers.
fn function_kind(numbers: &[u8]) -> Option<u16>
    ensures { result ≡ kind_rules.function_kind numbers.now }
{
    if are_two_numbers(numbers) {
        Some(FN)
    } else {
        None
    }
}

/// A kind by its place among names, whose kinds are numbered from some number on, or else another.
fn kind_from(first: u16, place: Option<usize>, kind: u16) -> u16
    requires first { first < 1000 }
    requires place { IfSome place (λ p. p < 1000) }
    ensures { result ≡ kind_rules.kind_from first place kind }
{
    match place {
        None => kind,
        Some(place) => first + place as u16,
    }
}

/// The kind of a word that has no number.
fn plain_word_kind(word: &[u8]) -> u16
    ensures { result ≡ kind_rules.plain_word_kind word.now }
{
    let kind = if place_of(functions(), word).is_some() {
        FUNCTION
    } else {
        OTHER
    };
    kind_from(FIRST_WORD, place_of(words(), word), kind)
}

fn word_kind(word: &[u8]) -> u16
    ensures { result ≡ kind_rules.word_kind word.now }
{
    let end = front_len::<NoDigit>(word);
    match numbered_kind(&word[..end], &word[end..]) {
        Some(kind) => kind,
        None => plain_word_kind(word),
    }
}

fn integer_kind(word: &[u8]) -> u16
    ensures { result ≡ kind_rules.integer_kind word.now }
{
    match word {
        b"0" => 33,
        b"1" => 34,
        _ => 8,
    }
}

fn unsigned_kind(word: &[u8]) -> u16
    ensures { result ≡ kind_rules.unsigned_kind word.now }
{
    match word {
        b"0u" => 35,
        b"1u" => 36,
        b"3u" => 37,
        _ => 9,
    }
}

/// The kind of a token with these bytes, as the rows number it (see `specs/grammar/Names.antt`).
pub fn kind_of(kind: CTokenKind, word: &[u8]) -> u16
    ensures { result ≡ kind_rules.kind_of kind word.now }
{
    match kind {
        CTokenKind::Include => kind_from(2, place_of(includes(), word), OTHER),
        CTokenKind::Word => word_kind(word),
        CTokenKind::Field => kind_from(FIRST_FIELD, place_of(fields(), word), OTHER),
        CTokenKind::Integer => integer_kind(word),
        CTokenKind::Unsigned => unsigned_kind(word),
        CTokenKind::Real => REAL,
        CTokenKind::Text => STRING,
        CTokenKind::Mark => kind_from(FIRST_MARK, place_of(marks(), word), OTHER),
    }
}

/// The kind of a token of a text.
pub fn kind_in(bytes: &[u8], token: CToken) -> u16
    requires { IsWithin bytes.now token }
    ensures { result ≡ kind_rules.kind_in bytes.now token }
{
    let first = token.first as usize;
    kind_of(token.kind, &bytes[first..first + token.len as usize])
}

/// The kinds of the tokens of a text, and the kind of its end behind them.
pub fn kinds(alloc: Global, bytes: &[u8], tokens: &[CToken]) -> Result<Vec<u16>, NoMemory>
    requires { All (IsWithin bytes.now) tokens.now }
    ensures { IfOk result (λ kinds. kinds.items ≡ kind_rules.kinds_of bytes.now tokens.now) }
{
    let mut kinds = Vec::new(alloc);
    for token in tokens {
        kinds.push(kind_in(bytes, *token))?;
    }
    kinds.push(END)?;
    Ok(kinds)
}
