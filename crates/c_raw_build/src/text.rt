//! The tokens of a text, and what numbers, names and strings stand for.
ghost use Rattle.std.specs.Prelude.{◌≡◌, ◌<◌, ◌≤◌, ◌^◌, ◌+◌, ◌-◌, ◌++◌, true, length, IfOk, OnOk, map, get_or, slice_get, Some};
ghost use Rattle.c_raw.specs.Blocks.{at_view};
ghost use Rattle.std.specs.List.{prefix_len};
ghost use Rattle.va_base.specs.Numerals.{number_of};
ghost use Rattle.va_base.specs.Spelling.{is_digit};
ghost use Rattle.c_tree.specs.Spelling.{are_bytes};
ghost use Rattle.c_syntax.specs.grammar.Kinds.{is_no_digit};
ghost use Rattle.c_raw_build.specs.Due.{HasOneOf, IsOfKind, IsThere, AreThere};
ghost use Rattle.c_raw_build.specs.Reading.{number_seen};
ghost use Rattle.c_raw_build.specs.TokenKinds as token_kinds;
ghost use Rattle.c_raw_build.specs.Words as words;

use alg_laws::{Fun1, Fun2};
use c_raw::At;
use c_syntax::kind_names::functions;
use c_syntax::kinds::{kind_of, place_of};
use c_tree::token::CToken;
use c_tree::{CCallee, CField};
use std::alloc::{AllocError, Global};
use std::marker::Model;
use va_base::bytes::{ByteTest, Digit, front_len};
use va_base::numeral::decimal;
use va_base::{Decimal, Name};

/// The bytes of a text, and its tokens.
#[derive(Debug, Drop)]
pub(crate) struct Text<'a> {
    bytes: &'a [u8],
    tokens: &'a [CToken],
}

impl<'a> Model for Text<'a> {
    ghost use Rattle.c_raw_build.specs.Words.{CText};

    ghost Value = { CText };

    ghost view = { λ t. record { bytes = t.bytes.now; tokens = t.tokens.now } };
}

/// The functions of C's library, in the order of their names.
static LIBRARY: [CCallee; 21] = [
    CCallee::Fun1(Fun1::Exp),
    CCallee::Fun1(Fun1::Ln),
    CCallee::Fun1(Fun1::Log),
    CCallee::Fun1(Fun1::Sqrt),
    CCallee::Fun1(Fun1::Sin),
    CCallee::Fun1(Fun1::Cos),
    CCallee::Fun1(Fun1::Tan),
    CCallee::Fun1(Fun1::Asin),
    CCallee::Fun1(Fun1::Acos),
    CCallee::Fun1(Fun1::Atan),
    CCallee::Fun1(Fun1::Sinh),
    CCallee::Fun1(Fun1::Cosh),
    CCallee::Fun1(Fun1::Tanh),
    CCallee::Fun1(Fun1::Asinh),
    CCallee::Fun1(Fun1::Acosh),
    CCallee::Fun1(Fun1::Atanh),
    CCallee::Fun1(Fun1::Floor),
    CCallee::Fun1(Fun1::Ceil),
    CCallee::Fun2(Fun2::Pow),
    CCallee::Fun2(Fun2::Atan2),
    CCallee::Fun2(Fun2::Hypot),
];

/// The kind of a name `fn_0_1`, and those of the first and the last names that hold a module's number.
const MODULE_FUNCTION: u16 = 15;

const LAST_NUMBERED: u16 = 32;

/// Any byte but a digit.
struct NoDigit;

impl ByteTest for NoDigit {
    ghost test = { is_no_digit };

    fn passes(byte: u8) -> bool {
        !byte.is_ascii_digit()
    }
}

impl<'a> Text<'a> {
    pub(crate) fn new(bytes: &'a [u8], tokens: &'a [CToken]) -> Text<'a>
        ensures bytes { result.bytes ≡ bytes.now }
        ensures tokens { result.tokens ≡ tokens.now }
    {
        Text { bytes, tokens }
    }

    /// The bytes of the token with this index.
    pub(crate) fn word(&self, at: u32) -> &'a [u8]
        requires { IsThere self.now at }
        ensures { result.now ≡ words.word_at self.now at }
    {
        let token = &self.tokens[at as usize];
        let behind = &self.bytes[token.first as usize..];
        &behind[..token.len as usize]
    }

    /// The number that the digits of a token give.
    pub(crate) fn number(&self, at: u32) -> u32
        requires { HasOneOf self.now at token_kinds.numbers }
        ensures { result ≡ words.number_at self.now at }
    {
        let word = self.word(at);
        number(word)
    }

    /// The second number of a name `fn_0_1`.
    #[tactic(auto, unfolding(crate::specs::Words::function_at))]
    pub(crate) fn function(&self, at: u32) -> u32
        requires { HasOneOf self.now at token_kinds.module_functions }
        ensures { result ≡ words.function_at self.now at }
    {
        let word = self.word(at);
        second_number(word)
    }

    /// The exact value of a real.
    #[tactic(auto, unfolding(crate::specs::Words::real_at))]
    pub(crate) fn real(&self, at: u32) -> Decimal
        requires { HasOneOf self.now at token_kinds.reals }
        ensures { result ≡ words.real_at self.now at }
    {
        let word = self.word(at);
        match decimal(word) {
            Some(value) => value,
            None => unreachable!(),
        }
    }

    /// The field that a token names.
    #[tactic(auto, unfolding(crate::specs::Words::field_at))]
    pub(crate) fn field(&self, at: u32) -> CField
        requires { HasOneOf self.now at token_kinds.fields }
        ensures { result ≡ words.field_at self.now at }
    {
        let word = self.word(at);
        let number = number(word);
        field_lettered(letters(word), number)
    }

    /// The function of C's library that a token names.
    #[tactic(auto, unfolding(crate::specs::Words::library_function_at))]
    pub(crate) fn library_function(&self, at: u32) -> CCallee
        requires { HasOneOf self.now at token_kinds.library_functions }
        ensures { result ≡ words.library_function_at self.now at }
    {
        let word = self.word(at);
        library_callee(place_of(functions(), word).unwrap_or(0))
    }

    /// The bytes that a string stands for.
    #[tactic(auto, unfolding(crate::specs::Words::string_at))]
    pub(crate) fn string(&self, alloc: Global, at: u32) -> Result<Name, AllocError>
        requires { HasOneOf self.now at token_kinds.strings }
        ensures { IfOk result (λ name. name ≡ words.string_at self.now at) }
    {
        let word = self.word(at);
        let bytes = string_bytes(alloc, between_quotes(word))?;
        Ok(Name::new(bytes))
    }

    /// The module's number in the token with this index, if it holds one.
    fn module_number(&self, at: u32) -> Option<u32>
        requires { IsThere self.now at }
        ensures { number_seen at result ≡ words.module_numbers_of self.now at (slice_get self.now.tokens at) }
    {
        let Some(token) = self.tokens.get(at as usize) else {
            unreachable!();
        };
        let word = self.word(at);
        let kind = kind_of(token.kind, word);
        if !has_module_number(kind) {
            return None;
        }
        Some(module_number(kind, word))
    }

    /// The module's number in each C name among the tokens from `first` on, up to the one before `end`.
    pub(crate) fn module_numbers(
        &self,
        alloc: Global,
        first: u32,
        end: u32,
    ) -> Result<Vec<At<u32>>, AllocError>
        requires { AreThere self.now first end }
        ensures { IfOk result (λ v. map at_view v.items ≡ words.module_numbers self.now first (end - first)) }
    {
        let mut numbers = Vec::new(alloc);
        let mut at = first;
        'tokens: while at < end {
            let value = self.module_number(at);
            push_number(&mut numbers, at, value)?;
            at += 1;
        }
        Ok(numbers)
    }
}

/// Adds the number that a token holds, if it holds one.
fn push_number(numbers: &mut Vec<At<u32>>, at: u32, value: Option<u32>) -> Result<(), AllocError>
    ensures { OnOk result (map at_view numbers.new.items ≡ map at_view numbers.old.items ++ number_seen at value) }
{
    if let Some(value) = value {
        numbers.push(At { at, value })?;
    }
    Ok(())
}

/// The function of C's library with this place among their names.
fn library_callee(place: usize) -> CCallee
    ensures { result ≡ get_or words.library_functions place (CCallee.Fun1 Fun1.Exp) }
{
    if place < LIBRARY.len() {
        LIBRARY[place]
    } else {
        CCallee::Fun1(Fun1::Exp)
    }
}

/// The number that the digits among some bytes give.
pub(crate) fn number(bytes: &[u8]) -> u32
    requires { number_of bytes.now < 2 ^ 32 }
    ensures { result ≡ number_of bytes.now }
{
    let mut number: u32 = 0;
    for byte in bytes {
        if byte.is_ascii_digit() {
            number = 10 * number + u32::from(*byte - b'0');
        }
    }
    number
}

/// The second number of a name `fn_0_1`.
fn second_number(word: &[u8]) -> u32
    requires name { 3 ≤ length word.now }
    requires fits { words.second_number word.now < 2 ^ 32 }
    ensures { result ≡ words.second_number word.now }
{
    let numbers = &word[3..];
    number(&numbers[front_len::<Digit>(numbers)..])
}

/// What stands before the first digit.
fn letters(word: &[u8]) -> &[u8]
    ensures { result.now ≡ words.letters_of word.now }
{
    &word[..front_len::<NoDigit>(word)]
}

/// A field by its letters and its number.
fn field_lettered(letters: &[u8], number: u32) -> CField
    ensures { result ≡ words.field_lettered letters.now number }
{
    match letters {
        b"p" => CField::Param(number),
        b"g" => CField::Given(number),
        b"r" => CField::Resist(number),
        b"q" => CField::React(number),
        b"er" => CField::EntryResist(number),
        b"eq" => CField::EntryReact(number),
        b"o" => CField::OpVar(number),
        b"h" => CField::Stored(number),
        _ => CField::Temperature,
    }
}

/// The first number of a name `fn_0_1`.
fn first_number(word: &[u8]) -> u32
    requires name { 3 ≤ length word.now }
    requires fits { words.first_number word.now < 2 ^ 32 }
    ensures { result ≡ words.first_number word.now }
{
    let numbers = &word[3..];
    number(&numbers[..front_len::<Digit>(numbers)])
}

/// Whether names of this kind hold a module's number.
#[tactic(auto, unfolding(crate::specs::Words::has_module_number))]
fn has_module_number(kind: u16) -> bool
    ensures { result ≡ words.has_module_number kind }
{
    MODULE_FUNCTION <= kind && kind <= LAST_NUMBERED
}

/// The module's number in a name of this kind.
#[tactic(auto, unfolding(crate::specs::Words::module_number))]
fn module_number(kind: u16, word: &[u8]) -> u32
    requires of_kind { IsOfKind kind word.now }
    requires numbered { words.has_module_number kind ≡ true }
    ensures { result ≡ words.module_number kind word.now }
{
    if kind == MODULE_FUNCTION {
        first_number(word)
    } else {
        number(word)
    }
}

/// What stands between the quotes of a string.
fn between_quotes(word: &[u8]) -> &[u8]
    ensures { result.now ≡ words.between_quotes word.now }
{
    if word.len() < 2 {
        &[]
    } else {
        &word[1..word.len() - 1]
    }
}

/// The byte that three octal digits give.
fn octal(a: u8, b: u8, c: u8) -> u8
    requires { words.octal a b c < 256 }
    ensures { result ≡ words.octal a b c }
{
    let digit = |byte: u8| u32::from(byte.saturating_sub(b'0'));
    (64 * digit(a) + 8 * digit(b) + digit(c)) as u8
}

/// The bytes that a string stands for, of which these stand between its quotes.
fn string_bytes(alloc: Global, quoted: &[u8]) -> Result<Vec<u8>, AllocError>
    requires { are_bytes (words.string_bytes quoted.now) ≡ true }
    ensures { IfOk result (λ v. v.items ≡ words.string_bytes quoted.now) }
{
    let mut bytes = Vec::new(alloc);
    let mut rest = quoted;
    loop {
        match rest {
            [b'\\', a, b, c, more @ ..] => {
                bytes.push(octal(*a, *b, *c))?;
                rest = more;
            }
            [byte, more @ ..] => {
                bytes.push(*byte)?;
                rest = more;
            }
            [] => return Ok(bytes),
        }
    }
}
