//! The piece at the front of a text: a token, what separates tokens, or bytes that are no token.
//!
//! Each byte of a piece is looked at a few times at most: once or twice, and in a numeral up to six times.
ghost use Rattle.std.specs.Prelude.{◌≡◌, ◌<◌, ◌≤◌, ◌+◌, ℕ, Bool, ◌==◌, IsTrue, IfSome, Some, None, length, drop, if◌then◌else◌};
ghost use Rattle.va_base.specs.Longest.{longest};
ghost use Rattle.va_base.specs.Spelling as spelling;
ghost use Rattle.va_base.specs.Spelling.{is_letter, is_digit, is_text_rest, is_mark};
ghost use Rattle.va_lexer.specs.Separators as separators;
ghost use Rattle.va_lexer.specs.Separators.{is_comment_rest, is_line_end, is_blank};
ghost use Rattle.va_lexer.specs.Pieces as pieces;
ghost use Rattle.va_lexer.specs.Pieces.{piece, shifted, is_other_byte};

use crate::bytes::{Blank, TextByte, Visible, WordByte};
use va_base::TokenKind;
use va_base::bytes::{ByteTest, Digit, InLine, Letter, begins, begins_with, front_len};
use va_base::numeral::{decimal, numeral_len};

/// A piece of a text: its kind, which a separator lacks, and how many bytes it has.
#[derive(Clone, Copy, Debug, PartialEq, Eq)]
pub struct Piece {
    pub kind: Option<TokenKind>,
    pub len: usize,
}

fn token(kind: TokenKind, len: usize) -> Piece
    ensures { result ≡ piece (Some kind) len }
{
    Piece {
        kind: Some(kind),
        len,
    }
}

fn separator(len: usize) -> Piece
    ensures { result ≡ piece None len }
{
    Piece { kind: None, len }
}

/// A word of the first form.
fn simple_word(text: &[u8]) -> Piece
    requires { IsTrue (spelling.begins is_letter text.now) }
    ensures { result ≡ pieces.front text.now }
{
    token(TokenKind::Word, front_len::<WordByte>(text))
}

fn white_space(text: &[u8]) -> Piece
    requires { IsTrue (spelling.begins is_blank text.now) }
    ensures { result ≡ pieces.front text.now }
{
    separator(front_len::<Blank>(text))
}

fn line_end(text: &[u8]) -> Piece
    requires { IsTrue (spelling.begins (λ first. first == 10) text.now) }
    ensures { result ≡ pieces.front text.now }
{
    token(TokenKind::Newline, 1)
}

/// The kind of a numeral: one outside the limits is no token.
fn numeral_kind(bytes: &[u8]) -> TokenKind
    ensures { result ≡ pieces.numeral_kind bytes.now }
{
    if decimal(bytes).is_some() {
        TokenKind::Number
    } else {
        TokenKind::Bad
    }
}

fn number(text: &[u8]) -> Piece
    requires { IsTrue (spelling.begins is_digit text.now) }
    ensures { result ≡ pieces.front text.now }
{
    let Some(len) = numeral_len(text) else {
        unreachable!();
    };
    token(numeral_kind(&text[..len]), len)
}

/// A system name, or a `$` alone.
fn system_name(text: &[u8]) -> Piece
    requires { IsTrue (spelling.begins (λ first. first == 36) text.now) }
    ensures { result ≡ pieces.front text.now }
{
    let len = front_len::<WordByte>(&text[1..]);
    if len == 0 {
        return token(TokenKind::Bad, 1);
    }
    token(TokenKind::System, 1 + len)
}

/// A backquote with its word, or alone.
fn tick(text: &[u8]) -> Piece
    requires { IsTrue (spelling.begins (λ first. first == 96) text.now) }
    ensures { result ≡ pieces.front text.now }
{
    let word = &text[1..];
    if !begins::<Letter>(word) {
        return token(TokenKind::Bad, 1);
    }
    token(TokenKind::Tick, 1 + front_len::<WordByte>(word))
}

/// How many bytes at the front belong together in a string: one, or `\` and the byte that it takes with it; none where a
/// quote stands there, or a byte that no string holds.
fn text_unit_len(rest: &[u8]) -> usize
    ensures unit { 0 < result → longest is_text_rest rest.now ≡ shifted result (longest is_text_rest (drop result rest.now)) }
    ensures none { result ≡ 0
        → longest is_text_rest rest.now ≡ (if spelling.begins (λ first. first == 34) rest.now then Some 1 else None) }
    ensures within { result ≤ length rest.now }
{
    if begins_with(rest, b'"') {
        return 0;
    }
    if !begins::<TextByte>(rest) {
        return 0;
    }
    if !begins_with(rest, b'\\') {
        return 1;
    }
    if begins::<TextByte>(&rest[1..]) { 2 } else { 0 }
}

/// The length of what follows a string's first quote, up to the quote that ends it.
fn text_rest_len(rest: &[u8]) -> Option<usize>
    ensures longest { result ≡ longest is_text_rest rest.now }
    ensures within { IfSome result (λ n. n ≤ length rest.now) }
{
    let mut at = 0;
    let mut unit = text_unit_len(rest);
    'units: while unit > 0 {
        at += unit;
        unit = text_unit_len(&rest[at..]);
    }
    if begins_with(&rest[at..], b'"') {
        Some(at + 1)
    } else {
        None
    }
}

/// A string, or what stands up to the line's end where none begins.
fn string(text: &[u8]) -> Piece
    requires { IsTrue (spelling.begins (λ first. first == 34) text.now) }
    ensures { result ≡ pieces.front text.now }
{
    match text_rest_len(&text[1..]) {
        Some(len) => token(TokenKind::Text, 1 + len),
        None => token(TokenKind::Bad, front_len::<InLine>(text)),
    }
}

/// The length of a line end at the front, before which a carriage return may stand.
fn line_end_len(text: &[u8]) -> Option<usize>
    ensures longest { result ≡ longest is_line_end text.now }
    ensures within { IfSome result (λ n. n ≤ length text.now) }
{
    if begins_with(text, b'\n') {
        return Some(1);
    }
    if !begins_with(text, b'\r') {
        return None;
    }
    if begins_with(&text[1..], b'\n') {
        Some(2)
    } else {
        None
    }
}

/// An escaped word, a line that goes on, or a `\` alone.
fn backslash(text: &[u8]) -> Piece
    requires { IsTrue (spelling.begins (λ first. first == 92) text.now) }
    ensures { result ≡ pieces.front text.now }
{
    let rest = &text[1..];
    let word = front_len::<Visible>(rest);
    if word > 0 {
        return token(TokenKind::Word, 1 + word);
    }
    match line_end_len(rest) {
        Some(len) => separator(1 + len),
        None => token(TokenKind::Bad, 1),
    }
}

fn closes_comment(text: &[u8]) -> bool
    ensures { result ≡ separators.closes_comment text.now }
{
    text.len() > 1 && text[0] == b'*' && text[1] == b'/'
}

/// The length of what follows the `/*` of a comment, up to the `*/` that ends it.
fn comment_rest_len(rest: &[u8]) -> Option<usize>
    ensures longest { result ≡ longest is_comment_rest rest.now }
    ensures within { IfSome result (λ n. n ≤ length rest.now) }
{
    let mut at = 0;
    'bytes: while at < rest.len() {
        if closes_comment(&rest[at..]) {
            return Some(at + 2);
        }
        at += 1;
    }
    None
}

/// A comment, or a `/` alone.
fn slash(text: &[u8]) -> Piece
    requires { IsTrue (spelling.begins (λ first. first == 47) text.now) }
    ensures { result ≡ pieces.front text.now }
{
    let rest = &text[1..];
    if begins_with(rest, b'/') {
        return separator(1 + front_len::<InLine>(rest));
    }
    if !begins_with(rest, b'*') {
        return token(TokenKind::Mark, 1);
    }
    match comment_rest_len(&rest[1..]) {
        Some(len) => separator(2 + len),
        None => token(TokenKind::Bad, text.len()),
    }
}

fn is_single_mark(byte: u8) -> bool
    ensures { result ≡ spelling.is_single_mark byte }
{
    matches!(
        byte,
        b'(' | b')'
            | b'['
            | b']'
            | b','
            | b';'
            | b':'
            | b'.'
            | b'='
            | b'<'
            | b'>'
            | b'+'
            | b'-'
            | b'*'
            | b'/'
            | b'%'
            | b'!'
            | b'?'
            | b'@'
    )
}

fn is_double_mark(first: u8, second: u8) -> bool
    ensures { result ≡ spelling.is_double_mark first second }
{
    matches!(
        (first, second),
        (b'=', b'=')
            | (b'!', b'=')
            | (b'<', b'=')
            | (b'<', b'+')
            | (b'>', b'=')
            | (b'*', b'*')
            | (b'&', b'&')
            | (b'|', b'|')
            | (b'(', b'*')
            | (b'*', b')')
    )
}

fn begins_double_mark(text: &[u8]) -> bool
    ensures { result ≡ pieces.begins_double_mark text.now }
{
    text.len() > 1 && is_double_mark(text[0], text[1])
}

/// The length of the longest mark at the front.
fn mark_len(text: &[u8]) -> Option<usize>
    ensures longest { result ≡ longest is_mark text.now }
    ensures within { IfSome result (λ n. n ≤ length text.now) }
{
    if begins_double_mark(text) {
        return Some(2);
    }
    let (first, _rest) = text.split_first()?;
    if is_single_mark(*first) {
        Some(1)
    } else {
        None
    }
}

/// A mark, or one byte that begins no token.
fn mark(text: &[u8]) -> Piece
    requires { IsTrue (spelling.begins is_other_byte text.now) }
    ensures { result ≡ pieces.front text.now }
{
    match mark_len(text) {
        Some(len) => token(TokenKind::Mark, len),
        None => token(TokenKind::Bad, 1),
    }
}

/// The piece at the front of a text, by its first byte.
fn piece_by_first_byte(text: &[u8]) -> Piece
    requires { 0 < length text.now }
    ensures { result ≡ pieces.front text.now }
{
    let first = text[0];
    if Letter::passes(first) {
        return simple_word(text);
    }
    if Blank::passes(first) {
        return white_space(text);
    }
    if Digit::passes(first) {
        return number(text);
    }
    match first {
        b'\n' => line_end(text),
        b'"' => string(text),
        b'$' => system_name(text),
        b'`' => tick(text),
        b'\\' => backslash(text),
        b'/' => slash(text),
        _ => mark(text),
    }
}

/// The piece at the front of a text: the longest token or separator, or bytes that are no token.
pub fn front(text: &[u8]) -> Piece
    requires { 0 < length text.now }
    ensures front { result ≡ pieces.front text.now }
    ensures some { 0 < result.len }
    ensures within { result.len ≤ length text.now }
{
    piece_by_first_byte(text)
}
