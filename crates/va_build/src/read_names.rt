//! Reading names, strings and numerals of a text, by the indices of their tokens.
ghost use Rattle.std.specs.Prelude.{◌≡◌, ◌+◌, ◌<◌, IfOk, OnOk};
ghost use Rattle.std.specs.List.{list_all};
ghost use Rattle.va_base.specs.Expansion.{IsExpanded};
ghost use Rattle.va_base.specs.Spelling.{is_digit_byte};
ghost use Rattle.va_build.specs.TokensAt as tokens_at;

use crate::reader::Reader;
use std::alloc::{AllocError, Global};
use va_base::{Decimal, Expanded, Name, TokenKind, decimal};
use va_tree::{Expr, NameAt};

/// A word without the `\` of its escaped form.
fn word_bytes(bytes: &[u8]) -> &[u8]
    ensures { result.now ≡ tokens_at.word_name bytes.now }
{
    match bytes.split_first() {
        Some((b'\\', rest)) => rest,
        _ => bytes,
    }
}

/// What names a thing: a word without its `\`, a string between its quotes, and else the bytes themselves.
fn name_bytes(kind: TokenKind, bytes: &[u8]) -> &[u8]
    ensures { result.now ≡ tokens_at.name_of kind bytes.now }
{
    match kind {
        TokenKind::Word => word_bytes(bytes),
        TokenKind::Text => {
            if bytes.len() < 2 {
                &[]
            } else {
                &bytes[1..bytes.len() - 1]
            }
        }
        _ => bytes,
    }
}

/// The bytes of the token with this index, and none where there is no such token.
fn bytes_at(e: &Expanded, at: u32) -> &[u8]
    requires { IsExpanded e.now }
    ensures { result.now ≡ tokens_at.bytes_at e.now at }
{
    match e.tokens.as_list().get(at as usize) {
        Some(token) => e.bytes(token),
        None => &[],
    }
}

/// The name or string at the token with this index.
pub(crate) fn name_at(alloc: Global, e: &Expanded, at: u32) -> Result<Name, AllocError>
    requires { IsExpanded e.now }
    ensures { IfOk result (λ n. n ≡ tokens_at.name_at e.now at) }
{
    let name = match e.tokens.as_list().get(at as usize) {
        Some(token) => name_bytes(token.kind, e.bytes(token)),
        None => &[],
    };
    Ok(Name::new(name.to_vec(alloc)?))
}

/// Passes the next token, a name or a string.
pub(crate) fn named(
    alloc: Global,
    e: &Expanded,
    reader: &mut Reader<'_>,
) -> Result<NameAt, AllocError>
    requires expanded { IsExpanded e.now }
    requires due { reader.old.at < 2000000 }
    ensures name { IfOk result (λ n. n ≡ tokens_at.named e.now reader.old.at) }
    ensures passed { OnOk result (reader.new.at ≡ reader.old.at + 1) }
    ensures nodes { OnOk result (reader.new.nodes ≡ reader.old.nodes) }
{
    let at = reader.pass();
    let name = name_at(alloc, e, at)?;
    Ok(NameAt { at, name })
}

/// Whether some bytes are digits and `_` alone.
fn are_digits(bytes: &[u8]) -> bool
    ensures { result ≡ list_all is_digit_byte bytes.now }
{
    for byte in bytes {
        if !byte.is_ascii_digit() && *byte != b'_' {
            return false;
        }
    }
    true
}

/// Whether a numeral of this value is an integer: one of digits alone that is not too large (Numbers).
fn is_integer(bytes: &[u8], value: Decimal) -> bool
    ensures { result ≡ tokens_at.is_integer bytes.now value }
{
    let digits = are_digits(bytes);
    digits && value.mantissa < 2147483648
}

/// The numeral at the token with this index.
pub(crate) fn literal(e: &Expanded, at: u32) -> Expr
    requires { IsExpanded e.now }
    ensures { result ≡ tokens_at.literal_at e.now at }
{
    let bytes = bytes_at(e, at);
    let zero = Decimal {
        mantissa: 0,
        power: 0,
    };
    let value = decimal(bytes).unwrap_or(zero);
    let integer = is_integer(bytes, value);
    Expr::Literal { at, value, integer }
}
