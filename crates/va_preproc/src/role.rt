//! What tokens are to the expansion: directives, uses of macros, names (Compiler directives).
ghost use Rattle.std.specs.Prelude.{◌≡◌, option_map, List, take, drop};
ghost use Rattle.std.specs.List.{list_any};
ghost use Rattle.std.specs.Str.{bytes_eq};
ghost use Rattle.va_base.specs.Expansion.{token_bytes};
ghost use Rattle.va_preproc.specs.Types as types;
ghost use Rattle.va_preproc.specs.Lexemes as lexemes;
ghost use Rattle.va_preproc.specs.Lexemes.{directives, directive_of};
ghost use Rattle.va_preproc.specs.Values.{lexeme_in, role_seen};

use crate::directive::Directive;
use va_base::{FileText, Token, TokenKind};

/// What a token is to the expansion.
#[derive(Clone, Copy, Debug)]
pub enum Role<'a> {
    LineEnd,
    Directive(Directive),
    /// A use of a macro, by its name.
    Use(&'a [u8]),
    /// A name.
    Name(&'a [u8]),
    Another,
}

/// The bytes that spell a token.
pub fn bytes_of<'a>(files: &'a [FileText], token: &Token) -> &'a [u8]
    ensures { result.now ≡ token_bytes files.now token.now }
{
    match files.get(token.file as usize) {
        Some(file) => part(
            file.bytes.as_list(),
            token.first as usize,
            token.len as usize,
        ),
        None => &[],
    }
}

/// So many bytes from an index on, or as many as there are.
fn part(bytes: &[u8], first: usize, len: usize) -> &[u8]
    ensures { result.now ≡ take len (drop first bytes.now) }
{
    let rest = &bytes[first.min(bytes.len())..];
    &rest[..len.min(rest.len())]
}

/// The bytes after the first.
fn without_first(bytes: &[u8]) -> &[u8]
    ensures { result.now ≡ drop 1 bytes.now }
{
    &bytes[1.min(bytes.len())..]
}

/// A word without the `\` of its second form.
fn unescaped(word: &[u8]) -> &[u8]
    ensures { result.now ≡ lexemes.unescaped word.now }
{
    match word {
        [b'\\', rest @ ..] => rest,
        _ => word,
    }
}

/// The directive of a name, if it is one's.
pub fn directive_named(name: &[u8]) -> Option<Directive>
    ensures { result ≡ directive_of name.now }
{
    if b"define".as_slice() == name {
        return Some(Directive::Define);
    }
    if b"undef".as_slice() == name {
        return Some(Directive::Undef);
    }
    if b"ifdef".as_slice() == name {
        return Some(Directive::Ifdef);
    }
    if b"ifndef".as_slice() == name {
        return Some(Directive::Ifndef);
    }
    if b"elsif".as_slice() == name {
        return Some(Directive::Elsif);
    }
    if b"else".as_slice() == name {
        return Some(Directive::Else);
    }
    if b"endif".as_slice() == name {
        return Some(Directive::Endif);
    }
    if b"include".as_slice() == name {
        return Some(Directive::Include);
    }
    if is_ignored(name) {
        return Some(Directive::Ignored);
    }
    None
}

/// A directive of this name has no effect here.
fn is_ignored(name: &[u8]) -> bool
    ensures { result ≡ list_any (λ entry. bytes_eq entry.0 name.now) (drop 8 directives) }
{
    b"timescale".as_slice() == name
        || b"default_discipline".as_slice() == name
        || b"default_transition".as_slice() == name
        || b"default_nettype".as_slice() == name
        || b"resetall".as_slice() == name
        || b"begin_keywords".as_slice() == name
        || b"end_keywords".as_slice() == name
        || b"celldefine".as_slice() == name
        || b"endcelldefine".as_slice() == name
}

/// What a token is to the expansion.
pub fn role_of<'a>(files: &'a [FileText], token: &Token) -> Role<'a>
    ensures { role_seen result ≡ lexemes.role_of (lexeme_in files.now token.now) }
{
    match token.kind {
        TokenKind::Word => Role::Name(unescaped(bytes_of(files, token))),
        TokenKind::Tick => tick_role(bytes_of(files, token)),
        TokenKind::Newline => Role::LineEnd,
        _ => Role::Another,
    }
}

/// A backquote with a name: a directive, or else a use of a macro.
fn tick_role(bytes: &[u8]) -> Role<'_>
    ensures { role_seen result ≡ lexemes.tick_role (directive_of (drop 1 bytes.now)) (drop 1 bytes.now) }
{
    let name = without_first(bytes);
    match directive_named(name) {
        Some(directive) => Role::Directive(directive),
        None => Role::Use(name),
    }
}

/// The name that a token is, if it is one.
pub fn name_of<'a>(files: &'a [FileText], token: &Token) -> Option<&'a [u8]>
    ensures { option_map (λ name. name.now) result ≡ lexemes.name_of (lexeme_in files.now token.now) }
{
    match role_of(files, token) {
        Role::Name(name) => Some(name),
        _ => None,
    }
}

/// A token is the end of a line.
pub fn is_line_end(token: &Token) -> bool
    ensures { (files : List types.FileText) → result ≡ lexemes.is_line_end (lexeme_in files token.now) }
{
    match token.kind {
        TokenKind::Newline => true,
        _ => false,
    }
}

/// What stands between the quotes of a string.
pub fn content_of<'a>(files: &'a [FileText], token: &Token) -> Option<&'a [u8]>
    ensures { option_map (λ content. content.now) result ≡ lexemes.content_of (lexeme_in files.now token.now) }
{
    if token.kind != TokenKind::Text {
        return None;
    }
    let bytes = bytes_of(files, token);
    Some(part(bytes, 1, bytes.len().saturating_sub(2)))
}

/// These bytes spell a token.
pub fn is_spelled(files: &[FileText], token: &Token, bytes: &[u8]) -> bool
    ensures { result ≡ lexemes.is_spelled bytes.now (lexeme_in files.now token.now) }
{
    bytes_of(files, token) == bytes
}
