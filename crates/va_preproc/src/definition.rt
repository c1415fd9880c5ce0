//! Definitions of macros (`define and `undef).
ghost use Rattle.std.specs.Prelude.{◌≡◌, ◌≤◌, ◌<◌, ◌+◌, ◌^◌, IfOk, List, length, take, drop, map, option_map, Some, [], codes, ◌&&◌, ◌==◌};
ghost use Rattle.va_preproc.specs.Types as types;
ghost use Rattle.va_preproc.specs.Lexemes as lexemes;
ghost use Rattle.va_preproc.specs.Definitions as definitions;
ghost use Rattle.va_preproc.specs.Definitions.{line, next_token, new_name_as, formals_form, after_formals, body_form, definition_form};
ghost use Rattle.va_preproc.specs.Values.{lexeme_in, lexemes_in, formals_seen, definition_seen, separator_seen};

use crate::known::FormalNames;
use crate::role::{content_of, directive_named, is_line_end, is_spelled, name_of};
use std::alloc::Global;
use va_base::{FileText, NoMemory, Token};

/// A list of formals after its `(`: how many tokens are read until it is known, and the names, if it is one.
#[derive(Debug, Drop)]
pub struct Formals {
    pub taken: usize,
    pub names: Option<FormalNames>,
}

/// A definition after its directive: how many tokens are read until it is known, and its name, if it is of the form of one,
/// with its formals, where it has a list of them, and its body.
#[derive(Debug, Drop)]
pub struct Definition<'a> {
    pub taken: usize,
    pub name: Option<&'a [u8]>,
    pub formals: Option<FormalNames>,
    pub body: &'a [Token],
}

/// What stands after a formal.
#[derive(Clone, Copy, Debug)]
pub enum Separator {
    Comma,
    Closing,
    Neither,
}

/// How many tokens stand before the line's end.
pub fn line_len(tokens: &[Token]) -> usize
    ensures line { (files : List types.FileText) → line (lexemes_in files tokens.now) ≡ lexemes_in files (take result tokens.now) }
    ensures within { result ≤ length tokens.now }
{
    for (at, token) in tokens.iter().enumerate() {
        if is_line_end(token) {
            return at;
        }
    }
    tokens.len()
}

/// The name that a token is, if it is one that no directive has.
pub fn macro_name<'a>(files: &'a [FileText], token: &Token) -> Option<&'a [u8]>
    ensures { option_map (λ name. name.now) result ≡ definitions.macro_name (lexeme_in files.now token.now) }
{
    match name_of(files, token) {
        Some(name) => match directive_named(name) {
            Some(_) => None,
            None => Some(name),
        },
        None => None,
    }
}

/// The macro's name that the first of some tokens is, if it is one.
pub fn first_macro_name<'a>(files: &'a [FileText], tokens: &[Token]) -> Option<&'a [u8]>
    ensures { option_map (λ name. name.now) result ≡ (next_token definitions.macro_name (lexemes_in files.now tokens.now)).meaning }
{
    match tokens.first() {
        Some(token) => macro_name(files, token),
        None => None,
    }
}

/// A string's content, where it is UTF-8.
fn file_name<'a>(files: &'a [FileText], token: &Token) -> Option<&'a str>
    ensures { option_map (λ name. name.now) result ≡ definitions.file_name (lexeme_in files.now token.now) }
{
    match content_of(files, token) {
        Some(content) => match str::from_utf8(content) {
            Ok(name) => Some(name),
            Err(_) => None,
        },
        None => None,
    }
}

/// The file's name that the first of some tokens is, if it is one.
pub fn first_file_name<'a>(files: &'a [FileText], tokens: &[Token]) -> Option<&'a str>
    ensures { option_map (λ name. name.now) result ≡ (next_token definitions.file_name (lexemes_in files.now tokens.now)).meaning }
{
    match tokens.first() {
        Some(token) => file_name(files, token),
        None => None,
    }
}

/// A name is among some names.
fn has_name(names: &FormalNames, name: &[u8]) -> bool
    ensures { result ≡ lexemes.is_among (map (λ other. other.items) names.now.keys) name.now }
{
    names.contains(name)
}

/// The name that a token is, if it is one and none of these.
fn new_name<'a>(files: &'a [FileText], token: &Token, seen: &FormalNames) -> Option<&'a [u8]>
    ensures { option_map (λ name. name.now) result
        ≡ new_name_as (map (λ other. other.items) seen.now.keys) (lexemes.name_of (lexeme_in files.now token.now)) }
{
    match name_of(files, token) {
        Some(name) => {
            if has_name(seen, name) {
                None
            } else {
                Some(name)
            }
        }
        None => None,
    }
}

/// What a token is after a formal.
fn separator_of(files: &[FileText], token: &Token) -> Separator
    ensures { separator_seen result ≡ definitions.separator (lexeme_in files.now token.now) }
{
    if is_spelled(files, token, b",") {
        return Separator::Comma;
    }
    if is_spelled(files, token, b")") {
        return Separator::Closing;
    }
    Separator::Neither
}

/// A list of formals after its `(`: distinct names with commas between them, closed on the line.
fn formals_in(alloc: Global, files: &[FileText], tokens: &[Token]) -> Result<Formals, NoMemory>
    ensures formals { IfOk result (λ formals. formals_seen formals ≡ formals_form [] (lexemes_in files.now tokens.now)) }
    ensures within { IfOk result (λ formals. formals.taken ≤ length tokens.now) }
{
    let mut seen = FormalNames::new(alloc);
    let mut at = 0;
    'formals: while tokens.len() - at > 1 {
        let Some(name) = new_name(files, &tokens[at], &seen) else {
            return Ok(Formals {
                taken: at + 1,
                names: None,
            });
        };
        seen.insert(name.to_vec(alloc)?)?;
        match separator_of(files, &tokens[at + 1]) {
            Separator::Comma => at += 2,
            Separator::Closing => {
                return Ok(Formals {
                    taken: at + 2,
                    names: Some(seen),
                });
            }
            Separator::Neither => {
                return Ok(Formals {
                    taken: at + 2,
                    names: None,
                });
            }
        }
    }
    Ok(Formals {
        taken: tokens.len(),
        names: None,
    })
}

/// A token follows another one with nothing between them.
fn follows_directly(token: &Token, next: &Token) -> bool
    ensures { result ≡ (next.now.first == token.now.first + token.now.len) }
{
    next.first as u64 == token.first as u64 + token.len as u64
}

/// A list of formals begins with the token after a macro's name.
fn opens_formals(files: &[FileText], token: &Token, next: &Token) -> bool
    ensures { result ≡ (lexemes.is_spelled (codes "(") (lexeme_in files.now next.now)
        && definitions.follows_directly (lexeme_in files.now token.now) (lexeme_in files.now next.now)) }
{
    is_spelled(files, next, b"(") && follows_directly(token, next)
}

/// A definition's formals and its body, after the `(` of its formals.
fn with_formals<'a>(
    alloc: Global,
    files: &[FileText],
    name: &'a [u8],
    after: &'a [Token],
) -> Result<Definition<'a>, NoMemory>
    ensures { IfOk result (λ d. let formals = formals_form [] (lexemes_in files.now after.now) in
        definition_seen files.now d ≡ after_formals name.now (lexemes_in files.now after.now) formals.taken formals.meaning) }
{
    let Formals { taken, names } = formals_in(alloc, files, after)?;
    let Some(names) = names else {
        return Ok(Definition {
            taken: 2 + taken,
            name: None,
            formals: None,
            body: &[],
        });
    };
    Ok(with_body(2 + taken, name, Some(names), &after[taken..]))
}

/// A definition with this name and these formals, whose body is what stands up to the line's end.
fn with_body<'a>(
    taken: usize,
    name: &'a [u8],
    formals: Option<FormalNames>,
    rest: &'a [Token],
) -> Definition<'a>
    requires { taken + length rest.now < 2 ^ 64 }
    ensures { (files : List types.FileText) → definition_seen files result
        ≡ body_form name.now (option_map (λ formals. map (λ formal. formal.items) formals.keys) formals) taken (lexemes_in files rest.now) }
{
    let len = line_len(rest);
    Definition {
        taken: taken + len,
        name: Some(name),
        formals,
        body: &rest[..len],
    }
}

/// A definition after its name.
fn after_name<'a>(
    alloc: Global,
    files: &[FileText],
    token: &Token,
    name: &'a [u8],
    rest: &'a [Token],
) -> Result<Definition<'a>, NoMemory>
    ensures { IfOk result (λ d. definition_seen files.now d
        ≡ definitions.after_name (lexeme_in files.now token.now) (lexemes_in files.now rest.now) (Some name.now)) }
{
    if rest.is_empty() {
        return Ok(with_body(1, name, None, rest));
    }
    let next = &rest[0];
    if opens_formals(files, token, next) {
        return with_formals(alloc, files, name, &rest[1..]);
    }
    Ok(with_body(1, name, None, rest))
}

/// A definition after its directive: a name that is no directive's, directly followed by a parenthesised list of distinct
/// names where the macro has arguments, then the tokens up to the line's end.
pub fn definition_in<'a>(
    alloc: Global,
    files: &'a [FileText],
    tokens: &'a [Token],
) -> Result<Definition<'a>, NoMemory>
    ensures { IfOk result (λ d. definition_seen files.now d ≡ definition_form (lexemes_in files.now tokens.now)) }
{
    let Some(token) = tokens.first() else {
        return Ok(Definition {
            taken: 0,
            name: None,
            formals: None,
            body: &[],
        });
    };
    let Some(name) = macro_name(files, token) else {
        return Ok(Definition {
            taken: 1,
            name: None,
            formals: None,
            body: &[],
        });
    };
    after_name(alloc, files, token, name, &tokens[1..])
}
