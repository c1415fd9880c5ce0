//! The lists of uses of macros (Using a text macro).
ghost use Rattle.std.specs.Prelude.{◌≡◌, ◌≤◌, ◌<◌, ◌^◌, ℕ, zero, suc, IfOk, length};
ghost use Rattle.va_preproc.specs.Uses as macro_uses;
ghost use Rattle.va_preproc.specs.Uses.{part, arguments_form, list_form};
ghost use Rattle.va_preproc.specs.Values.{lexeme_in, lexemes_in, part_seen, list_seen};

use crate::role::{is_line_end, is_spelled};
use std::alloc::Global;
use va_base::{FileText, NoMemory, Token};

/// What a token is to the list of a use.
#[derive(Clone, Copy, Debug)]
pub enum Part {
    /// The list's own `)`.
    ListEnd,
    /// A comma outside every pair of brackets.
    ArgumentEnd,
    /// A token of an argument, after which so many pairs are open.
    OfArgument(usize),
}

/// The list of a use: how many tokens are read until it is known, and its arguments, where it opens and closes.
#[derive(Debug, Drop)]
pub struct ArgumentList<'a> {
    pub taken: usize,
    pub arguments: Option<Vec<&'a [Token]>>,
}

/// A token opens a pair of brackets.
fn opens(files: &[FileText], token: &Token) -> bool
    ensures { result ≡ macro_uses.opens (lexeme_in files.now token.now) }
{
    is_spelled(files, token, b"(") || is_spelled(files, token, b"[")
}

/// A token closes a pair of brackets.
fn closes(files: &[FileText], token: &Token) -> bool
    ensures { result ≡ macro_uses.closes (lexeme_in files.now token.now) }
{
    is_spelled(files, token, b")") || is_spelled(files, token, b"]")
}

/// What a token is outside every pair.
fn part_outside(files: &[FileText], token: &Token) -> Part
    ensures { part_seen result ≡ part zero (lexeme_in files.now token.now) }
{
    if is_spelled(files, token, b")") {
        return Part::ListEnd;
    }
    if is_spelled(files, token, b",") {
        return Part::ArgumentEnd;
    }
    Part::OfArgument(if opens(files, token) { 1 } else { 0 })
}

/// What a token is inside one pair and so many more.
fn part_inside(files: &[FileText], token: &Token, pairs: usize) -> Part
    requires { pairs < 2 ^ 63 }
    ensures { part_seen result ≡ part (suc pairs) (lexeme_in files.now token.now) }
{
    if opens(files, token) {
        return Part::OfArgument(pairs + 2);
    }
    if closes(files, token) {
        return Part::OfArgument(pairs);
    }
    Part::OfArgument(pairs + 1)
}

/// What a token is to the list of a use, inside so many open pairs of brackets.
fn part_of(files: &[FileText], token: &Token, pairs: usize) -> Part
    requires { pairs < 2 ^ 63 }
    ensures { part_seen result ≡ part pairs (lexeme_in files.now token.now) }
{
    if pairs == 0 {
        return part_outside(files, token);
    }
    part_inside(files, token, pairs - 1)
}

/// The arguments of a list, from the token after its `(` on.
fn arguments_in<'a>(
    alloc: Global,
    files: &[FileText],
    tokens: &'a [Token],
) -> Result<ArgumentList<'a>, NoMemory>
    ensures arguments { IfOk result (λ list. list_seen files.now list ≡ arguments_form 0 (lexemes_in files.now tokens.now)) }
    ensures within { IfOk result (λ list. list.taken ≤ length tokens.now) }
{
    let mut arguments = Vec::new(alloc);
    let mut begin = 0;
    let mut pairs = 0;
    for (at, token) in tokens.iter().enumerate() {
        match part_of(files, token, pairs) {
            Part::ListEnd => {
                arguments.push(&tokens[begin..at])?;
                return Ok(ArgumentList {
                    taken: at + 1,
                    arguments: Some(arguments),
                });
            }
            Part::ArgumentEnd => {
                arguments.push(&tokens[begin..at])?;
                begin = at + 1;
                pairs = 0;
            }
            Part::OfArgument(open) => pairs = open,
        }
    }
    Ok(ArgumentList {
        taken: tokens.len(),
        arguments: None,
    })
}

/// The list of a use, from the token after its name on.
pub fn argument_list<'a>(
    alloc: Global,
    files: &[FileText],
    tokens: &'a [Token],
) -> Result<ArgumentList<'a>, NoMemory>
    ensures arguments { IfOk result (λ list. list_seen files.now list ≡ list_form (lexemes_in files.now tokens.now)) }
    ensures within { IfOk result (λ list. list.taken ≤ length tokens.now) }
{
    for (at, token) in tokens.iter().enumerate() {
        if is_line_end(token) {
            continue;
        }
        if !is_spelled(files, token, b"(") {
            return Ok(ArgumentList {
                taken: at + 1,
                arguments: None,
            });
        }
        let list = arguments_in(alloc, files, &tokens[at + 1..])?;
        return Ok(ArgumentList {
            taken: at + 1 + list.taken,
            arguments: list.arguments,
        });
    }
    Ok(ArgumentList {
        taken: tokens.len(),
        arguments: None,
    })
}
