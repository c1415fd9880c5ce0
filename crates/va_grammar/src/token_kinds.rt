//! The kinds of the tokens of a text.
ghost use Rattle.std.specs.Prelude.{◌≡◌, IfOk};
ghost use Rattle.predict.specs.Sentence.{EndsWith};
ghost use Rattle.va_base.specs.Expansion.{IsExpanded};
ghost use Rattle.va_grammar.specs.Kinds as lexical;
ghost use Rattle.va_grammar.specs.Terminals.{keywords, marks, spelling_of};
ghost use Rattle.va_grammar.specs.Sets.{va_rules};

use crate::tables::{KEYWORDS, MARKS};
use crate::terminal::Terminal;
use std::alloc::Global;
use va_base::{Expanded, NoMemory, TokenKind};

/// Whether these bytes spell a kind that has a spelling of its own.
fn is_spelled(terminal: Terminal, bytes: &[u8]) -> bool
    ensures { result ≡ lexical.is_spelling (spelling_of terminal) bytes.now }
{
    match terminal.spelling() {
        None => false,
        Some(spelling) => spelling.as_bytes() == bytes,
    }
}

/// The keywords of so many bytes.
fn keywords_of(length: usize) -> &'static [Terminal]
    ensures { result.now ≡ lexical.as_long length keywords }
{
    if length < KEYWORDS.len() {
        KEYWORDS[length]
    } else {
        &[]
    }
}

/// The operators and brackets of so many bytes.
fn marks_of(length: usize) -> &'static [Terminal]
    ensures { result.now ≡ lexical.as_long length marks }
{
    if length < MARKS.len() {
        MARKS[length]
    } else {
        &[]
    }
}

/// The first of some kinds that these bytes spell, or else another kind.
fn spelled(terminals: &[Terminal], bytes: &[u8], other: Terminal) -> Terminal
    ensures { result ≡ lexical.spelled_among terminals.now bytes.now other }
{
    for terminal in terminals {
        if is_spelled(*terminal, bytes) {
            return *terminal;
        }
    }
    other
}

/// The kind of a token.
fn kind_of(kind: TokenKind, bytes: &[u8]) -> Terminal
    ensures { result ≡ lexical.kind_of kind bytes.now }
{
    match kind {
        TokenKind::Word => spelled(keywords_of(bytes.len()), bytes, Terminal::Name),
        TokenKind::System => Terminal::System,
        TokenKind::Number => Terminal::Number,
        TokenKind::Text => Terminal::Text,
        TokenKind::Mark => spelled(marks_of(bytes.len()), bytes, Terminal::EndOfText),
        TokenKind::Tick | TokenKind::Newline | TokenKind::Bad | TokenKind::End => {
            Terminal::EndOfText
        }
    }
}

/// The number of the kind of each token, in order, as the parser takes them. An escaped word is a name, whatever it spells
/// (Lexical conventions).
pub fn kinds(alloc: Global, e: &Expanded) -> Result<Vec<u16>, NoMemory>
    requires { IsExpanded e.now }
    ensures kinds { IfOk result (λ k. k.items ≡ lexical.kinds_of e.now) }
    ensures ended { IfOk result (λ k. EndsWith va_rules.end_kind k.items) }
{
    let tokens = e.tokens.as_list();
    let mut list = Vec::with_capacity(alloc, tokens.len())?;
    for token in tokens {
        list.push(kind_of(token.kind, e.bytes(token)).number())?;
    }
    Ok(list)
}
