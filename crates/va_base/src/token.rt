//! Tokens of Verilog-A.
use crate::place::Place;

/// What a token is (Lexical conventions).
#[derive(Clone, Copy, Debug, PartialEq, Eq)]
pub enum TokenKind {
    /// A word, in one of its two forms: a letter or `_` and what follows it, or `\` and visible bytes.
    Word,
    /// A system name, as `$temperature`.
    System,
    /// A backquote and the word that directly follows it.
    Tick,
    /// A numeral within the limits.
    Number,
    /// A string with its quotes.
    Text,
    /// An operator or a bracket.
    Mark,
    /// A line end.
    Newline,
    /// Bytes that are no token of the language.
    Bad,
    /// The end of a text.
    End,
}

/// A token: its kind, where its bytes are, and its place. The bytes are those of the file of the number `file` from the index
/// `first` on, `len` in number. The place is that of the token in the text, which differs where a macro put the token there.
#[derive(Clone, Copy, Debug, PartialEq, Eq)]
pub struct Token {
    pub kind: TokenKind,
    pub file: u32,
    pub first: u32,
    pub len: u32,
    pub place: Place,
}

const _: () = prove!(size_of::<Token>() <= 32);
