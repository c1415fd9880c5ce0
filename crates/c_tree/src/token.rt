//! The tokens of a C file.

/// The kind of a token of a C file.
#[derive(Clone, Copy, Debug, PartialEq, Eq)]
pub enum CTokenKind {
    /// `#include` and all that stands on its line.
    Include,
    /// A letter or `_`, and then letters, digits and `_`.
    Word,
    /// A point and a word, once or more, as `.name`: a field in an element of a table.
    Field,
    /// `3`, of type `int32_t`.
    Integer,
    /// `3u`, of type `uint32_t`.
    Unsigned,
    /// `15e-4`, of type `double`.
    Real,
    /// A string.
    Text,
    /// An operator or a bracket.
    Mark,
}

/// A token of a C file: its kind, the index of its first byte, and how many bytes it has.
#[derive(Clone, Copy, Debug, PartialEq, Eq)]
pub struct CToken {
    pub kind: CTokenKind,
    pub first: u32,
    pub len: u32,
}
