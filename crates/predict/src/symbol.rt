//! Symbols of a grammar's rows.

/// One symbol of a row.
#[derive(Clone, Copy, Debug, PartialEq, Eq)]
pub enum Symbol {
    /// A kind of token, which stands for itself.
    Kind(u16),
    /// A nonterminal, which gives way to one of its rows.
    Left(u16),
}
