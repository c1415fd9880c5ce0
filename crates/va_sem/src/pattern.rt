//! Which parts of which rows depend on which unknowns.
use va_base::Items;

/// The entries of a module's Jacobian, by row, then by column.
#[derive(Drop)]
pub struct Pattern {
    pub entries: Items<PatternEntry>,
}

/// An entry that is listed, and which of its two parts are: the resistive one, the reactive one.
#[derive(Clone, Copy, Debug, PartialEq, Eq)]
pub struct PatternEntry {
    pub row: u32,
    pub col: u32,
    pub resist: bool,
    pub react: bool,
}
