//! What an expansion knows: its macros and the files that it read.
use indexmap::{IndexMap, IndexSet};
use std::alloc::Global;
use va_base::{FileText, Token};

/// The formals of a macro, in order.
pub type FormalNames = IndexSet<Vec<u8>>;

/// A macro: its formals, where it was defined with a list of them, and its body.
#[derive(Debug, Drop)]
pub struct Macro {
    pub formals: Option<FormalNames>,
    pub body: Vec<Token>,
}

/// Macros by their names.
pub type MacroTable = IndexMap<Vec<u8>, Macro>;

/// The macros that are defined now, by their names, and the files that were read, by their numbers.
#[derive(Drop)]
pub struct Known {
    pub alloc: Global,
    pub macros: MacroTable,
    pub files: Vec<FileText>,
}
