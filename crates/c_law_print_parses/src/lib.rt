//! What is printed can be read: the text of a C file is a sentence of its grammar, and stands for that file. The laws are the
//! contracts of functions with nothing to do.
#![tactic(auto)]

pub mod laws;

pub use laws::{print_is_read, print_is_syntax, print_stands_for};
