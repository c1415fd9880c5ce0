//! From the parse tree of a text to its source tree, and the limits of size of the texts that the grammar of Verilog-A spells.
#![tactic(auto)]

mod attributes;
mod disciplines;
mod done;
mod functions;
mod item_bodies;
mod modules;
mod name_lists;
mod natures;
mod operators;
mod parameters;
mod ranges;
mod read_expressions;
mod read_names;
mod read_source;
mod read_statements;
mod reader;
mod size;
mod size_links;
mod size_rules;
mod size_scan;
pub mod source;
mod statement_heads;
mod statement_parts;

pub use source::{TreeErr, build};
pub use va_grammar::{VaRows, kinds};
