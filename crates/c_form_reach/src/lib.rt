//! Rule 8 of form, reach, asked of a raw tree: where cells may be set, and what the bodies and the load functions of a C text may
//! speak of.
//!
//! The bodies are walked as flat lists of statements, with a count of the blocks that are open around each, so no nesting of a
//! text needs a stack or a list that is as deep.
#![tactic(auto)]

mod deeper;
mod depth;
mod file;
mod load_arguments;
mod loads;
mod set_cells;
mod spoken;
mod temperature;
mod twice;
mod words;

pub use file::reach_fault;
