//! The texts that the program writes: the tables of a C file, and the lines that tell why there is no output.
#![tactic(auto)]

mod reasons;

pub use c_tables::tables;
pub use reasons::{fault_line, no_such_file_line, read_fault_line, usage_line};
