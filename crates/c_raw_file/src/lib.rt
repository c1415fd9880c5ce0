//! The file of a raw tree: what a `CFile` keeps of it.
#![tactic(auto)]

mod bodies;
mod file;
mod functions;
mod loads;
mod name;
mod statement;
mod tables;

pub use file::file_of;
