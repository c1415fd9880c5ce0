//! The raw tree of a C text, read from its parse tree.
#![tactic(auto)]

mod atoms;
mod bodies;
mod descriptors;
mod functions;
mod headers;
mod loads;
mod modules;
pub mod raw;
mod reader;
mod rights;
mod row;
mod setups;
mod simple;
mod structs;
mod tables;
mod text;

pub use raw::read_raw;
