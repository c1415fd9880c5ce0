//! Rule 6 of form, types: operands have the same type, and what is set, passed, tested or returned has the type that is wanted.
//!
//! It walks the flat lists of statements as the rules of `c_form` do, with the types of the locals that are known at each place.
#![tactic(auto)]

mod atom_types;
mod bodies;
mod file;
mod right_sides;
mod right_types;
mod signatures;
mod statements;

pub use file::types_fault;
