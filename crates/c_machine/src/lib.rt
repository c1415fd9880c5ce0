//! The machine on which the functions of a C file run, over any algebra: its cells, executions of bodies, loads, and runs.
//!
//! The machine is a definition (`specs/Machine`, `specs/Execution`, `specs/Loading`, `specs/Runs`). Its laws are the contracts of
//! functions with nothing to do.
#![tactic(auto)]

pub mod laws;
pub mod worked;
