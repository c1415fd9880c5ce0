//! Bodies of numbered values: what lies between the source and the C.
//!
//! A body is a list of instructions in the order of the text. Each value has a number and is set once (static single assignment), so
//! a pass over a body is a walk over a list, and two bodies are compared number by number.
#![tactic(auto)]

pub mod body;
pub mod laws;
pub mod stages;
pub mod staging;
pub mod worked;

pub use body::{BinaryOperator, Body, Function, Instruction, Operation, UnaryOperator};
pub use stages::{
    BranchNumbers, BranchParts, Collapse, Derived, EntryParts, Flags, Lowered, ModuleBodies,
    ParameterNumbers, Parts, Rows, SetUp, Split, Staged,
};
pub use staging::without_cells;
