//! Rule 4 of form, settings, asked of the raw tree of a C text: which is the least token at which a local is not set as it is
//! declared.
//!
//! A constant is never set again. A local that is declared without a value is set once in each arm of the next `if` of its block,
//! one that is declared with a value and isn't constant once in the next `for`, behind its `break`. Where a number is declared more
//! than once, its first declaration counts.
//!
//! One pass over a body keeps for each declared local how far its settings have come, and for each open block the locals that
//! depend on it; a statement looks only at the locals that it names and at those that the block lists for it.
#![tactic(auto)]

mod duty;
mod pass;
mod settings;
mod simple;
mod start;
mod state;

pub use settings::settings_fault;
