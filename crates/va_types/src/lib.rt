//! The types of a text's expressions, and the faults of types.
#![tactic(auto)]

pub mod arguments;
pub mod calls;
pub mod expressions;
pub mod found;
pub mod kinds;
pub mod operators;
pub mod statements;
pub mod table;

pub use found::Found;
pub use table::{Signature, Table};
