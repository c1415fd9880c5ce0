//! A predictive parser for any grammar, which blames exactly the first bad token.
#![tactic(auto)]

pub mod grammar;
pub mod parser;
pub mod symbol;
pub mod tree;

pub use grammar::Grammar;
pub use parser::{ParseErr, parse};
pub use symbol::Symbol;
pub use tree::{ParseNode, ParseTree};
