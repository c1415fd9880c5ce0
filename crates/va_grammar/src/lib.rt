//! The rows of Verilog-A as a grammar that `predict` parses by, and the kinds of the tokens of a text.
#![tactic(auto)]

pub mod nonterminal;
pub mod row;
pub mod rows;
pub mod tables;
pub mod terminal;
pub mod token_kinds;
pub mod va_rows;

pub use nonterminal::Nonterminal;
pub use terminal::Terminal;
pub use token_kinds::kinds;
pub use va_rows::VaRows;
