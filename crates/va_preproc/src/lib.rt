//! Compiler directives: macros, conditional text and includes. Their definitions stand in specs/.
#![tactic(auto)]

mod answer;
mod argument;
mod broken;
mod condition;
mod definition;
pub mod directive;
pub mod expansion;
mod files;
mod known;
pub mod laws;
mod limits;
mod progress;
mod reading;
mod role;
mod table;
mod turn;
mod uses;
pub mod worked;

pub use directive::Directive;
pub use expansion::{PreErr, expand};
