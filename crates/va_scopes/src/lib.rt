//! What names mean at a place of a text: scopes in one another, and second declarations in one scope.
#![tactic(auto)]

pub mod bindings;
pub mod blocks;
pub mod least;
pub mod scopes;
mod table;
pub mod twice;

pub use bindings::{Binding, Kind, Seen};
pub use least::FaultAt;
pub use scopes::Scopes;
