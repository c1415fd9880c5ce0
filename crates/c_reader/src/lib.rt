//! Reads C files: which file the bytes of a text spell, or why they spell none.
#![tactic(auto)]

mod form;
pub mod laws;
mod reading;

pub use form::form_fault;
pub use reading::read;
