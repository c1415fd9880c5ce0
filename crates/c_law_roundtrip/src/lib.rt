//! What is printed is read back: the text of a C file writes exactly the numbers that the file asks for, and where the file obeys
//! the rules of form, reading its text gives that file. The laws are the contracts of functions with nothing to do.
#![tactic(auto)]

pub mod laws;
pub mod worked;

pub use laws::{print_is_read_back, print_keeps_form, print_spells_itself, print_writes_raw};
pub use worked::forget_worked_by_hand;
