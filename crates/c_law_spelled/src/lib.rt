//! Which C files a text can spell. The laws are the contracts of functions with nothing to do.
#![tactic(auto)]

pub mod laws;

pub use laws::{one_file, only_spelled, spelled_exactly};
