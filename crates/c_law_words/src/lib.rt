//! The words of a C text: words that stand for themselves are its tokens, and each word gives back what it spells. The laws are
//! the contracts of functions with nothing to do.
#![tactic(auto)]

pub mod laws;

pub use laws::{words_are_read, words_give_back};
