//! Four whole C files, their texts, and runs of them that were worked out by hand.
#![tactic(auto)]

pub mod diode;
pub mod inductor;
pub mod power;
pub mod resistor;
