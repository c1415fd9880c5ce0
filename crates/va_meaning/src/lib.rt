//! What a module means: its evaluation over any algebra, its rows, residuals and Jacobian, and its set-up.
#![tactic(auto)]

pub mod elaboration;
pub mod laws;
