//! Worked examples of what small modules mean.
#![tactic(auto)]

pub mod worked;
