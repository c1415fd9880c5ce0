//! Algebras whose operations a program can call: the numbers modulo 1000003, and the dual numbers over any such algebra. Over each
//! of them, the values of literals, and the operators of the language on values of both types.
#![tactic(auto)]

pub mod compute;
pub mod derivative;
pub mod dual;
pub mod integers;
pub mod literals;
pub mod operators;
pub mod residue;

pub use alg_laws::{Dual, Fun1, Fun2, Number, Reason, Ty};
pub use compute::Compute;
pub use residue::Residue;
