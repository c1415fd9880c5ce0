//! Algebras of values, with their laws, and the dual numbers over any of them.
//!
//! The meaning of a source and of the C made of it are stated over any algebra, so that they hold of the real numbers of a
//! reader's choice. A derivative is an evaluation over the dual numbers.
#![tactic(auto)]

pub mod algebra;
pub mod computation_laws;
pub mod dual;
pub mod function;
pub mod laws;
pub mod number;
pub mod whole;
pub mod worked;

pub use algebra::Algebra;
pub use dual::Dual;
pub use function::{Fun1, Fun2};
pub use number::{Number, Reason, Ty};
pub use whole::Whole;
