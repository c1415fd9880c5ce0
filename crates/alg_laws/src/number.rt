//! Values of both types of the language, real and integer, and why an evaluation may have no value.

/// The type of a value: integer, of 32 bits, or real (Integer and real data types).
#[derive(Clone, Copy, Debug, PartialEq, Eq)]
pub enum Ty {
    Integer,
    Real,
}

/// A value: a real of an algebra, or an integer.
#[derive(Drop)]
pub enum Number<A> {
    Real(A),
    Int(i32),
}

/// Why an evaluation is undefined: a loop needs a turn more than it may make, or an integer leaves the 32 bits or is divided by
/// zero.
#[derive(Clone, Copy, Debug, PartialEq, Eq)]
pub enum Reason {
    Turns,
    IntRange,
}
