//! The named functions of an algebra (Mathematical functions), in the order of their numbers.

/// The functions of one argument, numbers 1 to 18.
#[derive(Clone, Copy, Debug, PartialEq, Eq)]
pub enum Fun1 {
    Exp,
    Ln,
    Log,
    Sqrt,
    Sin,
    Cos,
    Tan,
    Asin,
    Acos,
    Atan,
    Sinh,
    Cosh,
    Tanh,
    Asinh,
    Acosh,
    Atanh,
    Floor,
    Ceil,
}

/// The functions of two arguments, numbers 19 to 21.
#[derive(Clone, Copy, Debug, PartialEq, Eq)]
pub enum Fun2 {
    Pow,
    Atan2,
    Hypot,
}
