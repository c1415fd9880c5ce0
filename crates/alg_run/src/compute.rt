//! Algebras whose operations a program can call.
ghost use Rattle.std.specs.Prelude.{◌≡◌};

use alg_laws::{Algebra, Fun1, Fun2};

/// An algebra whose operations a program can call. Each function gives what its operation means, at every value, and takes no
/// memory.
pub trait Compute: Algebra {
    /// The value 0.
    fn zero() -> Self
        ensures { result ≡ Self.ops.zero };

    /// The value 1.
    fn one() -> Self
        ensures { result ≡ Self.ops.one };

    /// The same value once more.
    fn copy(&self) -> Self
        ensures { result ≡ self.now };

    /// The sum x + y.
    fn add(&self, y: &Self) -> Self
        ensures { result ≡ Self.ops.sum self.now y.now };

    /// The negative -x. A difference x - y is the sum of x and the negative of y.
    fn neg(&self) -> Self
        ensures { result ≡ Self.ops.negative self.now };

    /// The product x * y.
    fn mul(&self, y: &Self) -> Self
        ensures { result ≡ Self.ops.product self.now y.now };

    /// The reciprocal. A quotient x / y is the product of x and the reciprocal of y.
    fn recip(&self) -> Self
        ensures { result ≡ Self.ops.recip self.now };

    /// A function of one argument (Mathematical functions).
    fn fun1(&self, f: Fun1) -> Self
        ensures { result ≡ Self.ops.fun1 f self.now };

    /// A function of two arguments, of which this is the first (Mathematical functions).
    fn fun2(&self, y: &Self, f: Fun2) -> Self
        ensures { result ≡ Self.ops.fun2 f self.now y.now };

    /// Whether x < y (Operators).
    fn less(&self, y: &Self) -> bool
        ensures { result ≡ Self.ops.less self.now y.now };

    /// Whether x <= y (Operators).
    fn at_most(&self, y: &Self) -> bool
        ensures { result ≡ Self.ops.at_most self.now y.now };

    /// Whether x == y (Operators).
    fn same(&self, y: &Self) -> bool
        ensures { result ≡ Self.ops.same self.now y.now };

    /// The whole number that a real becomes in an integer place (Real to integer conversion).
    fn near(&self) -> i64
        ensures { result ≡ Self.ops.near self.now };

    /// Answers nothing, and promises that the value is valid, so that the laws hold of it.
    fn known(&self)
        ensures { Self.valid self.now };
}
