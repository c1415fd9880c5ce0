//! The derivatives of the named functions (Mathematical functions).
ghost use Rattle.std.specs.Prelude.{◌≡◌};
ghost use Rattle.alg_laws.specs.Dual.{slope, slope_first, slope_second};

use crate::compute::Compute;
use crate::literals::copies_of_one;
use alg_laws::{Fun1, Fun2};

/// The derivative of a function of one argument.
pub fn derivative<A: Compute>(f: Fun1, x: &A) -> A
    ensures { result ≡ slope A.ops f x.now }
{
    match f {
        Fun1::Exp => x.fun1(Fun1::Exp),
        Fun1::Ln => x.recip(),
        Fun1::Log => x.mul(&copies_of_one::<A>(10).fun1(Fun1::Ln)).recip(),
        Fun1::Sqrt => copies_of_one::<A>(2).mul(&x.fun1(Fun1::Sqrt)).recip(),
        Fun1::Sin => x.fun1(Fun1::Cos),
        Fun1::Cos => x.fun1(Fun1::Sin).neg(),
        Fun1::Tan => one_and_square(&x.fun1(Fun1::Tan)),
        Fun1::Asin => one_less_square(x).fun1(Fun1::Sqrt).recip(),
        Fun1::Acos => one_less_square(x).fun1(Fun1::Sqrt).recip().neg(),
        Fun1::Atan => one_and_square(x).recip(),
        Fun1::Sinh => x.fun1(Fun1::Cosh),
        Fun1::Cosh => x.fun1(Fun1::Sinh),
        Fun1::Tanh => one_less_square(&x.fun1(Fun1::Tanh)),
        Fun1::Asinh => x.mul(x).add(&A::one()).fun1(Fun1::Sqrt).recip(),
        Fun1::Acosh => x.mul(x).add(&A::one().neg()).fun1(Fun1::Sqrt).recip(),
        Fun1::Atanh => one_less_square(x).recip(),
        Fun1::Floor | Fun1::Ceil => A::zero(),
    }
}

/// The derivative of a function of two arguments in the first. That of `atan2` is the ordinate.
pub fn derivative_in_first<A: Compute>(f: Fun2, x: &A, y: &A) -> A
    ensures { result ≡ slope_first A.ops f x.now y.now }
{
    match f {
        Fun2::Pow => y.mul(&x.fun2(&y.add(&A::one().neg()), Fun2::Pow)),
        Fun2::Atan2 => y.mul(&sum_of_squares(y, x).recip()),
        Fun2::Hypot => x.mul(&x.fun2(y, Fun2::Hypot).recip()),
    }
}

/// The derivative of a function of two arguments in the second. That of `atan2` is the abscissa.
pub fn derivative_in_second<A: Compute>(f: Fun2, x: &A, y: &A) -> A
    ensures { result ≡ slope_second A.ops f x.now y.now }
{
    match f {
        Fun2::Pow => x.fun1(Fun1::Ln).mul(&x.fun2(y, Fun2::Pow)),
        Fun2::Atan2 => x.neg().mul(&sum_of_squares(y, x).recip()),
        Fun2::Hypot => y.mul(&x.fun2(y, Fun2::Hypot).recip()),
    }
}

/// 1 + x * x.
fn one_and_square<A: Compute>(x: &A) -> A
    ensures { result ≡ A.ops.sum A.ops.one (A.ops.product x.now x.now) }
{
    A::one().add(&x.mul(x))
}

/// 1 - x * x.
fn one_less_square<A: Compute>(x: &A) -> A
    ensures { result ≡ A.ops.sum A.ops.one (A.ops.negative (A.ops.product x.now x.now)) }
{
    A::one().add(&x.mul(x).neg())
}

/// x * x + y * y.
fn sum_of_squares<A: Compute>(x: &A, y: &A) -> A
    ensures { result ≡ A.ops.sum (A.ops.product x.now x.now) (A.ops.product y.now y.now) }
{
    x.mul(x).add(&y.mul(y))
}
