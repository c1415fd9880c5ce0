//! The operators and conversions on values of both types (Operators, Mathematical functions, Real to integer conversion, Integer
//! to real conversion).
//!
//! Where both sides are integers, they go by integers, else by reals. `IntRange` is answered where an integer result leaves the 32
//! bits or a divisor is 0. `&&`, `||` and `?:` are left to the caller, since they evaluate no more than is asked for.
ghost use Rattle.std.specs.Prelude.{◌≡◌};
ghost use Rattle.alg_laws.specs.NumberOps as number;
ghost use Rattle.alg_laws.specs.NumberParts.{NumberValid};
ghost use Rattle.alg_run.specs.Outcomes.{outcome_of};

use crate::compute::Compute;
use crate::integers;
use crate::literals::whole;
use alg_laws::{Fun1, Fun2, Number, Reason, Ty};

/// The same value once more.
pub fn copy<A: Compute>(v: &Number<A>) -> Number<A>
    ensures { result ≡ v.now }
{
    match v {
        Number::Real(x) => Number::Real(x.copy()),
        Number::Int(i) => Number::Int(*i),
    }
}

/// Answers nothing, and promises that a real value is valid.
pub fn known<A: Compute>(v: &Number<A>)
    ensures { NumberValid A.valid v.now }
{
    if let Number::Real(x) = v {
        x.known();
    }
}

/// A value of a type, with nothing in it.
pub fn zero_of<A: Compute>(ty: Ty) -> Number<A>
    ensures { result ≡ number.zero_of A.ops ty }
{
    match ty {
        Ty::Integer => Number::Int(0),
        Ty::Real => Number::Real(A::zero()),
    }
}

/// The type of a value.
pub fn type_of<A: Compute>(v: &Number<A>) -> Ty
    ensures { result ≡ number.type_of v.now }
{
    match v {
        Number::Real(_) => Ty::Real,
        Number::Int(_) => Ty::Integer,
    }
}

/// A value in a real place.
pub fn to_real<A: Compute>(v: &Number<A>) -> A
    ensures { result ≡ number.to_real A.ops v.now }
{
    match v {
        Number::Real(x) => x.copy(),
        Number::Int(i) => whole(*i),
    }
}

/// A value in an integer place.
pub fn to_integer<A: Compute>(v: &Number<A>) -> Result<i32, Reason>
    ensures { outcome_of result ≡ number.to_integer A.ops v.now }
{
    match v {
        Number::Real(x) => integers::ranged(x.near()),
        Number::Int(i) => Ok(*i),
    }
}

/// A value in a place of a type.
pub fn converted<A: Compute>(ty: Ty, v: &Number<A>) -> Result<Number<A>, Reason>
    ensures { outcome_of result ≡ number.converted A.ops ty v.now }
{
    match ty {
        Ty::Integer => as_int(to_integer(v)),
        Ty::Real => Ok(Number::Real(to_real(v))),
    }
}

/// Whether a value is true: a real that isn't the same as 0, an integer that isn't 0.
pub fn is_true<A: Compute>(v: &Number<A>) -> bool
    ensures { result ≡ number.is_true A.ops v.now }
{
    match v {
        Number::Real(x) => !x.same(&A::zero()),
        Number::Int(i) => *i != 0,
    }
}

/// What a comparison gives: 1 where it holds, else 0.
pub fn truth<A: Compute>(holds: bool) -> Number<A>
    ensures { result ≡ number.truth holds }
{
    Number::Int(if holds { 1 } else { 0 })
}

/// v + w.
pub fn sum<A: Compute>(v: &Number<A>, w: &Number<A>) -> Result<Number<A>, Reason>
    ensures { outcome_of result ≡ number.sum_of A.ops v.now w.now }
{
    match (v, w) {
        (Number::Int(i), Number::Int(j)) => as_int(integers::sum(*i, *j)),
        _ => Ok(Number::Real(to_real(v).add(&to_real(w)))),
    }
}

/// v - w.
pub fn difference<A: Compute>(v: &Number<A>, w: &Number<A>) -> Result<Number<A>, Reason>
    ensures { outcome_of result ≡ number.difference_of A.ops v.now w.now }
{
    match (v, w) {
        (Number::Int(i), Number::Int(j)) => as_int(integers::difference(*i, *j)),
        _ => Ok(Number::Real(to_real(v).add(&to_real(w).neg()))),
    }
}

/// v * w.
pub fn product<A: Compute>(v: &Number<A>, w: &Number<A>) -> Result<Number<A>, Reason>
    ensures { outcome_of result ≡ number.product_of A.ops v.now w.now }
{
    match (v, w) {
        (Number::Int(i), Number::Int(j)) => as_int(integers::product(*i, *j)),
        _ => Ok(Number::Real(to_real(v).mul(&to_real(w)))),
    }
}

/// v / w.
pub fn quotient<A: Compute>(v: &Number<A>, w: &Number<A>) -> Result<Number<A>, Reason>
    ensures { outcome_of result ≡ number.quotient_of A.ops v.now w.now }
{
    match (v, w) {
        (Number::Int(i), Number::Int(j)) => as_int(integers::quotient(*i, *j)),
        _ => Ok(Number::Real(to_real(v).mul(&to_real(w).recip()))),
    }
}

/// v % w, of two integers. With a real side, which no text of the language has, it is 0.
pub fn remainder<A: Compute>(v: &Number<A>, w: &Number<A>) -> Result<Number<A>, Reason>
    ensures { outcome_of result ≡ number.remainder_of A.ops v.now w.now }
{
    match (v, w) {
        (Number::Int(i), Number::Int(j)) => as_int(integers::remainder(*i, *j)),
        _ => Ok(Number::Int(0)),
    }
}

/// v ** w, which is the function `pow` of two reals. It always answers.
pub fn power<A: Compute>(v: &Number<A>, w: &Number<A>) -> Result<Number<A>, Reason>
    ensures { outcome_of result ≡ number.power_of A.ops v.now w.now }
{
    Ok(fun2(Fun2::Pow, v, w))
}

/// -v.
pub fn negative<A: Compute>(v: &Number<A>) -> Result<Number<A>, Reason>
    ensures { outcome_of result ≡ number.negative_of A.ops v.now }
{
    match v {
        Number::Real(x) => Ok(Number::Real(x.neg())),
        Number::Int(i) => as_int(integers::negative(*i)),
    }
}

/// Whether v < w.
pub fn is_less<A: Compute>(v: &Number<A>, w: &Number<A>) -> bool
    ensures { result ≡ number.is_less A.ops v.now w.now }
{
    match (v, w) {
        (Number::Int(i), Number::Int(j)) => i < j,
        _ => to_real(v).less(&to_real(w)),
    }
}

/// Whether v <= w.
pub fn is_at_most<A: Compute>(v: &Number<A>, w: &Number<A>) -> bool
    ensures { result ≡ number.is_at_most A.ops v.now w.now }
{
    match (v, w) {
        (Number::Int(i), Number::Int(j)) => i <= j,
        _ => to_real(v).at_most(&to_real(w)),
    }
}

/// Whether v == w.
pub fn is_same<A: Compute>(v: &Number<A>, w: &Number<A>) -> bool
    ensures { result ≡ number.is_same A.ops v.now w.now }
{
    match (v, w) {
        (Number::Int(i), Number::Int(j)) => i == j,
        _ => to_real(v).same(&to_real(w)),
    }
}

/// !v.
pub fn contrary<A: Compute>(v: &Number<A>) -> Number<A>
    ensures { result ≡ number.contrary_of A.ops v.now }
{
    truth(!is_true(v))
}

/// abs(v), which is v > 0 ? v : -v.
pub fn absolute<A: Compute>(v: &Number<A>) -> Result<Number<A>, Reason>
    ensures { outcome_of result ≡ number.absolute_of A.ops v.now }
{
    match v {
        Number::Real(x) if A::zero().less(x) => Ok(Number::Real(x.copy())),
        Number::Real(x) => Ok(Number::Real(x.neg())),
        Number::Int(i) => as_int(integers::absolute(*i)),
    }
}

/// min(v, w), which is v < w ? v : w.
pub fn minimum<A: Compute>(v: &Number<A>, w: &Number<A>) -> Number<A>
    ensures { result ≡ number.minimum_of A.ops v.now w.now }
{
    match (v, w) {
        (Number::Int(i), Number::Int(j)) => Number::Int(if i < j { *i } else { *j }),
        _ => {
            let (x, y) = (to_real(v), to_real(w));
            Number::Real(if x.less(&y) { x } else { y })
        }
    }
}

/// max(v, w), which is v > w ? v : w.
pub fn maximum<A: Compute>(v: &Number<A>, w: &Number<A>) -> Number<A>
    ensures { result ≡ number.maximum_of A.ops v.now w.now }
{
    match (v, w) {
        (Number::Int(i), Number::Int(j)) => Number::Int(if j < i { *i } else { *j }),
        _ => {
            let (x, y) = (to_real(v), to_real(w));
            Number::Real(if y.less(&x) { x } else { y })
        }
    }
}

/// A named function of one argument. It takes and gives reals.
pub fn fun1<A: Compute>(f: Fun1, v: &Number<A>) -> Number<A>
    ensures { result ≡ number.fun1_of A.ops f v.now }
{
    Number::Real(to_real(v).fun1(f))
}

/// A named function of two arguments. It takes and gives reals.
pub fn fun2<A: Compute>(f: Fun2, v: &Number<A>, w: &Number<A>) -> Number<A>
    ensures { result ≡ number.fun2_of A.ops f v.now w.now }
{
    Number::Real(to_real(v).fun2(&to_real(w), f))
}

/// An integer as a value.
fn as_int<A: Compute>(integer: Result<i32, Reason>) -> Result<Number<A>, Reason>
    ensures { outcome_of result ≡ number.as_int (outcome_of integer) }
{
    Ok(Number::Int(integer?))
}
