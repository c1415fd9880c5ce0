//! Values of literals in any algebra (Numbers; Integer to real conversion).
ghost use Rattle.std.specs.Prelude.{◌≡◌};
ghost use Rattle.alg_laws.specs.LiteralValue as literals_of;
ghost use Rattle.alg_laws.specs.Operations.{copies};

use crate::compute::Compute;

/// So many copies of 1, added up. They are added by halves, in as many steps as the number has bits.
pub fn copies_of_one<A: Compute>(count: u128) -> A
    ensures { result ≡ copies A.ops count }
{
    if count == 0 {
        return A::zero();
    }
    let half = copies_of_one::<A>(count / 2);
    let twice = half.add(&half);
    if count % 2 == 0 {
        twice
    } else {
        twice.add(&A::one())
    }
}

/// An integer in a real place: that many copies of 1, negated where it is negative.
pub fn whole<A: Compute>(integer: i32) -> A
    ensures { result ≡ literals_of.whole_value A.ops integer }
{
    let size = copies_of_one::<A>(u128::from(integer.unsigned_abs()));
    if integer < 0 { size.neg() } else { size }
}

/// A real numeral: the mantissa times ten to the power. Its steps are as many as the power's size.
pub fn literal<A: Compute>(mantissa: u128, power: i32) -> A
    ensures { result ≡ literals_of.literal_value A.ops mantissa power }
{
    let ten = copies_of_one::<A>(10);
    let value = copies_of_one::<A>(mantissa);
    if power < 0 {
        times_power(&ten.recip(), power.unsigned_abs(), value)
    } else {
        times_power(&ten, power.unsigned_abs(), value)
    }
}

/// A value, with another taken so many times as a factor.
fn times_power<A: Compute>(factor: &A, count: u32, value: A) -> A
    ensures { result ≡ literals_of.times_power A.ops factor.now count value }
{
    let mut product = value;
    for _ in 0..count {
        product = product.mul(factor);
    }
    product
}
