//! The operators on integers of 32 bits (Operators). Each answers `IntRange` where the result has no place in them, or a divisor
//! is 0.
ghost use Rattle.std.specs.Prelude.{◌≡◌};
ghost use Rattle.alg_laws.specs.IntegerOps as integer;
ghost use Rattle.alg_run.specs.Outcomes.{outcome_of};

use alg_laws::Reason;

/// i + j.
pub fn sum(i: i32, j: i32) -> Result<i32, Reason>
    ensures { outcome_of result ≡ integer.int_sum i j }
{
    i.checked_add(j).ok_or(Reason::IntRange)
}

/// i - j.
pub fn difference(i: i32, j: i32) -> Result<i32, Reason>
    ensures { outcome_of result ≡ integer.int_difference i j }
{
    i.checked_sub(j).ok_or(Reason::IntRange)
}

/// i * j.
pub fn product(i: i32, j: i32) -> Result<i32, Reason>
    ensures { outcome_of result ≡ integer.int_product i j }
{
    i.checked_mul(j).ok_or(Reason::IntRange)
}

/// -i.
pub fn negative(i: i32) -> Result<i32, Reason>
    ensures { outcome_of result ≡ integer.int_negative i }
{
    i.checked_neg().ok_or(Reason::IntRange)
}

/// i / j, truncated towards zero.
pub fn quotient(i: i32, j: i32) -> Result<i32, Reason>
    ensures { outcome_of result ≡ integer.int_quotient i j }
{
    i.checked_div(j).ok_or(Reason::IntRange)
}

/// i % j, which is i - j * (i / j).
pub fn remainder(i: i32, j: i32) -> Result<i32, Reason>
    ensures { outcome_of result ≡ integer.int_remainder i j }
{
    i.checked_rem(j).ok_or(Reason::IntRange)
}

/// The absolute value.
pub fn absolute(i: i32) -> Result<i32, Reason>
    ensures { outcome_of result ≡ integer.int_absolute i }
{
    if 0 < i { Ok(i) } else { negative(i) }
}

/// A whole number as an integer.
pub fn ranged(whole: i64) -> Result<i32, Reason>
    ensures { outcome_of result ≡ integer.ranged whole }
{
    i32::try_from(whole).or(Err(Reason::IntRange))
}
