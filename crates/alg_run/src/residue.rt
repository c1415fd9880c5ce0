//! The numbers modulo 1000003.
ghost use Rattle.std.specs.Prelude.{◌≡◌, ◌<◌, ◌%◌, pos};
ghost use Rattle.std.specs.Int.{int_rem_euclid};
ghost use Rattle.alg_laws.specs.LiteralValue.{whole_value};
ghost use Rattle.alg_laws.specs.Residue.{modulus, residue_ops, residue_recip, centred, fun1_number, fun2_number};

use crate::compute::Compute;
use alg_laws::{Algebra, Fun1, Fun2};
use std::marker::Model;

/// A prime.
const MODULUS: u64 = 1_000_003;

/// A number modulo the prime 1000003, seen as the one from 0 to 1000002.
///
/// Its functions are made up, so that values can be worked out by hand: function k is x * x + k, and of two arguments
/// x * x + x * y + k. Comparisons and `near` go by the value nearest to 0, from -500001 to 500001.
#[derive(Drop)]
pub struct Residue {
    value: u64,
}

impl Model for Residue {
    ghost use Rattle.std.specs.Prelude.{ℕ, ◌<◌};
    ghost use Rattle.alg_laws.specs.Residue.{residue_valid};

    ghost Value = { ℕ };

    ghost view = { λ x. x.value };

    ghost invariant = { λ x. residue_valid x.value };
}

impl Algebra for Residue {
    ghost use Rattle.alg_laws.specs.Residue.{residue_ops, residue_valid};
    ghost use Rattle.alg_laws.specs.ResidueLaws.{residue_unit, residue_laws};

    ghost ops = { residue_ops };

    ghost valid = { residue_valid };

    ghost unit = { residue_unit };

    ghost laws = { residue_laws };
}

impl Residue {
    /// The remainder of n modulo 1000003. It is n copies of 1, negated where n is negative.
    pub fn of(n: i128) -> Residue
        ensures remainder { pos result ≡ int_rem_euclid n (pos modulus) }
        ensures copies { result ≡ whole_value residue_ops n }
    {
        Residue {
            value: n.rem_euclid(MODULUS as i128) as u64,
        }
    }

    /// The number from 0 to 1000002.
    pub fn value(&self) -> u64
        ensures value { result ≡ self.now }
        ensures below { result < modulus }
    {
        self.value
    }
}

impl Compute for Residue {
    fn zero() -> Self {
        Residue { value: 0 }
    }

    fn one() -> Self {
        Residue { value: 1 }
    }

    fn copy(&self) -> Self {
        Residue { value: self.value }
    }

    fn add(&self, y: &Self) -> Self {
        reduced(self.value + y.value)
    }

    fn neg(&self) -> Self {
        reduced(MODULUS - self.value)
    }

    fn mul(&self, y: &Self) -> Self {
        reduced(self.value * y.value)
    }

    fn recip(&self) -> Self {
        inverse(self.value)
    }

    fn fun1(&self, f: Fun1) -> Self {
        reduced(self.value * self.value + number_of_fun1(f))
    }

    fn fun2(&self, y: &Self, f: Fun2) -> Self {
        reduced(self.value * self.value + self.value * y.value + number_of_fun2(f))
    }

    fn less(&self, y: &Self) -> bool {
        self.near() < y.near()
    }

    fn at_most(&self, y: &Self) -> bool {
        self.near() <= y.near()
    }

    fn same(&self, y: &Self) -> bool {
        self.near() == y.near()
    }

    fn near(&self) -> i64 {
        if 2 * self.value < MODULUS {
            self.value as i64
        } else {
            -((MODULUS - self.value) as i64)
        }
    }

    fn known(&self) {
        let _ = &self.value;
    }
}

/// The remainder of a number.
fn reduced(number: u64) -> Residue
    ensures { result ≡ number % modulus }
{
    Residue {
        value: number % MODULUS,
    }
}

/// The number of a function of one argument.
fn number_of_fun1(f: Fun1) -> u64
    ensures number { result ≡ fun1_number f }
    ensures few { result < 22 }
{
    f as u64 + 1
}

/// The number of a function of two arguments.
fn number_of_fun2(f: Fun2) -> u64
    ensures number { result ≡ fun2_number f }
    ensures few { result < 22 }
{
    f as u64 + 19
}

/// The inverse of a number, by Euclid's algorithm; 0 where there is none.
///
/// The remainder `last` is `of_last` times the number modulo 1000003, and so is `next` with `of_next`.
fn inverse(number: u64) -> Residue
    requires { number < modulus }
    ensures { result ≡ residue_recip number }
{
    let (mut last, mut of_last) = (MODULUS, 0);
    let (mut next, mut of_next) = (number, 1);
    'steps: while next != 0 {
        let taken = last / next * of_next % MODULUS;
        let of_rest = (of_last + (MODULUS - taken)) % MODULUS;
        let rest = last % next;
        (last, of_last) = (next, of_next);
        (next, of_next) = (rest, of_rest);
    }
    Residue {
        value: if last == 1 { of_last } else { 0 },
    }
}
