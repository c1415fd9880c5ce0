//! What follows from the laws of an algebra, as the contracts of functions with nothing to do: a contract is what the check
//! proves.
//!
//! A law is stated at the algebra `A` and at the dual numbers over it up to three deep. Since `A` is free, it holds of every
//! algebra. A law that speaks of the dual numbers over its own algebra is stated at the first three.
ghost use Rattle.alg_laws.specs.AtFour.{AtFour, AtThree};
ghost use Rattle.alg_laws.specs.Dual.{LiftsAreKept};
ghost use Rattle.alg_laws.specs.LiteralValue.{LiteralsAreValid, LiteralsAreLifted};
ghost use Rattle.alg_laws.specs.Operations.{IsAlgebra, copies};
ghost use Rattle.alg_laws.specs.Related.{MainsRelate, ValidityRelates, LiftsRelate};
ghost use Rattle.alg_laws.specs.Residue.{modulus, residue_ops, residue_valid};
ghost use Rattle.alg_laws.specs.ResidueLaws.{residue_unit};
ghost use Rattle.alg_laws.specs.Rings.{NegativesAndProducts};
ghost use Rattle.alg_laws.specs.Sums.{SumsRegroup};
ghost use Rattle.std.specs.Prelude.{◌≡◌, ℕ, ◌%◌, ◌<◌};

use crate::algebra::Algebra;
use std::marker::PhantomData;

/// A product with zero is zero, and a negative can be taken before or after a product or a sum.
pub fn negatives_and_products<A: Algebra>(_law: PhantomData<A>)
    ensures { AtFour A.ops A.valid NegativesAndProducts }
{}

/// Sums can be regrouped: of four values, and of lists, of which one can be added after the other or value by value.
pub fn sums_regroup<A: Algebra>(_law: PhantomData<A>)
    ensures { AtFour A.ops A.valid SumsRegroup }
{}

/// The values of numerals, of integers in real places, and of copies of one are valid.
pub fn literals_are_valid<A: Algebra>(_law: PhantomData<A>)
    ensures { AtFour A.ops A.valid LiteralsAreValid }
{}

/// Over dual numbers the values of numerals, of integers in real places, and of copies of one have the infinitesimal part zero.
pub fn literals_are_lifted<A: Algebra>(_law: PhantomData<A>)
    ensures { AtThree A.ops A.valid LiteralsAreLifted }
{}

/// Over dual numbers each operation on values of infinitesimal part zero gives a value of infinitesimal part zero.
pub fn lifts_are_kept<A: Algebra>(_law: PhantomData<A>)
    ensures { AtThree A.ops A.valid LiftsAreKept }
{}

/// Over dual numbers each operation has the main that it has below.
pub fn mains_relate<A: Algebra>(_law: PhantomData<A>)
    ensures { AtThree A.ops A.valid MainsRelate }
{}

/// Each operation on valid values gives a valid value, and asks and answers the same.
pub fn validity_relates<A: Algebra>(_law: PhantomData<A>)
    ensures { AtFour A.ops A.valid ValidityRelates }
{}

/// Over dual numbers each operation on values that don't move gives what it gives below, and that doesn't move.
pub fn lifts_relate<A: Algebra>(_law: PhantomData<A>)
    ensures { AtThree A.ops A.valid LiftsRelate }
{}

/// The numbers modulo the prime 1000003 are an algebra, in which n copies of one are n modulo 1000003 and each number but 0 is
/// a unit.
pub fn residues_are_an_algebra()
    ensures algebra { IsAlgebra residue_ops residue_valid residue_unit }
    ensures units { (x : ℕ) → 0 < x → x < modulus → residue_unit x }
    ensures copies { (n : ℕ) → copies residue_ops n ≡ n % modulus }
{}
