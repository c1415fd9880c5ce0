//! Dual numbers: a value and its infinitesimal part.
use crate::algebra::Algebra;

/// A value and its infinitesimal part. They are an algebra over each algebra.
#[derive(Drop)]
pub struct Dual<A> {
    pub main: A,
    pub part: A,
}

impl<A: Algebra> Algebra for Dual<A> {
    ghost use Rattle.alg_laws.specs.Dual.{dual, dual_valid, dual_unit};
    ghost use Rattle.alg_laws.specs.DualLaws.{dual_laws};

    ghost ops = { dual A.ops };

    ghost valid = { dual_valid A.valid };

    ghost unit = { dual_unit A.unit };

    ghost laws = { dual_laws A.ops A.valid A.unit A.laws };
}
