//! The whole numbers.
use crate::algebra::Algebra;
use std::marker::Model;

/// A whole number, seen as one. It stands for the algebra of whole numbers: `recip` of 1 and -1 is itself and else 0, every
/// named function is 0, comparisons are the usual ones, and each value is the whole number nearest to itself.
#[derive(Drop)]
pub struct Whole {
    value: i128,
}

impl Model for Whole {
    ghost use Rattle.std.specs.Prelude.{ℤ};

    ghost Value = { ℤ };

    ghost view = { λ w. w.value };
}

impl Algebra for Whole {
    ghost use Rattle.alg_laws.specs.Whole.{whole_ops, whole_valid, whole_unit, whole_laws};

    ghost ops = { whole_ops };

    ghost valid = { whole_valid };

    ghost unit = { whole_unit };

    ghost laws = { whole_laws };
}
