//! What values mean. An algebra has meanings and laws alone, and nothing that a program can call.
ghost use Rattle.alg_laws.specs.Operations.{Operations, IsAlgebra};

/// A type of values with the operations of a commutative ring, a reciprocal, named functions and answers.
pub trait Algebra: Drop {
    /// What the operations give.
    ghost ops: { Operations Self };

    /// The values for which the laws hold.
    ghost valid: { Self → Type 0 };

    /// The values whose product with their reciprocal is one.
    ghost unit: { Self → Type 0 };

    /// The laws.
    ghost laws: { IsAlgebra ops valid unit };
}
