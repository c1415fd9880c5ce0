//! What holds of every body, as the contracts of functions with nothing to do: a contract is what the check proves.
//!
//! A law is stated at the algebra `A` and at the dual numbers over it up to three deep. Since `A` is free, it holds of every
//! algebra. A law that speaks of the dual numbers over its own algebra is stated at the first three. The type `E` of early ends is
//! free too.
ghost use Rattle.alg_laws.specs.AtFour.{AtFour, AtThree};
ghost use Rattle.ssa_ir.specs.Laws.{BoundsOfBodies, FunctionsAreKept, KeepsOutside, LiftsOfBodies, MainsOfBodies, ReadsWhatIsDefined, RunsInSequence, StepsAreTheirLines, ValidityOfBodies};

use alg_laws::Algebra;
use std::marker::PhantomData;

/// The instructions of steps are read as these steps.
pub fn steps_are_their_lines()
    ensures { StepsAreTheirLines }
{}

/// A run keeps the value of every number but those that are seen behind the steps.
pub fn runs_keep_what_is_outside<A: Algebra, E: Drop>(_law: PhantomData<A>, _ends: PhantomData<E>)
    ensures { AtFour A.ops A.valid (KeepsOutside E) }
{}

/// Two lists of steps, one after the other, are run one after the other.
pub fn steps_run_in_sequence<A: Algebra, E: Drop>(_law: PhantomData<A>, _ends: PhantomData<E>)
    ensures { AtFour A.ops A.valid (RunsInSequence E) }
{}

/// Functions that are added at the end of a list leave those before them as they are.
pub fn functions_are_kept<A: Algebra, E: Drop>(_law: PhantomData<A>, _ends: PhantomData<E>)
    ensures { AtFour A.ops A.valid (FunctionsAreKept E) }
{}

/// A body that obeys the invariant never reads what isn't defined, nor what its frame doesn't have, and every number in scope has its
/// type.
pub fn bodies_read_what_is_defined<A: Algebra, E: Drop>(_law: PhantomData<A>, _ends: PhantomData<E>)
    ensures { AtFour A.ops A.valid (ReadsWhatIsDefined E) }
{}

/// A run that is defined where loops may make n turns is the same for every greater bound, and one that ends early for another reason
/// than want of a turn stays so.
pub fn bounds_of_bodies<A: Algebra, E: Drop>(_law: PhantomData<A>, _ends: PhantomData<E>)
    ensures { AtFour A.ops A.valid (BoundsOfBodies E) }
{}

/// Over dual numbers a run has the mains that it has below, and is undefined for the same reason.
pub fn mains_of_bodies<A: Algebra, E: Drop>(_law: PhantomData<A>, _ends: PhantomData<E>)
    ensures { AtThree A.ops A.valid (MainsOfBodies E) }
{}

/// From valid values and inputs a run has valid values.
pub fn validity_of_bodies<A: Algebra, E: Drop>(_law: PhantomData<A>, _ends: PhantomData<E>)
    ensures { AtFour A.ops A.valid (ValidityOfBodies E) }
{}

/// Over dual numbers, where nothing that is read moves, no value moves.
pub fn lifts_of_bodies<A: Algebra, E: Drop>(_law: PhantomData<A>, _ends: PhantomData<E>)
    ensures { AtThree A.ops A.valid (LiftsOfBodies E) }
{}
