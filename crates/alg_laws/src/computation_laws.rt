//! What is known of computations that may end early: integers of 32 bits, sequences, loops, and sets that grow by rules.
ghost use Rattle.alg_laws.specs.IntegerLaws.{IntegerLaws};
ghost use Rattle.alg_laws.specs.Least.{LeastSets};
ghost use Rattle.alg_laws.specs.Loop.{TurnsOfLoop};
ghost use Rattle.alg_laws.specs.Outcome.{SequencesRegroup};

use std::marker::PhantomData;

/// Results of the operators on integers lie in the 32 bits, and a remainder is that of a truncated quotient (Operators).
pub fn integers_stay_in_range()
    ensures { IntegerLaws }
{}

/// A sequence of computations can be regrouped, and the first early end is the answer.
pub fn sequences_regroup<E: Drop, F: Drop, U: Drop, V: Drop, W: Drop>(
    _ends: PhantomData<E>,
    _more_ends: PhantomData<F>,
    _first: PhantomData<U>,
    _second: PhantomData<V>,
    _third: PhantomData<W>,
)
    ensures { SequencesRegroup E F U V W }
{}

/// A loop that may make n turns ends where its test first fails, if that is after at most n turns, and else early: for want of
/// a turn, or at the first test or turn that ends early (Looping statements).
pub fn turns_of_loop<E: Drop, S: Drop, T: Drop>(
    _ends: PhantomData<E>,
    _head: PhantomData<S>,
    _test: PhantomData<T>,
)
    ensures { TurnsOfLoop E S T }
{}

/// A set that grows from nothing by rules, turned as often as there are numbers, is closed under the rules and within each set
/// that is.
pub fn least_sets()
    ensures { LeastSets }
{}
