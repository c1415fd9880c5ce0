//! What holds of every evaluation, as the contracts of functions with nothing to do: a contract is what the check proves.
//!
//! A law is stated at the algebra `A` and at the dual numbers over it up to three deep. Since `A` is free, it holds of every
//! algebra. A law that speaks of the dual numbers over its own algebra is stated at the first three. The type `E` of early ends is
//! free too.
ghost use Rattle.alg_laws.specs.AtFour.{AtFour, AtThree};
ghost use Rattle.va_meaning.specs.CycleLaws.{DepthsInModules};
ghost use Rattle.va_meaning.specs.EvaluationLaws.{BoundsOfEvaluations, DepthsOfFunctions, EndsOfEvaluations, FixedOfEvaluations, LiftsOfEvaluations, MainsOfEvaluations, MainsOfParts, ValidityOfEvaluations};
ghost use Rattle.va_meaning.specs.Motions.{MotionsOfEvaluations};
ghost use Rattle.va_meaning.specs.SetUpLaws.{ErrorsOfSetUps, LiftsOfSetUps, MainsOfSetUps, PointsOfSetUps};
ghost use Rattle.va_meaning.specs.TimeParts.{TimesOfEvaluations};
ghost use Rattle.va_meaning.specs.TwoParts.{TwoPartsOfResiduals};
ghost use Rattle.va_meaning.specs.TypeLaws.{TypesOfValues};

use alg_laws::Algebra;
use std::marker::PhantomData;

/// Over dual numbers an evaluation has the mains that it has below, and is undefined for the same reason.
pub fn mains_of_evaluations<A: Algebra, E: Drop>(_law: PhantomData<A>, _ends: PhantomData<E>)
    ensures { AtThree A.ops A.valid (MainsOfEvaluations E) }
{}

/// An undefined evaluation ends with what is told for the reason, and that is all that the type of early ends changes.
pub fn ends_of_evaluations<A: Algebra, E: Drop>(_law: PhantomData<A>, _ends: PhantomData<E>)
    ensures { AtFour A.ops A.valid (EndsOfEvaluations E) }
{}

/// At a valid point every value of an evaluation is valid.
pub fn validity_of_evaluations<A: Algebra, E: Drop>(_law: PhantomData<A>, _ends: PhantomData<E>)
    ensures { AtFour A.ops A.valid (ValidityOfEvaluations E) }
{}

/// Over dual numbers, where nothing of the point moves, no value of an evaluation moves.
pub fn lifts_of_evaluations<A: Algebra, E: Drop>(_law: PhantomData<A>, _ends: PhantomData<E>)
    ensures { AtThree A.ops A.valid (LiftsOfEvaluations E) }
{}

/// The mains of residuals don't move with what is varied, and they are defined exactly where the residuals are.
pub fn mains_of_parts<A: Algebra>(_law: PhantomData<A>)
    ensures { AtThree A.ops A.valid MainsOfParts }
{}

/// Over dual numbers, where a module keeps to what moves, what doesn't move has the part 0.
pub fn motions_of_evaluations<A: Algebra, E: Drop>(_law: PhantomData<A>, _ends: PhantomData<E>)
    ensures { AtThree A.ops A.valid (MotionsOfEvaluations E) }
{}

/// Over dual numbers at a lifted point, where nothing but time derivatives moves, what isn't timed has the part 0: expressions, variables,
/// what branches hold, and rows. So it is in every module of a text without faults (Time derivative operator).
pub fn times_of_evaluations<A: Algebra, E: Drop>(_law: PhantomData<A>, _ends: PhantomData<E>)
    ensures { AtThree A.ops A.valid (TimesOfEvaluations E) }
{}

/// Where a module keeps to what moves with one unknown, the entries of this unknown's column are 0 in the rows whose resistive or reactive
/// part doesn't move (`jacobian_entries` of OSDI 0.3).
pub fn two_parts_of_residuals<A: Algebra>(_law: PhantomData<A>)
    ensures { AtThree A.ops A.valid TwoPartsOfResiduals }
{}

/// An evaluation that is defined is the same where loops may make more turns, and one that ends early for another reason than want of
/// a turn stays so.
pub fn bounds_of_evaluations<A: Algebra, E: Drop>(_law: PhantomData<A>, _ends: PhantomData<E>)
    ensures { AtFour A.ops A.valid (BoundsOfEvaluations E) }
{}

/// Where no function leads back to itself, functions that are seen deeper than there are functions mean the same.
pub fn depths_of_functions<A: Algebra, E: Drop>(_law: PhantomData<A>, _ends: PhantomData<E>)
    ensures { AtFour A.ops A.valid (DepthsOfFunctions E) }
{}

/// In a module of a text whose names have no fault, functions that are seen deeper than there are functions mean the same, and so
/// does every evaluation.
pub fn depths_in_modules<A: Algebra, E: Drop>(_law: PhantomData<A>, _ends: PhantomData<E>)
    ensures { AtFour A.ops A.valid (DepthsInModules E) }
{}

/// Two defined evaluations at points that differ in unknowns alone end with the same fixed variables and the same marks.
pub fn fixed_of_evaluations<A: Algebra, E: Drop>(_law: PhantomData<A>, _ends: PhantomData<E>)
    ensures { AtFour A.ops A.valid (FixedOfEvaluations E) }
{}

/// An expression without a fault of types has a value of its type, and each variable keeps its type.
pub fn types_of_values<A: Algebra, E: Drop>(_law: PhantomData<A>, _ends: PhantomData<E>)
    ensures { AtFour A.ops A.valid (TypesOfValues E) }
{}

/// From valid settings of the right types both levels of set-up have valid values of the right types, one for each parameter, and
/// the instance has a valid point with these types.
pub fn points_of_set_ups<A: Algebra>(_law: PhantomData<A>)
    ensures { AtFour A.ops A.valid PointsOfSetUps }
{}

/// On both levels of set-up the errors are, in order of declaration, the parameters whose values break one of their ranges.
pub fn errors_of_set_ups<A: Algebra>(_law: PhantomData<A>)
    ensures { AtFour A.ops A.valid ErrorsOfSetUps }
{}

/// Over dual numbers both levels of set-up have the mains that they have below and the same errors, and are undefined for the same
/// reason.
pub fn mains_of_set_ups<A: Algebra>(_law: PhantomData<A>)
    ensures { AtThree A.ops A.valid MainsOfSetUps }
{}

/// Over dual numbers, where no setting moves, no value of set-up moves.
pub fn lifts_of_set_ups<A: Algebra>(_law: PhantomData<A>)
    ensures { AtThree A.ops A.valid LiftsOfSetUps }
{}
