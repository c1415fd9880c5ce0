//! Rows that were worked out by hand, as contracts: the definitions compute to them.
ghost use Rattle.va_sem.specs.WorkedNames.{WorkedUnknownNames, WorkedSecondDeclarations, WorkedWrongKinds};
ghost use Rattle.va_sem.specs.WorkedTypes.{WorkedArguments, WorkedConstants, WorkedRemainders};
ghost use Rattle.va_sem.specs.WorkedPhases.{WorkedLater};
ghost use Rattle.va_sem.specs.WorkedMeanings.{WorkedMeanings, WorkedTypeLists};
ghost use Rattle.va_sem.specs.WorkedAccesses.{WorkedAccesses, WorkedDisciplinesOfNodes, WorkedSeenInFunctions, WorkedCycles, WorkedLeftOut};

/// Names without a meaning where they stand.
pub fn unknown_names_worked_by_hand()
    ensures { WorkedUnknownNames }
{}

/// Names that are declared twice, and other second items.
pub fn second_declarations_worked_by_hand()
    ensures { WorkedSecondDeclarations }
{}

/// Names that mean something of another kind.
pub fn wrong_kinds_worked_by_hand()
    ensures { WorkedWrongKinds }
{}

/// Accesses, disciplines and branches (Signal access functions).
pub fn accesses_worked_by_hand()
    ensures { WorkedAccesses }
{}

/// Disciplines of nodes, and accesses where they are not looked at (Disciplines).
pub fn disciplines_worked_by_hand()
    ensures { WorkedDisciplinesOfNodes }
{}

/// What functions see (User-defined analog functions).
pub fn functions_worked_by_hand()
    ensures { WorkedSeenInFunctions }
{}

/// Calls of functions in a circle (User-defined analog functions).
pub fn cycles_worked_by_hand()
    ensures { WorkedCycles }
{}

/// What this profile leaves out.
pub fn left_out_worked_by_hand()
    ensures { WorkedLeftOut }
{}

/// Numbers and kinds of arguments.
pub fn arguments_worked_by_hand()
    ensures { WorkedArguments }
{}

/// What defaults, bounds and initialisers read (Parameters).
pub fn constants_worked_by_hand()
    ensures { WorkedConstants }
{}

/// Operands of `%`, which show the types of expressions (Operators).
pub fn remainders_worked_by_hand()
    ensures { WorkedRemainders }
{}

/// Faults of rules, and that those of earlier phases come first.
pub fn phases_worked_by_hand()
    ensures { WorkedLater }
{}

/// What names mean, and the branches of a module.
pub fn meanings_worked_by_hand()
    ensures { WorkedMeanings }
{}

/// The types of expressions.
pub fn types_worked_by_hand()
    ensures { WorkedTypeLists }
{}
