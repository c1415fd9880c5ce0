//! What small modules mean, worked out by hand, as contracts: the definitions compute to it.
ghost use Rattle.va_examples.specs.DynamicExamples.{WorkedCollapses, WorkedDerivatives, WorkedSetUps, WorkedTimes};
ghost use Rattle.va_examples.specs.FaultExamples.{WorkedFaults, WorkedLimits};
ghost use Rattle.va_examples.specs.LanguageExamples.{WorkedModules, WorkedOperators, WorkedStatements};
ghost use Rattle.va_examples.specs.StaticExamples.{WorkedCalls, WorkedLoops, WorkedStraight};

/// Residuals and Jacobians of straight code and conditions.
pub fn straight_code_worked_by_hand()
    ensures { WorkedStraight }
{}

/// Loops, choices, and what makes an evaluation undefined.
pub fn loops_worked_by_hand()
    ensures { WorkedLoops }
{}

/// Calls of functions.
pub fn calls_worked_by_hand()
    ensures { WorkedCalls }
{}

/// Time derivatives and potential branches.
pub fn derivatives_worked_by_hand()
    ensures { WorkedDerivatives }
{}

/// Branches that collapse.
pub fn collapses_worked_by_hand()
    ensures { WorkedCollapses }
{}

/// Parameters: given values, defaults, ranges.
pub fn set_ups_worked_by_hand()
    ensures { WorkedSetUps }
{}

/// What is timed, and the places at which time derivatives stand.
pub fn times_worked_by_hand()
    ensures { WorkedTimes }
{}

/// Operators on integers and reals.
pub fn operators_worked_by_hand()
    ensures { WorkedOperators }
{}

/// Statements one by one.
pub fn statements_worked_by_hand()
    ensures { WorkedStatements }
{}

/// Functions, branches and levels of parameters.
pub fn modules_worked_by_hand()
    ensures { WorkedModules }
{}

/// Each fault of names, types and rules once, in a whole text.
pub fn faults_worked_by_hand()
    ensures { WorkedFaults }
{}

/// The limits of a module.
pub fn limits_worked_by_hand()
    ensures { WorkedLimits }
{}
