//! Rows that were worked out by hand, as contracts: the definitions compute to them.
ghost use Rattle.alg_laws.specs.Worked.{WorkedDerivatives, WorkedValues};
ghost use Rattle.alg_laws.specs.WorkedNumbers.{WorkedIntegers, WorkedNumbers, WorkedLoops};

/// The derivative of each named function at one place modulo 1000003 (Mathematical functions).
pub fn derivatives_worked_by_hand()
    ensures { WorkedDerivatives }
{}

/// Products, reciprocals, literals and comparisons modulo 1000003 and in the whole numbers.
pub fn values_worked_by_hand()
    ensures { WorkedValues }
{}

/// The operators on integers at the edges of the 32 bits (Operators).
pub fn integers_worked_by_hand()
    ensures { WorkedIntegers }
{}

/// The operators on values of both types, alone and mixed (Operators, Real to integer conversion, Integer to real conversion).
pub fn numbers_worked_by_hand()
    ensures { WorkedNumbers }
{}

/// Loops that end, that need a turn too many and that are undefined before, and a set that grows by rules.
pub fn loops_worked_by_hand()
    ensures { WorkedLoops }
{}
