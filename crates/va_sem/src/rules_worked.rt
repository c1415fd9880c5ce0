//! Rules that were worked out by hand, as contracts: the definitions compute to them.
ghost use Rattle.va_sem.specs.rules.WorkedModuleTables.{WorkedModuleTables};
ghost use Rattle.va_sem.specs.rules.WorkedPattern.{WorkedPattern};
ghost use Rattle.va_sem.specs.rules.WorkedRules.{WorkedBiased, WorkedDerivatives, WorkedKinds, WorkedUnknowns};

/// Variables that depend on unknowns, and variables that hold time derivatives.
pub fn biased_worked_by_hand()
    ensures { WorkedBiased }
{}

/// Time derivatives where they may stand and where not (Time derivative operator).
pub fn derivatives_worked_by_hand()
    ensures { WorkedDerivatives }
{}

/// Kinds of branches, and the rules on switch branches and flow probes (Contribution statements, Switch branches).
pub fn kinds_worked_by_hand()
    ensures { WorkedKinds }
{}

/// The order of unknowns and of collapsible pairs, and the limits.
pub fn unknowns_worked_by_hand()
    ensures { WorkedUnknowns }
{}

/// Entries of the Jacobian: which parts of which rows depend on which unknowns.
pub fn pattern_worked_by_hand()
    ensures { WorkedPattern }
{}

/// The tables of a module: names and units of unknowns, entries, parameters with their aliases, and operating-point variables.
pub fn tables_worked_by_hand()
    ensures { WorkedModuleTables }
{}
