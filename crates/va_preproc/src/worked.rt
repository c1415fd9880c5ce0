//! Rows that were worked out by hand, as contracts: the definitions compute to them.
ghost use Rattle.va_preproc.specs.Worked.{WorkedUses, WorkedPlaces, WorkedRefusals, WorkedDirectives, WorkedConditionals, WorkedIncludes, WorkedLimits};

/// Uses of macros, with and without arguments (Using a text macro).
pub fn uses_worked_by_hand()
    ensures { WorkedUses }
{}

/// Places of tokens and of faults.
pub fn places_worked_by_hand()
    ensures { WorkedPlaces }
{}

/// Uses that are refused (Using a text macro).
pub fn refusals_worked_by_hand()
    ensures { WorkedRefusals }
{}

/// Directives that are not of their form (`define and `undef).
pub fn directives_worked_by_hand()
    ensures { WorkedDirectives }
{}

/// Conditional text (Conditional compilation).
pub fn conditionals_worked_by_hand()
    ensures { WorkedConditionals }
{}

/// Includes and the names that are read (`include).
pub fn includes_worked_by_hand()
    ensures { WorkedIncludes }
{}

/// The limits, at their number and one past.
pub fn limits_worked_by_hand()
    ensures { WorkedLimits }
{}
