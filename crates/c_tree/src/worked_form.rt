//! Which tokens the rules of form blame, worked out by hand, as contracts: the definitions compute to them.
ghost use Rattle.c_tree.specs.WorkedForm.{WorkedNames, WorkedSettings, WorkedTypes, WorkedReach, WorkedNumbering};

/// Numbers in names, fields, and locals: which tokens are blamed.
pub fn names_worked_by_hand()
    ensures { WorkedNames }
{}

/// Settings of locals, and breaks.
pub fn settings_worked_by_hand()
    ensures { WorkedSettings }
{}

/// Types and calls.
pub fn types_worked_by_hand()
    ensures { WorkedTypes }
{}

/// Cells, and what bodies and loads may speak of.
pub fn reach_worked_by_hand()
    ensures { WorkedReach }
{}

/// Numbers and tables.
pub fn numbers_worked_by_hand()
    ensures { WorkedNumbering }
{}
