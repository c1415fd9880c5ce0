//! What holds of each module of a text as evaluation sees it.
ghost use Rattle.va_meaning.specs.CycleLaws.{CycleLaws};
ghost use Rattle.va_meaning.specs.ElaborationLaws.{ElaborationLaws};
ghost use Rattle.va_meaning.specs.TimeLaws.{TimeLaws};

/// A module has the types that are found for its names, and keeps to the biased variables that are found by the rules.
pub fn modules_keep_types_and_bias()
    ensures { ElaborationLaws }
{}

/// Where the names of a text have no fault, calls in a module are never nested deeper than it has functions.
pub fn functions_lead_not_back()
    ensures { CycleLaws }
{}

/// A module of a text without faults keeps to the timed variables that are found by the rules, and its time derivatives stand at
/// linear places alone.
pub fn modules_keep_to_time()
    ensures { TimeLaws }
{}
