//! Laws on what edges and seeds reach, as contracts of functions with nothing to do.
ghost use Rattle.va_sem.specs.rules.ReachLaws.{VariablesAreReached};

/// The biased and the timed variables of a module are what edges and seeds of its values reach.
pub fn variables_are_reached()
    ensures { VariablesAreReached }
{}
