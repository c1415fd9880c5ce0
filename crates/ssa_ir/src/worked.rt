//! Bodies that were worked out by hand, as a contract: the definitions compute to them.
ghost use Rattle.ssa_ir.specs.Worked.{WorkedBodies};

/// A choice, loops, a quotient, a time derivative and a call (Conditional statements, Looping statements, Operators, Time derivative
/// operator, User-defined analog functions).
pub fn bodies_worked_by_hand()
    ensures { WorkedBodies }
{}
