//! Runs that were worked out by hand, as contracts: the machine computes to them.
ghost use Rattle.c_machine.specs.WorkedRuns.{WorkedCRuns, WorkedBodies, WorkedCalls};

/// Runs of a resistor and of a diode with a node that may collapse, modulo 1000003.
pub fn c_runs_worked_by_hand()
    ensures { WorkedCRuns }
{}

/// Loops, arms, integers, and what is stuck.
pub fn bodies_worked_by_hand()
    ensures { WorkedBodies }
{}

/// Which lists of calls are runs.
pub fn calls_worked_by_hand()
    ensures { WorkedCalls }
{}
