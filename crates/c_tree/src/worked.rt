//! Runs that were worked out by hand, as contracts: the machine computes to them.
ghost use Rattle.std.specs.Prelude.{pos};
ghost use Rattle.c_tree.specs.SampleFile.{WorkedForm, WorkedSpelling, WorkedText};
ghost use Rattle.c_tree.specs.short.Worked.{WorkedRuns, WorkedMachine};

/// Evaluations and loads of a resistor of 1 over the whole numbers.
pub fn resistor_runs_worked_by_hand()
    ensures { WorkedRuns (pos 1) }
{}

/// A quotient, the part of a residual, and what is wanted of loads at one place and elsewhere.
pub fn machine_worked_by_hand()
    ensures { WorkedMachine }
{}

/// The text of a file that has each part of the grammar, and the text of its tables.
pub fn text_worked_by_hand()
    ensures { WorkedText }
{}

/// The file that has each part of the grammar obeys the rules of form.
pub fn form_worked_by_hand()
    ensures { WorkedForm }
{}

/// Numbers and names within the grammar, and past it.
pub fn spelling_worked_by_hand()
    ensures { WorkedSpelling }
{}
