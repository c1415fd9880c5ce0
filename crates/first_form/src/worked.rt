//! Rows that were worked out by hand, as contracts: the definitions compute to them.
ghost use Rattle.first_form.specs.Worked.{WorkedSources, WorkedItems, WorkedSums};

/// A resistor's source with its parts, and its rows at a resistance of 1 between the potentials 5 and 3.
pub fn resistor_worked_by_hand()
    ensures { WorkedSources }
{}

/// What is no part of the form: directions, disciplines, parameters, contributions, attributes and names.
pub fn items_worked_by_hand()
    ensures { WorkedItems }
{}

/// Values of sums of three parameters (Expressions), and what is no sum of the form.
pub fn sums_worked_by_hand()
    ensures { WorkedSums }
{}
