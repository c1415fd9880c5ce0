//! Rows that were worked out by hand, as contracts: the definitions compute to them.
ghost use Rattle.va_tree.specs.Worked.{WorkedNodes, WorkedOrder};

/// Nodes of statements with their depths, the order of expressions, and the lengths of tokens.
pub fn nodes_worked_by_hand()
    ensures { WorkedNodes }
{}

/// Tokens of the names of statements, in the order of the text and in that of the tree.
pub fn order_worked_by_hand()
    ensures { WorkedOrder }
{}
