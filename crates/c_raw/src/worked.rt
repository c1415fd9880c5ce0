//! Blocks of flat lists that were worked out by hand, as a contract: the definitions compute to them.
ghost use Rattle.c_raw.specs.Worked.{WorkedBlocks};

/// A body with each kind of statement, and lists that are no body.
pub fn blocks_worked_by_hand()
    ensures { WorkedBlocks }
{}
