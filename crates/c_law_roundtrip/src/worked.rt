//! Raw trees without places and repeated numbers that were worked out by hand, as a contract: the definitions compute to them.
ghost use Rattle.c_law_roundtrip.specs.Worked.{WorkedForget};

/// A sample file, a loop, and numbers that are repeated or not.
pub fn forget_worked_by_hand()
    ensures { WorkedForget }
{}
