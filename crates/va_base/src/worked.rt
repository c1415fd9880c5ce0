//! Laws, and rows that were worked out by hand, as contracts: the definitions compute to them.
ghost use Rattle.va_base.specs.Longest.{FindsLongest};
ghost use Rattle.va_base.specs.Worked.{WorkedDecimals};
ghost use Rattle.va_base.specs.WorkedTables.{WorkedTables};

/// What `longest` computes is the longest front that passes, wherever one does.
#[tactic(auto, using(crate::proofs::Longest::finds_longest))]
pub fn longest_fronts_are_found()
    ensures { FindsLongest }
{}

/// Numerals and what they stand for, at the limits too (Numbers).
#[tactic(auto, unfolding(crate::specs::Numerals::decimal_of, crate::specs::Numerals::value_of, crate::specs::Numerals::number_of, crate::specs::Numerals::digit_count, crate::specs::Spelling::is_numeral))]
pub fn decimals_worked_by_hand()
    ensures { WorkedDecimals }
{}

/// The text of the tables of two modules.
pub fn tables_worked_by_hand()
    ensures { WorkedTables }
{}
