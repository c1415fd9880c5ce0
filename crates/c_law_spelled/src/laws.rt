//! What follows from the definitions, as the contracts of functions with nothing to do: a contract is what the check proves.
ghost use Rattle.std.specs.Prelude.{◌^◌};
ghost use Rattle.c_law_spelled.specs.Spelled.{OneFile, OnlySpelled, SpelledExactly};

/// A text that the grammar spells, spells one file and no other.
pub fn one_file()
    ensures { OneFile }
{}

/// A text of fewer than 2^32 bytes spells only a file that can be spelled: each number, name and list of the file is within the
/// tokens and rows of the grammar.
pub fn only_spelled()
    ensures { OnlySpelled (2 ^ 32) }
{}

/// The files that can be spelled are exactly those that some text spells and whose counted lists have fewer than 2^32
/// elements.
pub fn spelled_exactly()
    ensures { SpelledExactly }
{}
