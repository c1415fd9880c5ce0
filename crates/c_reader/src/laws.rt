//! What follows from the definitions, as the contracts of functions with nothing to do: a contract is what the check proves.
ghost use Rattle.std.specs.Prelude.{List, ℕ};
ghost use Rattle.c_reader.specs.Answers.{OneReading};

/// Each text spells one file and no other, or has one fault and no other.
pub fn one_reading()
    ensures { (text : List ℕ) → OneReading text }
{}
