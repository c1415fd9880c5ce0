//! What follows from the definitions, as the contracts of functions with nothing to do: a contract is what the check proves.
ghost use Rattle.c_law_roundtrip.specs.Reread.{PrintIsReadBack, PrintSpellsItself};
ghost use Rattle.c_law_roundtrip.specs.Reprint.{PrintKeepsForm, PrintWritesRaw};

/// The text of a C file that can be spelled writes the numbers that the file asks for: its raw tree is that of the file, but for
/// places, and for how often the names of C repeat a module's number.
pub fn print_writes_raw()
    ensures { PrintWritesRaw }
{}

/// The raw tree of the text of a C file that can be spelled obeys the rules of form exactly where the file does.
pub fn print_keeps_form()
    ensures { PrintKeepsForm }
{}

/// The text of a C file that can be spelled spells that file exactly where the file obeys the rules of form.
pub fn print_spells_itself()
    ensures { PrintSpellsItself }
{}

/// Reading what was printed gives the file that was printed, where it can be spelled and obeys the rules of form: `read` answers that
/// file, or that memory was refused.
pub fn print_is_read_back()
    ensures { PrintIsReadBack }
{}
