//! What follows from the definitions, as the contracts of functions with nothing to do: a contract is what the check proves.
ghost use Rattle.c_law_print_parses.specs.Printed.{PrintIsRead, PrintIsSyntax};
ghost use Rattle.c_law_print_parses.specs.Stands.{PrintStandsFor};

/// The tokens of the text of a C file are the file's words, in order, where the file can be spelled.
pub fn print_is_read()
    ensures { PrintIsRead }
{}

/// The text of a C file that can be spelled is a sentence of the grammar of C files.
pub fn print_is_syntax()
    ensures { PrintIsSyntax }
{}

/// The text of a C file that can be spelled stands for that file: the raw tree of the text is one of the file.
pub fn print_stands_for()
    ensures { PrintStandsFor }
{}
