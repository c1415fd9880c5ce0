//! What is known of every expansion.
ghost use Rattle.va_lexer.specs.Tokens.{tokens_of};
ghost use Rattle.va_preproc.specs.Laws.{GivesResults, AreTokens, GivesExpanded, GivesFaults, DepthsOnlyRefuse};

/// The result of an expansion is of tokens of the files that it read, but for their places, of kinds that are left, within
/// the limit, and ends at the end of the main file (Compiler directives).
#[tactic(auto, using(crate::proofs::Results::gives_results))]
pub fn results_come_from_files()
    ensures { GivesResults }
{}

/// The tokens of a file have its number and are tokens of its text (Lexical conventions).
pub fn tokens_are_of_texts()
    ensures { AreTokens tokens_of }
{}

/// The result of an expansion, with the files that it read, has the conditions of a text after expansion.
pub fn results_are_expanded()
    ensures { GivesExpanded }
{}

/// A fault of an expansion stands in a file that was read.
pub fn faults_stand_in_files()
    ensures { GivesFaults }
{}

/// The limits on what is open at once refuse expansions, and change none that they do not refuse.
#[tactic(auto, using(crate::proofs::Depth::depths_only_refuse))]
pub fn depths_only_refuse()
    ensures { DepthsOnlyRefuse }
{}
