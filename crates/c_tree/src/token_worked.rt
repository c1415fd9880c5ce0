//! Texts and their tokens, worked out by hand, as a contract: the definition of a C file's tokens computes to them.
ghost use Rattle.c_tree.specs.tokens.Worked.{WorkedTokens};

/// Texts, and what their bytes give.
pub fn tokens_worked_by_hand()
    ensures { WorkedTokens }
{}
