//! Rows that were worked out by hand, as a contract: the definition of the tokens of a text computes to them.
ghost use Rattle.va_lexer.specs.Worked.{WorkedTokens};

/// Texts and their tokens.
#[tactic(auto, unfolding(crate::specs::Tokens::tokens_from, crate::specs::Pieces::front, va_base::specs::Longest::longest, va_base::specs::Spelling::is_numeral, va_base::specs::Numerals::decimal_of, va_base::specs::Numerals::value_of, va_base::specs::Numerals::number_of, va_base::specs::Numerals::digit_count))]
pub fn tokens_worked_by_hand()
    ensures { WorkedTokens }
{}
