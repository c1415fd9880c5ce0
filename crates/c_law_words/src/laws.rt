//! What follows from the definitions, as the contracts of functions with nothing to do: a contract is what the check proves.
ghost use Rattle.c_law_words.specs.Standing.{WordsAreRead};
ghost use Rattle.c_law_words.specs.Values.{WordsGiveBack};

/// A text of words that stand for themselves gives these words as its tokens, in order, and no byte of it is left out.
pub fn words_are_read()
    ensures { WordsAreRead }
{}

/// The word of each number, real, string, field and function gives it back: what is read from a token is what was spelled there.
pub fn words_give_back()
    ensures { WordsGiveBack }
{}
