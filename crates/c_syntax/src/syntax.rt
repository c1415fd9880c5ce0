//! Whether the grammar spells a C file, and its parse tree.
ghost use Rattle.std.specs.Prelude.{◌≡◌, ◌<◌, ◌-◌, ◌^◌, ℕ, Some, None, IfOk, IsErrOf, MatchResult, length};
ghost use Rattle.std.specs.List.{All};
ghost use Rattle.predict.specs.Sentence.{IsParsed, IsSentence, IsFirstBad};
ghost use Rattle.c_tree.specs.tokens.Tokens.{c_tokens_of};
ghost use Rattle.c_syntax.specs.Fronts.{IsWithin};
ghost use Rattle.c_syntax.specs.Syntax.{IsSpelled, IsSyntax, IsSyntaxFault};
ghost use Rattle.c_syntax.specs.grammar.Kinds.{kinds_of};
ghost use Rattle.c_syntax.specs.grammar.Sets.{c_rules};

use crate::c_rows::CRows;
use crate::error::CErr;
use crate::kinds::kinds;
use crate::token_list::{TokenErr, tokens};
use c_tree::token::CToken;
use predict::{ParseErr, ParseTree, parse};
use std::alloc::Global;

/// A text that the grammar spells: its tokens, and its parse tree.
#[derive(Debug, Drop)]
pub struct ParsedFile {
    pub tokens: Vec<CToken>,
    pub tree: ParseTree,
}

/// The tokens of a text, or the first byte that begins none.
fn text_tokens(alloc: Global, bytes: &[u8]) -> Result<Vec<CToken>, CErr>
    requires { length bytes.now < 2 ^ 32 }
    ensures tokens { IfOk result (λ tokens. c_tokens_of bytes.now ≡ record { tokens = tokens.items; bad = None }) }
    ensures within { IfOk result (λ tokens. All (IsWithin bytes.now) tokens.items) }
    ensures bad { (at : ℕ) → IsErrOf result (CErr.BadByte at) → (c_tokens_of bytes.now).bad ≡ Some at }
    ensures syntax { (at : ℕ) → IsErrOf result (CErr.Syntax at) → ⊥ }
    ensures form { (at : ℕ) → IsErrOf result (CErr.Form at) → ⊥ }
{
    match tokens(alloc, bytes) {
        Ok(list) => Ok(list),
        Err(TokenErr::BadByte(at)) => Err(CErr::BadByte(at)),
        Err(TokenErr::NoMemory) => Err(CErr::NoMemory),
    }
}

/// The parse tree of the tokens of a text.
fn token_tree(alloc: Global, bytes: &[u8], tokens: &[CToken]) -> Result<ParseTree, CErr>
    requires { All (IsWithin bytes.now) tokens.now }
    ensures parsed { IfOk result (IsParsed c_rules (kinds_of bytes.now tokens.now)) }
    ensures sentence { IsSentence c_rules (kinds_of bytes.now tokens.now)
        → MatchResult result (λ _. Unit) (λ e. e ≡ CErr.NoMemory) }
    ensures blamed { (at : ℕ) → IsErrOf result (CErr.Syntax at) → IsFirstBad c_rules (kinds_of bytes.now tokens.now) at }
    ensures bad { (at : ℕ) → IsErrOf result (CErr.BadByte at) → ⊥ }
    ensures form { (at : ℕ) → IsErrOf result (CErr.Form at) → ⊥ }
{
    let Ok(kinds) = kinds(alloc, bytes, tokens) else {
        return Err(CErr::NoMemory);
    };
    match parse(alloc, &CRows, &kinds) {
        Ok(tree) => Ok(tree),
        Err(ParseErr::At(at)) => Err(CErr::Syntax(at)),
        Err(ParseErr::NoMemory) => Err(CErr::NoMemory),
    }
}

/// The tokens of a text that the grammar spells, and its parse tree. `BadByte` is the first byte that begins no token, and
/// `Syntax` the first bad token where all bytes make tokens. There is no `Form`.
#[tactic(auto, using(crate::proofs::Counts::few_tokens))]
pub fn parse_file(alloc: Global, bytes: &[u8]) -> Result<ParsedFile, CErr>
    requires { length bytes.now < 2 ^ 32 - 1 }
    ensures spelled { IfOk result (λ s. IsSpelled bytes.now s.tokens.items s.tree) }
    ensures complete { IsSyntax bytes.now → MatchResult result (λ _. Unit) (λ e. e ≡ CErr.NoMemory) }
    ensures bad { (at : ℕ) → IsErrOf result (CErr.BadByte at) → (c_tokens_of bytes.now).bad ≡ Some at }
    ensures blamed { (at : ℕ) → IsErrOf result (CErr.Syntax at) → IsSyntaxFault bytes.now at }
    ensures form { (at : ℕ) → IsErrOf result (CErr.Form at) → ⊥ }
{
    let tokens = text_tokens(alloc, bytes)?;
    let tree = token_tree(alloc, bytes, &tokens)?;
    Ok(ParsedFile { tokens, tree })
}
