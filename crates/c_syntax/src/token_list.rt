//! The tokens of a C file in order.
ghost use Rattle.std.specs.Prelude.{◌≡◌, ◌<◌, ◌^◌, ℕ, IfOk, IsErrOf, Some, None, length};
ghost use Rattle.std.specs.List.{All};
ghost use Rattle.c_syntax.specs.Fronts.{IsWithin};
ghost use Rattle.c_tree.specs.tokens.Spelling as spelling;
ghost use Rattle.c_tree.specs.tokens.Tokens.{c_tokens_of};

use crate::front::front;
use c_tree::token::CToken;
use std::alloc::{AllocFailed, Global};

/// Why a text has no tokens.
#[derive(Clone, Copy, Debug, PartialEq, Eq)]
pub enum TokenErr {
    /// The byte with this index is the first that begins no token.
    BadByte(usize),
    /// Memory was refused.
    NoMemory,
}

impl<T: Drop> From<AllocFailed<T>> for TokenErr {
    ghost use Rattle.c_syntax.specs.declared.token_list.TokenErr.TheVariants.{NoMemory};

    ghost from_gives = { λ _ e. e ≡ NoMemory };

    fn from(_: AllocFailed<T>) -> Self {
        TokenErr::NoMemory
    }
}

/// Whether a byte separates tokens.
pub fn is_separator(byte: u8) -> bool
    ensures { result ≡ spelling.is_separator byte }
{
    byte == b'\n' || byte == b' '
}

/// The tokens of a C file, in order. `BadByte` is the first byte at which a token should begin and none does.
///
/// Each byte is looked at a bounded number of times. Memory is taken for the list alone.
pub fn tokens(alloc: Global, bytes: &[u8]) -> Result<Vec<CToken>, TokenErr>
    requires { length bytes.now < 2 ^ 32 }
    ensures tokens { IfOk result (λ tokens. c_tokens_of bytes.now ≡ record { tokens = tokens.items; bad = None }) }
    ensures within { IfOk result (λ tokens. All (IsWithin bytes.now) tokens.items) }
    ensures bad { (at : ℕ) → IsErrOf result (TokenErr.BadByte at) → (c_tokens_of bytes.now).bad ≡ Some at }
{
    let mut tokens = Vec::new(alloc);
    let mut at = 0;
    'bytes: while at < bytes.len() {
        if is_separator(bytes[at]) {
            at += 1;
        } else {
            let Some(token) = front(&bytes[at..]) else {
                return Err(TokenErr::BadByte(at));
            };
            tokens.push(CToken {
                kind: token.kind,
                first: at as u32,
                len: token.len as u32,
            })?;
            at += token.len;
        }
    }
    Ok(tokens)
}
