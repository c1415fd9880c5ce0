//! How an expansion reads and gives tokens: what it gave so far, where it halts, and both counts.
ghost use Rattle.std.specs.Prelude.{◌≡◌, ◌+◌, ◌<◌, ◌^◌, length};

use va_base::{Fault, Token};

/// What an expansion gave so far, and what it may still read and give.
#[derive(Drop)]
pub struct Progress {
    /// How many tokens may still be read, line ends, skipped tokens and those that formals give among them.
    pub unread: u32,
    /// The tokens of the result so far.
    pub result: Vec<Token>,
    /// How many tokens the result may still take.
    pub free: u32,
    /// While an argument is expanded, what it gave so far; tokens then go there, and not to the result.
    pub argument: Option<Vec<Token>>,
    ghost counted: { length result.items + free < 2 ^ 32 },
}
