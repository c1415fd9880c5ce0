//! The tokens of a Verilog-A text.
#![tactic(auto)]

ghost use Rattle.std.specs.Prelude.{◌≡◌, ◌<◌, ◌≤◌, ◌+◌, ◌^◌, ℕ, IfOk, length};
ghost use Rattle.va_lexer.specs.Tokens.{tokens_of, place_in, places_after};

mod bytes;
pub mod piece;
pub mod worked;

use piece::front;
use std::alloc::Global;
use va_base::{NoMemory, Place, Token};

/// A line of a text: its number, from 1, and the index of its first byte.
#[derive(Clone, Copy)]
struct Line {
    number: usize,
    start: usize,
}

/// The line in which a text goes on after some bytes, the first of which stands in this line and has the index `at`.
fn line_after(line: Line, at: usize, bytes: &[u8]) -> Line
    requires begun { line.start ≤ at }
    requires numbered { line.number ≤ line.start + 1 }
    requires fits { at + length bytes.now < 2 ^ 32 }
    ensures place { (file : ℕ) → place_in file result (at + length bytes.now) ≡ places_after (place_in file line at) bytes.now }
    ensures begun { result.start ≤ at + length bytes.now }
    ensures numbered { result.number ≤ result.start + 1 }
{
    let mut line = line;
    for (offset, byte) in bytes.iter().enumerate() {
        if *byte == b'\n' {
            line = Line {
                number: line.number + 1,
                start: at + offset + 1,
            };
        }
    }
    line
}

/// The tokens of a text, which is that of the file of this number, with their places: at each place the longest token, and
/// what separates tokens left out (Lexical conventions). No text is refused: bytes that are no token make tokens of the kind
/// Bad. There is no token End.
///
/// Each byte is looked at a bounded number of times. Memory is taken for the list alone.
pub fn lex(alloc: Global, bytes: &[u8], file: u32) -> Result<Vec<Token>, NoMemory>
    requires { length bytes.now < 2 ^ 32 }
    ensures { IfOk result (λ tokens. tokens.items ≡ tokens_of file bytes.now) }
{
    let mut tokens = Vec::new(alloc);
    let mut line = Line {
        number: 1,
        start: 0,
    };
    let mut at = 0;
    'pieces: while at < bytes.len() {
        let piece = front(&bytes[at..]);
        if let Some(kind) = piece.kind {
            let place = Place {
                file,
                line: line.number as u32,
                col: (at + 1 - line.start) as u32,
            };
            tokens.push(Token {
                kind,
                file,
                first: at as u32,
                len: piece.len as u32,
                place,
            })?;
        }
        let end = at + piece.len;
        line = line_after(line, at, &bytes[at..end]);
        at = end;
    }
    Ok(tokens)
}
