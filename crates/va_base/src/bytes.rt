//! Tests of single bytes, and how many bytes at the front of a text pass one.
ghost use Rattle.std.specs.Prelude.{◌≡◌, ◌≤◌, ◌==◌, ℕ, Bool, length};
ghost use Rattle.std.specs.List.{prefix_len};
ghost use Rattle.va_base.specs.Spelling as spelling;

/// A test of bytes.
pub trait ByteTest {
    ghost test: { ℕ → Bool };

    /// Whether the byte passes.
    fn passes(byte: u8) -> bool
        ensures { result ≡ test byte };
}

/// An ASCII letter or `_`.
pub struct Letter;

impl ByteTest for Letter {
    ghost test = { spelling.is_letter };

    fn passes(byte: u8) -> bool {
        byte.is_ascii_alphabetic() || byte == b'_'
    }
}

/// A digit.
pub struct Digit;

impl ByteTest for Digit {
    ghost test = { spelling.is_digit };

    fn passes(byte: u8) -> bool {
        byte.is_ascii_digit()
    }
}

/// What stands on one line: any byte but the line end.
pub struct InLine;

impl ByteTest for InLine {
    ghost test = { spelling.is_in_line };

    fn passes(byte: u8) -> bool {
        byte != b'\n'
    }
}

/// How many bytes at the front pass a test.
pub fn front_len<T: ByteTest>(text: &[u8]) -> usize
    ensures count { result ≡ prefix_len T.test text.now }
    ensures within { result ≤ length text.now }
{
    for (at, byte) in text.iter().enumerate() {
        if !T::passes(*byte) {
            return at;
        }
    }
    text.len()
}

/// Whether a byte stands at the front that passes a test.
pub fn begins<T: ByteTest>(text: &[u8]) -> bool
    ensures { result ≡ spelling.begins T.test text.now }
{
    !text.is_empty() && T::passes(text[0])
}

/// Whether this byte stands at the front.
pub fn begins_with(text: &[u8], byte: u8) -> bool
    ensures { result ≡ spelling.begins (λ first. first == byte) text.now }
{
    !text.is_empty() && text[0] == byte
}
