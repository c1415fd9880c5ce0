//! The tests of single bytes that tokens and separators of Verilog-A need besides those of `va_base::bytes`.
ghost use Rattle.va_base.specs.Spelling.{is_text_byte, is_visible, is_word_byte};
ghost use Rattle.va_lexer.specs.Separators.{is_blank};

use va_base::bytes::ByteTest;

/// What words and system names go on with: a letter, a digit, `_` or `$`.
pub struct WordByte;

impl ByteTest for WordByte {
    ghost test = { is_word_byte };

    fn passes(byte: u8) -> bool {
        byte.is_ascii_alphanumeric() || byte == b'_' || byte == b'$'
    }
}

/// An ASCII byte that shows, of which escaped words are made.
pub struct Visible;

impl ByteTest for Visible {
    ghost test = { is_visible };

    fn passes(byte: u8) -> bool {
        33 <= byte && byte <= 126
    }
}

/// A byte that a string may hold.
pub struct TextByte;

impl ByteTest for TextByte {
    ghost test = { is_text_byte };

    fn passes(byte: u8) -> bool {
        byte == b'\t' || 32 <= byte && byte != 127
    }
}

/// A tab, a carriage return or a space.
pub struct Blank;

impl ByteTest for Blank {
    ghost test = { is_blank };

    fn passes(byte: u8) -> bool {
        byte == b'\t' || byte == b'\r' || byte == b' '
    }
}
