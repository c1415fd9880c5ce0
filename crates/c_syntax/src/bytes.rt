//! The test of single bytes that words of C need besides those of `va_base::bytes`.
ghost use Rattle.c_tree.specs.tokens.Spelling.{is_word_byte};

use va_base::bytes::ByteTest;

/// What words go on with: a letter, a digit or `_`.
pub struct WordByte;

impl ByteTest for WordByte {
    ghost test = { is_word_byte };

    fn passes(byte: u8) -> bool {
        byte.is_ascii_alphanumeric() || byte == b'_'
    }
}
