//! Why a text is no C file.

/// Why a text is no C file, or why it wasn't read.
#[derive(Clone, Copy, Debug, PartialEq, Eq)]
pub enum CErr {
    /// The byte with this index is the first that begins no token.
    BadByte(usize),
    /// All bytes make tokens, and the token with this number, counted from 0, is the first bad one: some C file begins with the
    /// tokens before it, and none with those up to it. The end of the text is the last token.
    Syntax(usize),
    /// The grammar spells the text, and the token with this number is the least at which a rule of its form is broken.
    Form(usize),
    /// Memory was refused.
    NoMemory,
}
