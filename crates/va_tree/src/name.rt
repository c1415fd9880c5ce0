//! Names with their places.
use va_base::Name;

/// A name or a string of a text, and the index of its token. A name is without the `\` of its escaped form, and a string is
/// the bytes between its quotes (Lexical conventions).
#[derive(Debug, Drop)]
pub struct NameAt {
    pub at: u32,
    pub name: Name,
}
