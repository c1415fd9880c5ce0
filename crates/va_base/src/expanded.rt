//! Texts after expansion.
ghost use Rattle.std.specs.Prelude.{◌≡◌};

use crate::file::FileText;
use crate::items::Items;
use crate::token::Token;

/// The tokens of a text after its macros and includes were expanded, and the files that were read, by their numbers: file 0
/// is the main file, and each include that was read has the next number. The last token is End.
///
/// The definition `IsExpanded` has the conditions that each call has which takes such a value.
#[derive(Debug, Drop)]
pub struct Expanded {
    pub tokens: Items<Token>,
    pub files: Items<FileText>,
}

impl Expanded {
    ghost use Rattle.va_base.specs.Expansion.{LiesIn, token_bytes};

    /// The bytes of a token. It takes no memory.
    pub fn bytes(&self, token: &Token) -> &[u8]
        requires { LiesIn self.now.files token.now }
        ensures { result.now ≡ token_bytes self.now.files token.now }
    {
        let file = &self.files.as_list()[token.file as usize];
        let first = token.first as usize;
        &file.bytes.as_list()[first..first + token.len as usize]
    }
}
