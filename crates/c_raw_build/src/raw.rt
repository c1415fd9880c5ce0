//! The raw tree of a text that the grammar spells.
ghost use Rattle.std.specs.Prelude.{◌≡◌, IfOk, true};
ghost use Rattle.c_raw.specs.Views.{file_view, has_bodies};
ghost use Rattle.c_syntax.specs.Syntax.{IsSpelled};
ghost use Rattle.c_raw_build.specs.RawOf.{IsRawOf};

use crate::modules::file;
use crate::reader::Reader;
use crate::text::Text;
use c_raw::RawFile;
use c_syntax::ParsedFile;
use std::alloc::Global;
use va_base::NoMemory;

/// The raw tree of a text, from its tokens and its parse tree: what each of its rows holds, with the index of the token at which it
/// stands. Each body of it is one block.
///
/// It takes time and memory in proportion to the tokens, however deep blocks nest.
pub fn read_raw(alloc: Global, parsed: &ParsedFile, bytes: &[u8]) -> Result<RawFile, NoMemory>
    requires { IsSpelled bytes.now parsed.now.tokens.items parsed.now.tree }
    ensures raw { IfOk result (λ raw. IsRawOf bytes.now (file_view raw)) }
    ensures bodies { IfOk result (λ raw. has_bodies raw ≡ true) }
{
    let text = Text::new(bytes, parsed.tokens.as_slice());
    let mut reader = Reader::new(parsed.tree.nodes());
    match file(alloc, &text, &mut reader) {
        Ok(raw) => Ok(raw),
        Err(_) => Err(NoMemory),
    }
}
