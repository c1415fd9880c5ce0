//! Short files.
ghost use Rattle.std.specs.Prelude.{◌≡◌, IfOk};
ghost use Rattle.c_tree.specs.short.Text.{text_of};

use crate::module::{put_includes, put_modules};
use c_tree::short::ShortFile;
use std::alloc::Global;
use va_base::NoMemory;

/// The text of a short C file: the includes, and then its modules, numbered from 0 on.
///
/// It answers NoMemory where memory ends, and for a file whose modules are more than a `u32` can number.
pub fn print(alloc: Global, file: &ShortFile) -> Result<Vec<u8>, NoMemory>
    ensures { IfOk result (λ text. text.items ≡ text_of file.now.modules) }
{
    let mut text = Vec::new(alloc);
    put_includes(&mut text)?;
    put_modules(&mut text, file.modules.as_list())?;
    Ok(text)
}
