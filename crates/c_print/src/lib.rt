//! The printer of C files: a tree's text, word by word.
//!
//! Short files, which the program prints so far, have their printer in `short`.
#![tactic(auto)]

ghost use Rattle.std.specs.Prelude.{◌≡◌, IfOk};
ghost use Rattle.c_tree.specs.Text.{text_of};

use c_tree::CFile;
use std::alloc::Global;
use va_base::NoMemory;

mod body;
mod descriptor;
mod function;
mod load;
mod module;
pub mod short;
mod simple;
mod statement;
mod table;
mod value;
mod whole;
mod words;

/// The text of a C file: its words in order, each with the space or the line end behind it. Every file has one; that of a file
/// whose numbers, names and lists the grammar doesn't hold is no C file.
pub fn print(alloc: Global, file: &CFile) -> Result<Vec<u8>, NoMemory>
    ensures { IfOk result (λ text. text.items ≡ text_of file.now) }
{
    let mut text = Vec::new(alloc);
    let modules = file.modules.as_list();
    module::put_includes(&mut text)?;
    whole::put_help(&mut text)?;
    whole::put_modules(alloc, &mut text, modules)?;
    descriptor::put_end(&mut text, modules)?;
    Ok(text)
}
