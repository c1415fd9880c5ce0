//! Reports on C files: the tables that a simulator reads, as lines of text.
#![tactic(auto)]

ghost use Rattle.std.specs.Prelude.{◌≡◌, IfOk};
ghost use Rattle.va_base.specs.Tables.{tables_text};
ghost use Rattle.c_tree.specs.TablesOf.{tables_of};

use c_tree::CFile;
use std::alloc::Global;
use va_base::NoMemory;

mod line;
mod parameter;
mod table;

/// The tables of a C file, module by module, in the order of the file. A module has the lines `module NAME` and `ports P`, one
/// `node` for each unknown (`OsdiNode`), one `entry` for each entry of the Jacobian (`OsdiJacobianEntry`), one `collapse` for
/// each pair (`OsdiNodePair`), and for each id (`OsdiParamOpvar`) a `param` with its `alias` lines, or an `opvar`. Each line ends
/// with a line end. Bytes of names and units are written as they are.
pub fn tables(alloc: Global, f: &CFile) -> Result<Vec<u8>, NoMemory>
    ensures { IfOk result (λ text. text.items ≡ tables_text (tables_of f.now)) }
{
    let mut text = Vec::new(alloc);
    table::put_modules(&mut text, f.modules.as_list())?;
    Ok(text)
}
