//! Tables by name.
ghost use Rattle.std.specs.Prelude.{◌≡◌, ℕ, List, Some, None, OnOk, IfOk, if◌then◌else◌};
ghost use Rattle.std.specs.Str.{bytes_eq};
ghost use Rattle.va_scopes.specs.Tables.{by_name};

use crate::bindings::Seen;
use indexmap::IndexMap;
use va_base::NoMemory;

/// What is seen under names.
pub type Table<'a> = IndexMap<&'a [u8], Seen>;

/// What a table has under a name.
pub fn find(table: &Table, name: &[u8]) -> Option<Seen>
    ensures { result ≡ by_name table.now name.now }
{
    table.get(name).copied()
}

/// A name means this from now on. The answer is what it meant before.
pub fn put<'a>(table: &mut Table<'a>, name: &'a [u8], seen: Seen) -> Result<Option<Seen>, NoMemory>
    ensures before { IfOk result (λ before. before ≡ by_name table.old name.now) }
    ensures after { OnOk result ((other : List ℕ) →
        by_name table.new other ≡ (if bytes_eq name.now other then Some seen else by_name table.old other)) }
{
    let before = table.insert(name, seen)?;
    Ok(before)
}

/// A name means nothing from now on.
pub fn take_out(table: &mut Table, name: &[u8])
    ensures { (other : List ℕ) →
        by_name table.new other ≡ (if bytes_eq name.now other then None else by_name table.old other) }
{
    let _before = table.swap_remove(name);
}
