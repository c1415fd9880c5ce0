//! Names, copied.
ghost use Rattle.std.specs.Prelude.{◌≡◌, IfOk};

use std::alloc::{AllocError, Global};
use va_base::{Items, Name};

/// The same name.
pub(crate) fn name(alloc: Global, from: &Name) -> Result<Name, AllocError>
    ensures { IfOk result (λ name. name ≡ from.now) }
{
    let bytes = from.as_bytes().to_vec(alloc)?;
    Ok(Name::new(bytes))
}

/// The same names.
pub(crate) fn names(alloc: Global, from: &[Name]) -> Result<Items<Name>, AllocError>
    ensures { IfOk result (λ names. names ≡ from.now) }
{
    let mut list = Vec::new(alloc);
    for element in from {
        list.push(name(alloc, element)?)?;
    }
    Ok(Items::new(list))
}
