//! The names that fields of the two structs have in C.
ghost use Rattle.std.specs.Prelude.{◌≡◌, ◌++◌, IfOk, codes, decimal};
ghost use Rattle.c_tree.specs.Text.{field_word};

use c_tree::CField;
use itoa::Buffer;
use std::alloc::Global;
use va_base::NoMemory;

/// Letters with a number behind them.
fn numbered(alloc: Global, letters: &str, number: u32) -> Result<Vec<u8>, NoMemory>
    ensures { IfOk result (λ name. name.items ≡ letters.now ++ decimal number) }
{
    let mut name = Vec::new(alloc);
    let mut digits = Buffer::new();
    name.extend_from_slice(letters.as_bytes())?;
    name.extend_from_slice(digits.format(number).as_bytes())?;
    Ok(name)
}

/// The name of the temperature.
fn temperature(alloc: Global) -> Result<Vec<u8>, NoMemory>
    ensures { IfOk result (λ name. name.items ≡ codes "temp") }
{
    let mut name = Vec::new(alloc);
    name.extend_from_slice(b"temp")?;
    Ok(name)
}

/// The name of a field in C: `p3`, `er0`, `temp` and their kin. The error is want of memory.
pub fn field_name(alloc: Global, field: CField) -> Result<Vec<u8>, NoMemory>
    ensures { IfOk result (λ name. name.items ≡ field_word field) }
{
    match field {
        CField::Param(number) => numbered(alloc, "p", number),
        CField::Given(number) => numbered(alloc, "g", number),
        CField::Resist(number) => numbered(alloc, "r", number),
        CField::React(number) => numbered(alloc, "q", number),
        CField::EntryResist(number) => numbered(alloc, "er", number),
        CField::EntryReact(number) => numbered(alloc, "eq", number),
        CField::OpVar(number) => numbered(alloc, "o", number),
        CField::Stored(number) => numbered(alloc, "h", number),
        CField::Temperature => temperature(alloc),
    }
}
