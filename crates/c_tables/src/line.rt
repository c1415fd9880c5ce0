//! The fields of a line. Behind each stands a space, or the line's end.
ghost use Rattle.std.specs.Prelude.{◌≡◌, ◌++◌, OnOk, decimal};
ghost use Rattle.va_base.specs.Tables.{quoted};
ghost use Rattle.c_tables.specs.Prints.{Prints};

use itoa::Buffer;
use std::alloc::AllocError;
use va_base::Name;

/// Bytes, and what stands behind them.
pub fn put_bytes(out: &mut Vec<u8>, bytes: &[u8], end: &str) -> Result<(), AllocError>
    ensures { OnOk result (Prints out.old.items out.new.items (bytes.now ++ end.now)) }
{
    out.extend_from_slice(bytes)?;
    out.extend_from_slice(end.as_bytes())?;
    Ok(())
}

/// A word of the format.
pub fn put_word(out: &mut Vec<u8>, word: &str, end: &str) -> Result<(), AllocError>
    ensures { OnOk result (Prints out.old.items out.new.items (word.now ++ end.now)) }
{
    put_bytes(out, word.as_bytes(), end)?;
    Ok(())
}

/// A name.
pub fn put_name(out: &mut Vec<u8>, name: &Name, end: &str) -> Result<(), AllocError>
    ensures { OnOk result (Prints out.old.items out.new.items (name.now ++ end.now)) }
{
    put_bytes(out, name.as_bytes(), end)?;
    Ok(())
}

/// A number.
pub fn put_number(out: &mut Vec<u8>, number: u32, end: &str) -> Result<(), AllocError>
    ensures { OnOk result (Prints out.old.items out.new.items (decimal number ++ end.now)) }
{
    let mut digits = Buffer::new();
    put_bytes(out, digits.format(number).as_bytes(), end)?;
    Ok(())
}

/// A place in a list.
pub fn put_index(out: &mut Vec<u8>, index: usize, end: &str) -> Result<(), AllocError>
    ensures { OnOk result (Prints out.old.items out.new.items (decimal index ++ end.now)) }
{
    let mut digits = Buffer::new();
    put_bytes(out, digits.format(index).as_bytes(), end)?;
    Ok(())
}

/// A text in quotes, as it is.
pub fn put_quoted(out: &mut Vec<u8>, text: &Name, end: &str) -> Result<(), AllocError>
    ensures { OnOk result (Prints out.old.items out.new.items (quoted text.now ++ end.now)) }
{
    out.push(b'"')?;
    out.extend_from_slice(text.as_bytes())?;
    out.push(b'"')?;
    out.extend_from_slice(end.as_bytes())?;
    Ok(())
}
