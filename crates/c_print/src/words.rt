//! Words, each with the space or the line end behind it.
ghost use Rattle.std.specs.Prelude.{◌≡◌, ◌≤◌, ◌++◌, ◌∷◌, [], if◌then◌else◌, drop, length, OnOk};
ghost use Rattle.c_tree.specs.short.Text as text_spec;
ghost use Rattle.c_tree.specs.short.Text.{numbered, template, unsigned};
ghost use Rattle.c_print.specs.Prints.{Prints};
ghost use Rattle.std.specs.Prelude.{decimal};
ghost use Rattle.std.specs.List.{flat_map};
ghost use Rattle.c_tree.specs.Words as words_spec;
ghost use Rattle.c_tree.specs.Words.{real_word, string_byte, string_word};
ghost use Rattle.c_tree.specs.Text.{function_word};

use itoa::Buffer;
use std::alloc::AllocError;
use va_base::{Decimal, Name};

/// Whether a line ends behind a word.
fn ends_line(word: &[u8]) -> bool
    ensures { result ≡ text_spec.ends_line word.now }
{
    match word {
        [] => false,
        [only] => matches!(*only, b';' | b'{' | b'}'),
        [first, ..] => *first == b'#',
    }
}

/// Ends the word that begins at `start`, by a line end or a space.
fn end_word(out: &mut Vec<u8>, start: usize) -> Result<(), AllocError>
    requires { start ≤ length out.old.items }
    ensures { OnOk result (out.new.items
        ≡ out.old.items ++ (if text_spec.ends_line (drop start out.old.items) then 10 else 32) ∷ []) }
{
    let end = if ends_line(&out[start..]) {
        b'\n'
    } else {
        b' '
    };
    out.push(end)?;
    Ok(())
}

/// One word.
pub fn put_word(out: &mut Vec<u8>, word: &[u8]) -> Result<(), AllocError>
    ensures { OnOk result (Prints out.old.items out.new.items (text_spec.word word.now)) }
{
    let start = out.len();
    out.extend_from_slice(word)?;
    end_word(out, start)?;
    Ok(())
}

/// A name that ends with a number, as `p3`.
pub fn put_numbered(out: &mut Vec<u8>, name: &str, number: u32) -> Result<(), AllocError>
    ensures { OnOk result (Prints out.old.items out.new.items (text_spec.word (numbered name.now number))) }
{
    let start = out.len();
    let mut digits = Buffer::new();
    out.extend_from_slice(name.as_bytes())?;
    out.extend_from_slice(digits.format(number).as_bytes())?;
    end_word(out, start)?;
    Ok(())
}

/// An unsigned number, as `3u`.
pub fn put_unsigned(out: &mut Vec<u8>, number: u32) -> Result<(), AllocError>
    ensures { OnOk result (Prints out.old.items out.new.items (text_spec.word (unsigned number))) }
{
    let start = out.len();
    let mut digits = Buffer::new();
    out.extend_from_slice(digits.format(number).as_bytes())?;
    out.push(b'u')?;
    end_word(out, start)?;
    Ok(())
}

/// The words of a line of C that is written with one space between its words.
pub fn put_template(out: &mut Vec<u8>, text: &str) -> Result<(), AllocError>
    ensures { OnOk result (Prints out.old.items out.new.items (template text.now)) }
{
    let mut rest = text;
    'words: while let Some((word, more)) = rest.split_once(' ') {
        put_word(out, word.as_bytes())?;
        rest = more;
    }
    put_word(out, rest.as_bytes())?;
    Ok(())
}

/// A name that ends with a number of any size.
pub fn put_indexed(out: &mut Vec<u8>, name: &str, index: usize) -> Result<(), AllocError>
    ensures { OnOk result (Prints out.old.items out.new.items (text_spec.word (numbered name.now index))) }
{
    let start = out.len();
    let mut digits = Buffer::new();
    out.extend_from_slice(name.as_bytes())?;
    out.extend_from_slice(digits.format(index).as_bytes())?;
    end_word(out, start)?;
    Ok(())
}

/// The name of a function of a module, as `fn_0_1`.
pub fn put_function_name(out: &mut Vec<u8>, number: usize, index: usize) -> Result<(), AllocError>
    ensures { OnOk result (Prints out.old.items out.new.items (text_spec.word (function_word number index))) }
{
    let start = out.len();
    let mut digits = Buffer::new();
    out.extend_from_slice(b"fn_")?;
    out.extend_from_slice(digits.format(number).as_bytes())?;
    let mut more = Buffer::new();
    out.push(b'_')?;
    out.extend_from_slice(more.format(index).as_bytes())?;
    end_word(out, start)?;
    Ok(())
}

/// An unsigned number of any size, as `3u`.
pub fn put_count(out: &mut Vec<u8>, count: usize) -> Result<(), AllocError>
    ensures { OnOk result (Prints out.old.items out.new.items (text_spec.word (unsigned count))) }
{
    let start = out.len();
    let mut digits = Buffer::new();
    out.extend_from_slice(digits.format(count).as_bytes())?;
    out.push(b'u')?;
    end_word(out, start)?;
    Ok(())
}

/// An integer, as `3`.
pub fn put_integer(out: &mut Vec<u8>, number: u32) -> Result<(), AllocError>
    ensures { OnOk result (Prints out.old.items out.new.items (text_spec.word (decimal number))) }
{
    let start = out.len();
    let mut digits = Buffer::new();
    out.extend_from_slice(digits.format(number).as_bytes())?;
    end_word(out, start)?;
    Ok(())
}

/// A real, as `15e-4`.
pub fn put_real(out: &mut Vec<u8>, value: Decimal) -> Result<(), AllocError>
    ensures { OnOk result (Prints out.old.items out.new.items (text_spec.word (real_word value.mantissa value.power))) }
{
    let start = out.len();
    let mut digits = Buffer::new();
    out.extend_from_slice(digits.format(value.mantissa).as_bytes())?;
    let mut power = Buffer::new();
    out.push(b'e')?;
    out.extend_from_slice(power.format(value.power).as_bytes())?;
    end_word(out, start)?;
    Ok(())
}

/// Whether a byte stands as itself in a string.
fn stands_as_itself(byte: u8) -> bool
    ensures { result ≡ words_spec.stands_as_itself byte }
{
    32 <= byte && byte <= 126 && !matches!(byte, b'"' | b'?' | b'\\' | b'`')
}

/// A byte as it stands in a string.
fn push_string_byte(out: &mut Vec<u8>, byte: u8) -> Result<(), AllocError>
    ensures { OnOk result (out.new.items ≡ out.old.items ++ string_byte byte) }
{
    if stands_as_itself(byte) {
        out.push(byte)?;
        return Ok(());
    }
    out.push(b'\\')?;
    out.push(b'0' + byte / 64)?;
    out.push(b'0' + byte / 8 % 8)?;
    out.push(b'0' + byte % 8)?;
    Ok(())
}

/// Bytes as they stand in a string.
fn push_string_bytes(out: &mut Vec<u8>, bytes: &[u8]) -> Result<(), AllocError>
    ensures { OnOk result (out.new.items ≡ out.old.items ++ flat_map string_byte bytes.now) }
{
    for byte in bytes {
        push_string_byte(out, *byte)?;
    }
    Ok(())
}

/// A string between its quotes.
pub fn put_string(out: &mut Vec<u8>, name: &Name) -> Result<(), AllocError>
    ensures { OnOk result (Prints out.old.items out.new.items (text_spec.word (string_word name.now))) }
{
    let start = out.len();
    out.push(b'"')?;
    push_string_bytes(out, name.as_bytes())?;
    out.push(b'"')?;
    end_word(out, start)?;
    Ok(())
}

/// A name as it stands.
pub fn put_name(out: &mut Vec<u8>, name: &Name) -> Result<(), AllocError>
    ensures { OnOk result (Prints out.old.items out.new.items (text_spec.word name.now)) }
{
    put_word(out, name.as_bytes())?;
    Ok(())
}
