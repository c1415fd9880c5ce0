//! How tables write texts and what they expand to: the lines of a text are ended by `|`. A text is that of `m.va`; other files
//! follow it after `@@`, with their names.
use crate::reading::file;
use std::alloc::{AllocError, Global};
use std::test::Fail;
use va_base::{Expanded, FileText, Name, TokenKind};
use va_io::MemFiles;
use va_preproc::{PreErr, expand};

/// A file of this name, with this text in the form of the rows.
pub fn file_of(alloc: Global, name: &str, text: &str) -> Result<FileText, AllocError> {
    let mut bytes = Vec::new(alloc);
    for byte in text.as_bytes() {
        bytes.push(if *byte == b'|' { b'\n' } else { *byte })?;
    }
    file(alloc, name, bytes)
}

/// The files of a row.
pub fn files_of(alloc: Global, row: &str) -> Result<Vec<FileText>, Fail> {
    let mut files = Vec::new(alloc);
    for (number, part) in row.split("@@").enumerate() {
        let (name, text) = if number == 0 {
            ("m.va", part)
        } else {
            part.split_once(' ').ok_or("a file without a name")?
        };
        files.push(file_of(alloc, name, text)?)?;
    }
    Ok(files)
}

/// What these files expand to, where the read of this number fails (0 for none).
pub fn expansion_of(
    alloc: Global,
    files: Vec<FileText>,
    main: &str,
    fail: u64,
) -> Result<Result<Expanded, PreErr>, Fail> {
    let mut files = MemFiles::new(alloc, files, vec![in alloc; fail]?);
    Ok(expand(alloc, &mut files, main))
}

/// The words of a text after expansion, with spaces between them.
fn words_of(alloc: Global, text: &Expanded) -> Result<String, Fail> {
    let mut words = String::new(alloc);
    for token in text.tokens.as_list() {
        if token.kind != TokenKind::End {
            let file = text
                .files
                .as_list()
                .get(token.file as usize)
                .ok_or("no file")?;
            let from = token.first as usize;
            let bytes = file
                .bytes
                .as_list()
                .get(from..from + token.len as usize)
                .ok_or("no bytes")?;
            if !words.is_empty() {
                words.push(' ')?;
            }
            words.push_str(str::from_utf8(bytes).ok().ok_or("no UTF-8")?)?;
        }
    }
    Ok(words)
}

/// A name as text.
fn text_of(name: &Name) -> Result<&str, Fail> {
    Ok(str::from_utf8(name.as_bytes()).ok().ok_or("no UTF-8")?)
}

/// An answer as a row writes it.
fn row_of(alloc: Global, answer: &Result<Expanded, PreErr>) -> Result<String, Fail> {
    match answer {
        Ok(text) => words_of(alloc, text),
        Err(PreErr::Fault { fault, name }) => Ok(format!(in alloc;
            "{}:{}:{}: {}",
            text_of(name)?,
            fault.place.line,
            fault.place.col,
            fault.code.spelling()
        )?),
        Err(PreErr::Missing) => Ok("missing".to_string(alloc)?),
        Err(PreErr::Failed { name }) => Ok(format!(in alloc; "failed {}", text_of(name)?)?),
        Err(PreErr::NoMemory) => Ok("no memory".to_string(alloc)?),
    }
}

/// What these files expand to, as a row writes it, where the read of this number fails (0 for none).
pub fn answer_of(
    alloc: Global,
    files: Vec<FileText>,
    main: &str,
    fail: u64,
) -> Result<String, Fail> {
    row_of(alloc, &expansion_of(alloc, files, main, fail)?)
}

/// What a text in the form of the rows expands to.
pub fn answer_to(alloc: Global, text: &str) -> Result<String, Fail> {
    answer_of(alloc, files_of(alloc, text)?, "m.va", 0)
}
