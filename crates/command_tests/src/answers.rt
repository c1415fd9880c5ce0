//! Commands over files and sinks in memory.
use crate::samples::{DISCIPLINES, RESISTOR};
use alg_laws::Whole;
use std::alloc::{AllocError, Global};
use std::marker::PhantomData;
use std::process::Abort;
use std::test::Fail;
use va_base::{FileText, Items, Name};
use va_command::{Status, run};
use va_io::{MemFiles, MemSink};

/// How a command ended, and what it wrote.
#[derive(Drop)]
pub(crate) struct Answer {
    pub status: Status,
    pub out: Vec<u8>,
    pub err: Vec<u8>,
}

/// The calls that fail, by their numbers from 1 (0 for none), and the most bytes that one write takes.
#[derive(Clone, Copy)]
pub(crate) struct Faults {
    pub read: u64,
    pub out: u64,
    pub err: u64,
    pub take: usize,
}

pub(crate) const NONE: Faults = Faults {
    read: 0,
    out: 0,
    err: 0,
    take: 4096,
};

/// A file of this name and text.
pub(crate) fn file(alloc: Global, name: &str, text: &[u8]) -> Result<FileText, AllocError> {
    Ok(FileText {
        name: Name::new(name.as_bytes().to_vec(alloc)?),
        bytes: Items::new(text.to_vec(alloc)?),
    })
}

/// The files of a row, in which each stands behind an `@` as its name, `:` and its text. Behind them stand `r.h` with the
/// resistor and `disc.h` with the disciplines.
pub(crate) fn row_files(alloc: Global, row: &str) -> Result<Vec<FileText>, Fail> {
    let mut list = Vec::new(alloc);
    for part in row.split('@').skip(1) {
        let (name, text) = part.split_once(':').ok_or("a file without a name")?;
        list.push(file(alloc, name, text.as_bytes())?)?;
    }
    list.push(file(alloc, "r.h", RESISTOR.as_bytes())?)?;
    list.push(file(alloc, "disc.h", DISCIPLINES.as_bytes())?)?;
    Ok(list)
}

/// Runs a command, its words parted by single spaces, on these files.
pub(crate) fn answer_over(
    alloc: Global,
    command: &str,
    list: Vec<FileText>,
    faults: Faults,
) -> Result<Answer, AllocError> {
    let mut files = MemFiles::new(alloc, list, vec![in alloc; faults.read]?);
    let take = faults.take.max(1);
    let mut out = MemSink::new(alloc, take, vec![in alloc; faults.out]?);
    let mut err = MemSink::new(alloc, take, vec![in alloc; faults.err]?);
    let mut words = Vec::new(alloc);
    for word in command.split(' ') {
        words.push(word.to_string(alloc)?)?;
    }
    let law: PhantomData<Whole> = PhantomData;
    let status = run(alloc, law, words.as_slice(), &mut files, &mut out, &mut err);
    Ok(Answer {
        status,
        out: out.bytes().to_vec(alloc)?,
        err: err.bytes().to_vec(alloc)?,
    })
}

/// Runs a command where `m.va` holds a text.
pub(crate) fn answer_to(
    alloc: Global,
    command: &str,
    text: &[u8],
    faults: Faults,
) -> Result<Answer, AllocError> {
    let list = vec![in alloc; file(alloc, "m.va", text)?]?;
    answer_over(alloc, command, list, faults)
}

/// A command ended with this status, this reason, and this output.
pub(crate) fn assert_answer(
    rt: &impl Abort,
    end: &Answer,
    (status, reason, out): (Status, &str, &str),
    what: &str,
) {
    assert_eq!(rt; end.status, status, "{what}");
    assert_eq!(rt; end.err.as_slice(), reason.as_bytes(), "{what}");
    assert_eq!(rt; end.out.as_slice(), out.as_bytes(), "{what}");
}

/// A command refused a text with this line as its reason, or, where the line is empty, wrote its output.
pub(crate) fn assert_ends(rt: &impl Abort, end: &Answer, line: &str, what: &str) {
    let mut reason = end.err.as_slice();
    if let Some((last, front)) = reason.split_last() {
        assert_eq!(rt; *last, b'\n', "{what}");
        reason = front;
    }
    assert_eq!(rt; reason, line.as_bytes(), "{what}");
    let status = if line.is_empty() {
        Status::Done
    } else {
        Status::Refused
    };
    assert_eq!(rt; end.status, status, "{what}");
    assert_eq!(rt; end.out.is_empty(), status != Status::Done, "{what}");
}
