//! `va_io`: files in memory and the system's.
ghost use Rattle.std.specs.Prelude.{◌≡◌, ◌∷◌, [], IsTrue};

use std::alloc::{AllocError, Global};
use std::fs;
use std::test::Fail;
use va_base::{FileText, Items, Name};
use va_io::{DirFiles, FileErr, Files, MemFiles};

/// Files of these names and bytes.
fn listed(alloc: Global, list: &[(&str, &[u8])]) -> Result<Vec<FileText>, AllocError> {
    let mut files = Vec::new(alloc);
    for (name, bytes) in list {
        let name = Name::new(name.as_bytes().to_vec(alloc)?);
        let bytes = Items::new(bytes.to_vec(alloc)?);
        files.push(FileText { name, bytes })?;
    }
    Ok(files)
}

fn is_same(answer: &Result<Vec<u8>, FileErr>, want: &Result<&[u8], FileErr>) -> bool {
    match (answer, want) {
        (Ok(bytes), Ok(text)) => bytes.as_slice() == *text,
        (Err(error), Err(due)) => error == due,
        _ => false,
    }
}

#[test]
fn memory_answers_by_name_and_fails_at_the_listed_reads(rt: HostRuntime) -> Result<(), Fail> {
    let list = listed(
        rt.alloc(),
        &[
            ("m.va", &[1, 2, 200]),
            ("m.va", &[9]),
            ("empty.va", &[]),
            ("high.va", &[255, 128, 0]),
        ],
    )?;
    let mut files = MemFiles::new(rt.alloc(), list, [2, 5, 0, 2].to_vec(rt.alloc())?);
    let steps: [(&str, usize, Result<&[u8], FileErr>); 9] = [
        ("m.va", 9, Ok(&[1, 2, 200])),
        ("m.va", 9, Err(FileErr::Failed)),
        ("m.va", 2, Ok(&[1, 2])),
        ("none.va", 9, Err(FileErr::Missing)),
        ("none.va", 9, Err(FileErr::Failed)),
        ("empty.va", 9, Ok(&[])),
        ("high.va", 3, Ok(&[255, 128, 0])),
        ("high.va", 0, Ok(&[])),
        ("m.v", 9, Err(FileErr::Missing)),
    ];
    for (name, max, want) in &steps {
        let answer = files.read(rt.alloc(), name, *max);
        assert!(rt; is_same(&answer, want), "{name}, at most {max}: {answer:?}");
    }
    Ok(())
}

/// Where the second read is listed, it and not the first one fails, for want of memory at the latest.
fn second_fails(alloc: Global, files: Vec<FileText>, fail: Vec<u64>) -> bool
    requires { fail.items ≡ 2 ∷ [] }
    ensures { IsTrue result }
{
    let mut files = MemFiles::new(alloc, files, fail);
    let first = files.read(alloc, "m.va", 9);
    let second = files.read(alloc, "m.va", 9);
    !matches!(first, Err(FileErr::Failed)) && !matches!(second, Ok(_) | Err(FileErr::Missing))
}

#[test]
fn memory_may_hold_nothing(rt: HostRuntime) -> Result<(), Fail> {
    let none = Vec::new(rt.alloc());
    assert!(rt; second_fails(rt.alloc(), none, [2].to_vec(rt.alloc())?));
    let mut files = MemFiles::new(rt.alloc(), Vec::new(rt.alloc()), Vec::new(rt.alloc()));
    for _ in 0..3 {
        assert_eq!(rt; files.read(rt.alloc(), "", 9).err(), Some(FileErr::Missing));
    }
    Ok(())
}

#[test]
fn a_file_of_the_system_is_read_back(rt: HostRuntime) -> Result<(), Fail> {
    let own = [1u8, 200, 255, 0, 10];
    fs::write(&rt, "model.va", &own)?;
    fs::write(&rt, "empty.va", &[0u8; 0])?;
    let mut files = DirFiles::new(&rt);
    for (name, max, want) in [
        ("model.va", 9usize, 5usize),
        ("model.va", 5, 5),
        ("model.va", 2, 2),
        ("model.va", 0, 0),
        ("empty.va", 9, 0),
    ] {
        let bytes = files.read(rt.alloc(), name, max)?;
        assert_eq!(rt; bytes.as_slice(), &own[..want], "{name}, at most {max}");
    }
    fs::remove_file(&rt, "model.va")?;
    fs::remove_file(&rt, "empty.va")?;
    Ok(())
}

/// More than the two pieces of 65536 bytes in which a file of the system is read.
const LONG: usize = 150000;

fn is_front(answer: &Result<Vec<u8>, FileErr>, byte: u8, len: usize) -> bool {
    match answer {
        Ok(bytes) => bytes.len() == len && bytes.iter().all(|own| *own == byte),
        Err(_) => false,
    }
}

#[test]
fn a_long_file_of_the_system_is_read_in_pieces(rt: HostRuntime) -> Result<(), Fail> {
    let text = vec![in rt.alloc(); 7u8; LONG]?;
    fs::write(&rt, "long.va", text.as_slice())?;
    let mut files = DirFiles::new(&rt);
    for (max, want) in [(usize::MAX, LONG), (LONG, LONG), (65537, 65537)] {
        let answer = files.read(rt.alloc(), "long.va", max);
        assert!(rt; is_front(&answer, 7, want), "at most {max}");
    }
    fs::remove_file(&rt, "long.va")?;
    Ok(())
}

/// What is no file of the system, its error, and the error's words.
#[test]
fn what_is_no_file_is_refused(rt: HostRuntime) -> Result<(), Fail> {
    let mut files = DirFiles::new(&rt);
    for (name, want, words) in [
        ("none.va", FileErr::Missing, "no such file"),
        (".", FileErr::Failed, "the file can't be read"),
        ("none/none.va", FileErr::Missing, "no such file"),
    ] {
        assert_eq!(rt; files.read(rt.alloc(), name, 9).err(), Some(want), "{name}");
        assert_eq!(rt; format!(in rt.alloc(); "{want}")?.as_str(), words);
    }
    let words = format!(in rt.alloc(); "{}", FileErr::NoMemory)?;
    assert_eq!(rt; words.as_str(), "out of memory");
    Ok(())
}
