//! The system's files.
ghost use Rattle.std.specs.Prelude.{◌≡◌, ◌↔◌, ◌≤◌, ◌<◌, ◌+◌, length, take, IfOk, IfSome, OnOk, vec_len};
ghost use Rattle.std.specs.Io.KnownBytes.{IsAtEnd};
ghost use Rattle.va_io.specs.DirFiles.{Moves};

use crate::files::{FileErr, Files};
use std::alloc::Global;
use std::fs;
use std::io::{ErrorKind, Read};

/// So many bytes are read at once.
const PIECE: usize = 65536;

/// The files of the system, by their paths. It tells neither what they hold nor what was asked of it.
///
/// A file that is not found is `Missing`, want of memory is `NoMemory`, and every other error of the system is `Failed`:
/// an interrupted read, which is not tried again, and a directory in a file's place are among them. `Missing` and
/// `Failed` are counted, and `NoMemory` is not. A read of 0 bytes only opens the file.
#[derive(Drop)]
pub struct DirFiles<'a, R> {
    rt: &'a R,
    faults: u64,
}

impl<'a, R: std::rt::Files> DirFiles<'a, R> {
    /// The files that the runtime reaches. Takes no memory.
    pub fn new(rt: &'a R) -> DirFiles<'a, R>
        ensures { ⟦<DirFiles<'a, R> as Files>⟧.faults result ≡ 0 }
    {
        DirFiles { rt, faults: 0 }
    }
}

impl<R: std::rt::Files> Files for DirFiles<'_, R> {
    ghost use Rattle.std.specs.Prelude.{◌≡◌, ◌≤◌, ◌⊎◌, None, IfOk, IsErrOf, vec_len};
    ghost use Rattle.va_io.specs.Outside.{AsksFor, CountsRefusedRead, Gives, Lacks, Rose};

    ghost holds = { λ _. None };

    ghost asked = { λ _. None };

    ghost faults = { λ f. f.faults };

    fn read(&mut self, alloc: Global, name: &str, max: usize) -> Result<Vec<u8>, FileErr>
        ensures held { ⟦<Self as Files>⟧.holds self.new ≡ ⟦<Self as Files>⟧.holds self.old }
        ensures most { IfOk result (λ bytes. vec_len bytes ≤ max) }
        ensures bytes { IfOk result (λ bytes. Gives (⟦<Self as Files>⟧.holds self.old) name.now max bytes.items) }
        ensures missing { IsErrOf result FileErr.Missing →
            Lacks (⟦<Self as Files>⟧.holds self.old) name.now
            ⊎ Rose (⟦<Self as Files>⟧.faults self.old) (⟦<Self as Files>⟧.faults self.new) }
        ensures failed { IsErrOf result FileErr.Failed →
            Rose (⟦<Self as Files>⟧.faults self.old) (⟦<Self as Files>⟧.faults self.new) }
        ensures later { ⟦<Self as Files>⟧.faults self.old ≤ ⟦<Self as Files>⟧.faults self.new }
        ensures asked { AsksFor result
            (⟦<Self as Files>⟧.asked self.old) name.now (⟦<Self as Files>⟧.asked self.new) }

        // What is refused, but for want of memory, is counted.
        ensures counted { CountsRefusedRead result
            (⟦<Self as Files>⟧.faults self.old) (⟦<Self as Files>⟧.faults self.new) }
    {
        let answer = read_front(self.rt, alloc, name, max);
        if matches!(answer, Err(FileErr::Missing | FileErr::Failed)) {
            self.faults = self.faults.saturating_add(1);
        }
        answer
    }
}

/// The first bytes of the file at a path, `max` at most.
fn read_front<R: std::rt::Files>(
    rt: &R,
    alloc: Global,
    path: &str,
    max: usize,
) -> Result<Vec<u8>, FileErr>
    ensures { IfOk result (λ bytes. vec_len bytes ≤ max) }
{
    let mut file = match fs::open(rt, path) {
        Ok(file) => file,
        Err(error) => return Err(cause_of(error.kind())),
    };
    let Ok(mut piece) = vec![in alloc; 0u8; PIECE] else {
        return Err(FileErr::NoMemory);
    };
    read_pieces(&mut file, &mut piece, alloc, max)
}

/// The next bytes of a file, `max` at most. Each turn takes at least one byte, and as many as the piece holds.
fn read_pieces<F: Read>(
    file: &mut F,
    piece: &mut [u8],
    alloc: Global,
    max: usize,
) -> Result<Vec<u8>, FileErr>
    requires { 0 < length piece.old }
    ensures most { IfOk result (λ bytes. vec_len bytes ≤ max) }
    ensures front { IfOk result (λ bytes. IfSome (F.remaining file.old) (λ left. bytes.items ≡ take max left)) }
{
    let mut bytes = Vec::new(alloc);
    'pieces: while bytes.len() < max {
        let want = (max - bytes.len()).min(piece.len());
        if append_piece(file, &mut piece[..want], &mut bytes)? == 0 {
            break;
        }
    }
    Ok(bytes)
}

/// Appends what one read into the piece gives, and says how many bytes that were.
fn append_piece<F: Read>(
    file: &mut F,
    piece: &mut [u8],
    bytes: &mut Vec<u8>,
) -> Result<usize, FileErr>
    ensures most { IfOk result (λ count. count ≤ length piece.old) }
    ensures len { IfOk result (λ count. vec_len bytes.new ≡ vec_len bytes.old + count) }
    ensures moved { OnOk result
        (Moves (F.remaining file.old) (F.remaining file.new) bytes.old.items bytes.new.items) }
    ensures end { IfOk result (λ count. count ≡ 0 → 0 < length piece.old → IsAtEnd (F.remaining file.new)) }
{
    let count = match file.read(piece) {
        Ok(count) => count,
        Err(error) => return Err(cause_of(error.kind())),
    };
    match bytes.extend_from_slice(&piece[..count]) {
        Ok(()) => Ok(count),
        Err(_) => Err(FileErr::NoMemory),
    }
}

/// What an error of the system is answered as.
fn cause_of(kind: ErrorKind) -> FileErr
    ensures missing { (result ≡ FileErr.Missing) ↔ (kind ≡ ErrorKind.NotFound) }
    ensures memory { (result ≡ FileErr.NoMemory) ↔ (kind ≡ ErrorKind.OutOfMemory) }
{
    match kind {
        ErrorKind::NotFound => FileErr::Missing,
        ErrorKind::OutOfMemory => FileErr::NoMemory,
        _ => FileErr::Failed,
    }
}
