//! Files in memory.
ghost use Rattle.std.specs.Prelude.{◌≡◌, ◌≤◌, ◌++◌, ◌∷◌, [], take, vec_len, IfOk, IfSome, OnOk, OnErr, IsSome, IsNone, IsErrOf, IsTrue, MatchOption};
ghost use Rattle.va_io.specs.Held.{holdings};
ghost use Rattle.va_io.specs.Outside.{held};

use crate::files::{FileErr, Files};
use crate::numbered_calls::NumberedCalls;
use std::alloc::Global;
use va_base::{FileText, Name, NoMemory};

/// Files that are held in memory. It tells what it holds and what was asked of it. The reads whose numbers, from 1, were
/// listed fail, and no other read does.
#[derive(Drop)]
pub struct MemFiles {
    alloc: Global,
    files: Vec<FileText>,
    calls: NumberedCalls,
    faults: u64,
    asked: Vec<Name>,
}

impl MemFiles {
    ghost use Rattle.std.specs.Prelude.{◌≡◌, Some, []};
    ghost use Rattle.va_io.specs.Held.{holdings};
    ghost use Rattle.va_io.specs.MemFiles.{listed_reads, reads_made};

    /// Files of these names and bytes: of two of one name the first is held. The reads whose numbers, from 1, are in
    /// `fail` fail. The value keeps the allocator for the names that are asked for. Takes no memory.
    pub fn new(alloc: Global, files: Vec<FileText>, fail: Vec<u64>) -> MemFiles
        ensures holds { ⟦<Self as Files>⟧.holds result ≡ Some (holdings files.items) }
        ensures asked { ⟦<Self as Files>⟧.asked result ≡ Some [] }
        ensures faults { ⟦<Self as Files>⟧.faults result ≡ 0 }
        ensures listed { listed_reads result ≡ fail.items }
        ensures made { reads_made result ≡ 0 }
    {
        MemFiles {
            alloc,
            files,
            calls: NumberedCalls::new(fail),
            faults: 0,
            asked: Vec::new(alloc),
        }
    }
}

impl Files for MemFiles {
    ghost use Rattle.std.specs.Prelude.{◌≡◌, ◌≤◌, ◌⊎◌, Some, [], IfOk, IsErrOf, vec_len};
    ghost use Rattle.va_io.specs.Held.{holdings};
    ghost use Rattle.va_io.specs.MemFiles.{listed_reads, HasCause, MakesRead, NextReadFails};
    ghost use Rattle.va_io.specs.Outside.{AsksFor, CountsFailedRead, Gives, Lacks, Rose};

    ghost holds = { λ f. Some (holdings f.files.items) };

    ghost asked = { λ f. Some f.asked.items };

    ghost faults = { λ f. f.faults };

    fn read(&mut self, alloc: Global, name: &str, max: usize) -> Result<Vec<u8>, FileErr>
        ensures held { ⟦<Self as Files>⟧.holds self.new ≡ ⟦<Self as Files>⟧.holds self.old }
        ensures most { IfOk result (λ bytes. vec_len bytes ≤ max) }
        ensures bytes { IfOk result (λ bytes. Gives (⟦<Self as Files>⟧.holds self.old) name.now max bytes.items) }
        ensures missing { IsErrOf result FileErr.Missing →
            Lacks (⟦<Self as Files>⟧.holds self.old) name.now
            ⊎ Rose (⟦<Self as Files>⟧.faults self.old) (⟦<Self as Files>⟧.faults self.new) }
        ensures failed { IsErrOf result FileErr.Failed →
            Rose (⟦<Self as Files>⟧.faults self.old) (⟦<Self as Files>⟧.faults self.new) }
        ensures later { ⟦<Self as Files>⟧.faults self.old ≤ ⟦<Self as Files>⟧.faults self.new }
        ensures asked { AsksFor result
            (⟦<Self as Files>⟧.asked self.old) name.now (⟦<Self as Files>⟧.asked self.new) }

        // It fails exactly at the listed reads, and misses exactly the files that are not held.
        ensures causes { HasCause (NextReadFails self.old)
            (Lacks (⟦<Self as Files>⟧.holds self.old) name.now) result }
        ensures counted { CountsFailedRead result
            (⟦<Self as Files>⟧.faults self.old) (⟦<Self as Files>⟧.faults self.new) }
        ensures quiet { listed_reads self.old ≡ [] → ⟦<Self as Files>⟧.faults self.new ≡ ⟦<Self as Files>⟧.faults self.old }
        ensures made { MakesRead self.old self.new }
    {
        let fails = self.calls.next_fails();
        let answer = if fails {
            Err(FileErr::Failed)
        } else {
            first_bytes(alloc, find(&self.files, name.as_bytes()), max)
        };
        if matches!(answer, Err(FileErr::NoMemory)) {
            return answer;
        }
        if note(self.alloc, &mut self.asked, name).is_err() {
            return Err(FileErr::NoMemory);
        }
        if fails {
            self.faults = self.faults.saturating_add(1);
        }
        answer
    }
}

/// The bytes of the first file of a name.
fn find<'a>(files: &'a [FileText], name: &[u8]) -> Option<&'a [u8]>
    ensures { let found = held (holdings files.now) name.now in
        MatchOption result (found ≡ None) (λ bytes. found ≡ Some bytes.now) }
{
    for file in files {
        if file.name.as_bytes() == name {
            return Some(file.bytes.as_list());
        }
    }
    None
}

/// The first bytes of a file, `max` at most.
fn first_bytes(alloc: Global, file: Option<&[u8]>, max: usize) -> Result<Vec<u8>, FileErr>
    ensures most { IfOk result (λ copy. vec_len copy ≤ max) }
    ensures bytes { IfOk result (λ copy. IfSome file.entry (λ bytes. copy.items ≡ take max bytes.now)) }
    ensures some { OnOk result (IsSome file.entry) }
    ensures missing { IsErrOf result FileErr.Missing → IsNone file.entry }
    ensures failed { IsErrOf result FileErr.Failed → ⊥ }
{
    let Some(bytes) = file else {
        return Err(FileErr::Missing);
    };
    match bytes[..max.min(bytes.len())].to_vec(alloc) {
        Ok(copy) => Ok(copy),
        Err(_) => Err(FileErr::NoMemory),
    }
}

/// Notes that a name was asked for.
fn note(alloc: Global, asked: &mut Vec<Name>, name: &str) -> Result<(), NoMemory>
    ensures noted { OnOk result (asked.new.items ≡ asked.old.items ++ name.now ∷ []) }
    ensures same { OnErr result (asked.new.items ≡ asked.old.items) }
{
    let own = name.as_bytes().to_vec(alloc)?;
    asked.push(Name::new(own))?;
    Ok(())
}
