//! The expansion of a file: its macros, its conditional text, and the files that it includes.
ghost use Rattle.std.specs.Prelude.{◌≡◌, ◌≤◌, ◌<◌, ◌^◌, ◌-◌, ◌+◌, ◌++◌, ◌∷◌, [], length, IfOk, None, Some, slice_get};
ghost use Rattle.va_base.specs.Expansion.{IsExpanded};
ghost use Rattle.va_io.specs.Outside.{Holdings, Rose};
ghost use Rattle.va_preproc.specs.Expansion as file_steps;
ghost use Rattle.va_preproc.specs.Expansion.{expansion, start_macros};
ghost use Rattle.va_preproc.specs.Values.{macros_of, names_of};
ghost use Rattle.va_preproc.specs.Steps.{limits_of, AreSmall, IsRefused, IsBrokenOff};
ghost use Rattle.va_preproc.specs.Answers.{IsAnswer, IsAnswerWithin, IsSettled, seen};

use crate::broken::Broken;
use crate::files::{Open, add_file, expand_last, name_for};
use crate::known::Known;
use crate::limits::Limits;
use crate::progress::Progress;
use crate::table::define;
use indexmap::IndexMap;
use std::alloc::Global;
use va_base::{Expanded, Fault, Items, Name, NoMemory, Place, Token, TokenKind};
use va_io::{FileErr, Files};

/// The limits of every expansion.
const LIMITS: Limits = Limits {
    read: 4000000,
    result: 2000000,
    uses: 64,
    includes: 32,
    bytes: 16777216,
};

/// Why a file was not expanded.
#[derive(Debug, Drop)]
pub enum PreErr {
    /// The text is refused. `name` is that of the file in which the fault stands.
    Fault { fault: Fault, name: Name },
    /// There is no main file.
    Missing,
    /// The file of this name could not be read.
    Failed { name: Name },
    /// Memory was refused.
    NoMemory,
}

/// Expands the main file (Compiler directives): the tokens that its macros, its conditional text and its includes leave, with
/// the files that were read; or the first fault in reading order.
///
/// The files are asked for the main file and then for each include when it is reached, up to the end or the fault, and for
/// nothing else.
pub fn expand<F: Files>(alloc: Global, files: &mut F, main: &str) -> Result<Expanded, PreErr>
    // The answer has its cause in what the files hold, where that is told, or in a fault that they count in the call.
    ensures answer { IsAnswer (F.holds files.old) main.now
        (seen (F.asked files.old) (F.asked files.new) (F.faults files.old) (F.faults files.new)) result }

    // Where no fault is counted, what the files hold decides the answer, but for want of memory.
    ensures settled { (holds : Holdings) → F.holds files.old ≡ Some holds
        → (Rose (F.faults files.old) (F.faults files.new) → ⊥) → IsSettled (expansion holds main.now) result }

    // The tokens and the files make a text after expansion, whatever is told.
    ensures expanded { IfOk result IsExpanded }
    ensures held { F.holds files.new ≡ F.holds files.old }
    ensures later { F.faults files.old ≤ F.faults files.new }
{
    match expand_within(alloc, files, main, &LIMITS) {
        Ok(expanded) => Ok(expanded),
        Err(error) => Err(error),
    }
}

/// The same within limits.
fn expand_within<F: Files>(
    alloc: Global,
    files: &mut F,
    main: &str,
    limits: &Limits,
) -> Result<Expanded, PreErr>
    requires result { limits.now.result ≤ 2000000 }
    requires bytes { limits.now.bytes ≤ 16777216 }
    ensures answer { IsAnswerWithin (limits_of limits.now) (F.holds files.old) main.now
        (seen (F.asked files.old) (F.asked files.new) (F.faults files.old) (F.faults files.new)) result }
    ensures expanded { IfOk result IsExpanded }
    ensures held { F.holds files.new ≡ F.holds files.old }
    ensures later { F.faults files.old ≤ F.faults files.new }
{
    let Ok(mut known) = start_known(alloc) else {
        return Err(PreErr::NoMemory);
    };
    let mut progress = start_progress(alloc, limits);
    let Ok(own) = name_for(&mut known, main) else {
        return Err(PreErr::NoMemory);
    };
    match files.read(alloc, main, limits.bytes as usize + 1) {
        Ok(bytes) => {
            add_file(&mut known, own, bytes);
            let open = Open {
                name: main,
                depth: limits.includes,
                limits: *limits,
            };
            match expand_last(files, &mut known, &mut progress, &open) {
                Ok(Ok(())) => match finished(known, progress) {
                    Ok(expanded) => Ok(expanded),
                    Err(NoMemory) => Err(PreErr::NoMemory),
                },
                Ok(Err(fault)) => Err(refused(&known, fault)),
                Err(broken) => Err(broken_off(&known, broken)),
            }
        }
        Err(FileErr::Missing) => Err(PreErr::Missing),
        Err(FileErr::Failed) => Err(PreErr::Failed { name: own }),
        Err(FileErr::NoMemory) => Err(PreErr::NoMemory),
    }
}

/// What is known at the start: two macros, with empty bodies.
fn start_known(alloc: Global) -> Result<Known, NoMemory>
    ensures macros { IfOk result (λ k. macros_of k ≡ start_macros) }
    ensures files { IfOk result (λ k. k.files.items ≡ []) }
{
    let mut macros = IndexMap::new(alloc);
    define(alloc, &mut macros, b"__VAMS_COMPACT_MODELING__", None, &[])?;
    define(alloc, &mut macros, b"__VAMS_ENABLE__", None, &[])?;
    Ok(Known {
        alloc,
        macros,
        files: Vec::new(alloc),
    })
}

/// How far an expansion is at its start.
fn start_progress(alloc: Global, limits: &Limits) -> Progress
    requires { limits.now.result ≤ 2000000 }
    ensures unread { result.unread ≡ limits.now.read }
    ensures tokens { result.result.items ≡ [] }
    ensures free { result.free ≡ limits.now.result }
    ensures argument { result.argument ≡ None }
{
    Progress {
        unread: limits.read,
        result: Vec::new(alloc),
        free: limits.result,
        argument: None,
    }
}

/// The place after a text's last byte.
fn last_place(bytes: &[u8]) -> Place
    requires { length bytes.now < 2 ^ 32 - 1 }
    ensures { result ≡ file_steps.last_place 0 bytes.now }
{
    let mut line = 1;
    let mut col = 1;
    for byte in bytes {
        if *byte == b'\n' {
            line += 1;
            col = 1;
        } else {
            col += 1;
        }
    }
    Place { file: 0, line, col }
}

/// The end of a main file.
fn end_token(bytes: &[u8]) -> Token
    requires { length bytes.now < 2 ^ 32 - 1 }
    ensures { result ≡ file_steps.end_token bytes.now }
{
    Token {
        kind: TokenKind::End,
        file: 0,
        first: bytes.len() as u32,
        len: 0,
        place: last_place(bytes),
    }
}

/// What an expansion gave, with its end, and the files that it read.
fn finished(known: Known, progress: Progress) -> Result<Expanded, NoMemory>
    requires some { 0 < length known.files.items }
    requires small { AreSmall (2 ^ 32 - 2) 0 known.files.items }
    ensures tokens { IfOk result (λ e. (first : _) × (slice_get known.files.items 0 ≡ Some first)
        × (e.tokens ≡ progress.result.items ++ file_steps.end_token first.bytes ∷ [])) }
    ensures files { IfOk result (λ e. e.files ≡ known.files.items) }
{
    let end = end_token(known.files[0].bytes.as_list());
    let Progress { mut result, .. } = progress;
    result.push(end)?;
    let Known { files, .. } = known;
    Ok(Expanded {
        tokens: Items::new(result),
        files: Items::new(files),
    })
}

/// A copy of a name.
fn copied(alloc: Global, name: &Name) -> Result<Name, NoMemory>
    ensures { IfOk result (λ copy. copy ≡ name.now) }
{
    let bytes = name.as_bytes().to_vec(alloc)?;
    Ok(Name::new(bytes))
}

/// The answer to a fault.
fn refused(known: &Known, fault: Fault) -> PreErr
    ensures { IsRefused (names_of known.now) fault result }
{
    let Some(file) = known.files.get(fault.place.file as usize) else {
        return PreErr::NoMemory;
    };
    match copied(known.alloc, &file.name) {
        Ok(name) => PreErr::Fault { fault, name },
        Err(NoMemory) => PreErr::NoMemory,
    }
}

/// The answer where an expansion is broken off.
fn broken_off(known: &Known, broken: Broken) -> PreErr
    ensures { IsBrokenOff (names_of known.now) broken result }
{
    match broken {
        Broken::NoMemory => PreErr::NoMemory,
        Broken::Failed(name) => PreErr::Failed { name },
        Broken::Missing(fault, missing) => missed(known, fault, missing),
    }
}

/// The answer to an include of a file that is missing. A fault that stands in no file that was read would stand in that one.
fn missed(known: &Known, fault: Fault, missing: Name) -> PreErr
    ensures { IsBrokenOff (names_of known.now) (Broken.Missing fault missing) result }
{
    let Some(file) = known.files.get(fault.place.file as usize) else {
        return PreErr::Fault {
            fault,
            name: missing,
        };
    };
    match copied(known.alloc, &file.name) {
        Ok(name) => PreErr::Fault { fault, name },
        Err(NoMemory) => PreErr::NoMemory,
    }
}
