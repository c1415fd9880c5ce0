//! The top call: does what the words of a command line ask for.
ghost use Rattle.std.specs.Prelude.{◌≡◌, ◌⊎◌, map, string_bytes};
ghost use Rattle.va_io.specs.Outside.{Rose};
ghost use Rattle.va_preproc.specs.Answers.{seen as seen_files};
ghost use Rattle.va_command.specs.Requests.{Asks};
ghost use Rattle.va_command.specs.Answers.{IsDue, IsComplaint, IsExpected, Ends, EndsOutput, EndsReason, seen};

use crate::due::due_for;
use crate::status::Status;
use alg_laws::Algebra;
use std::alloc::Global;
use std::marker::PhantomData;
use va_io::{Files, Sink, SinkErr, write_all};

/// Does what the words ask for. The whole text that is due is built before its first byte is written.
pub fn run<A: Algebra, F: Files, O: Sink, E: Sink>(
    alloc: Global,
    law: PhantomData<A>,
    words: &[String],
    files: &mut F,
    out: &mut O,
    err: &mut E,
) -> Status
    // What is due is written, from its cause, or the first part of it where a sink fails or runs short.
    ensures ends { Ends
        (IsDue (F.holds files.old)
        (seen_files (F.asked files.old) (F.asked files.new) (F.faults files.old) (F.faults files.new))
        A.ops A.valid (map string_bytes words.now))
        (seen (O.written out.old) (O.written out.new) (O.faults out.old) (O.faults out.new) (O.room out.old))
        (seen (E.written err.old) (E.written err.new) (E.faults err.old) (E.faults err.new) (E.room err.old))
        result }

    // Where content is told and no count rose in the call, the words and the files decide the status, but for memory.
    ensures expected { (expected : Status) → IsExpected (F.holds files.old) (map string_bytes words.now) expected
        → (Rose (F.faults files.old) (F.faults files.new) → ⊥)
        → (Rose (O.faults out.old) (O.faults out.new) → ⊥)
        → (Rose (E.faults err.old) (E.faults err.new) → ⊥)
        → (result ≡ expected) ⊎ (result ≡ Status.NoMemory) }

    // However the call ends, the files are asked for what the words ask for and for nothing else, from its beginning on. What is
    // due with each status says how far.
    ensures asked { Asks (F.holds files.old)
        (seen_files (F.asked files.old) (F.asked files.new) (F.faults files.old) (F.faults files.new))
        (map string_bytes words.now) }
    ensures held { F.holds files.new ≡ F.holds files.old }
{
    let Ok(due) = due_for(alloc, law, words, files) else {
        return Status::NoMemory;
    };
    if due.status == Status::Done {
        deliver(out, due.text.as_slice())
    } else {
        complain(err, due.text.as_slice(), due.status)
    }
}

/// Writes the output.
fn deliver<O: Sink>(out: &mut O, text: &[u8]) -> Status
    ensures { EndsOutput text.now
        (seen (O.written out.old) (O.written out.new) (O.faults out.old) (O.faults out.new) (O.room out.old)) result }
{
    match write_all(out, text) {
        Ok(()) => Status::Done,
        Err(SinkErr::Failed) => Status::WriteFault,
        Err(SinkErr::NoMemory) => Status::NoMemory,
    }
}

/// Writes the reason why a command ends with a status.
fn complain<E: Sink>(err: &mut E, text: &[u8], status: Status) -> Status
    requires { IsComplaint status }
    ensures { EndsReason text.now status
        (seen (E.written err.old) (E.written err.new) (E.faults err.old) (E.faults err.new) (E.room err.old)) result }
{
    match write_all(err, text) {
        Ok(()) => status,
        Err(SinkErr::Failed) => Status::WriteFault,
        Err(SinkErr::NoMemory) => Status::NoMemory,
    }
}
