//! What is due where the tables of a C file are asked for.
ghost use Rattle.std.specs.Prelude.{◌≡◌, ◌<◌, ◌≤◌, IfOk, IsErrOf, length};
ghost use Rattle.va_base.specs.Tables.{tables_text};
ghost use Rattle.va_preproc.specs.Answers.{seen};
ghost use Rattle.c_tree.specs.TablesOf.{tables_of};
ghost use Rattle.va_command.specs.Answers.{IsDueFor};
ghost use Rattle.va_command.specs.CFiles.{IsAnswered, IsCFault, IsCFileOf, IsTables, IsDueOfBytes, c_fault_line, most_bytes};
ghost use Rattle.va_command.specs.Requests.{AsksFirst, read as read_request};
ghost use Rattle.va_command.specs.declared.read_file.CFault as spec_fault;
ghost use Rattle.va_report.specs.Reasons as report;

use crate::due::{Due, no_such_file, read_fault};
use crate::status::Status;
use alg_laws::Algebra;
use c_reader::read;
use c_syntax::{CErr, place};
use c_tree::CFile;
use std::alloc::Global;
use std::marker::PhantomData;
use va_base::{Fault, FaultCode, NoMemory, Phase, Place};
use va_io::{FileErr, Files};
use va_report::{fault_line, tables};

/// The most bytes of a C file.
const MOST_BYTES: usize = 67108864;

/// Why a text is no C file.
#[derive(Clone, Copy, Debug)]
pub(crate) struct CFault {
    pub place: Place,
    pub code: FaultCode,
}

/// Why there are no tables.
#[derive(Clone, Copy, Debug)]
pub(crate) enum Refusal {
    Fault(CFault),
    NoMemory,
}

/// The refusal for an answer of the reader.
fn refusal_of(bytes: &[u8], error: &CErr) -> Refusal
    requires { length bytes.now ≤ most_bytes }
    ensures { IsAnswered bytes.now error.now result }
{
    let place = place(bytes, error);
    match error {
        CErr::BadByte(_) => Refusal::Fault(CFault {
            place,
            code: FaultCode::BadByte,
        }),
        CErr::Syntax(_) => Refusal::Fault(CFault {
            place,
            code: FaultCode::Syntax,
        }),
        CErr::Form(_) => Refusal::Fault(CFault {
            place,
            code: FaultCode::CForm,
        }),
        CErr::NoMemory => Refusal::NoMemory,
    }
}

/// The tables of a C file as text.
fn tables_text_of(alloc: Global, file: &CFile) -> Result<Vec<u8>, Refusal>
    ensures text { IfOk result (λ text. text.items ≡ tables_text (tables_of file.now)) }
    ensures fault { (fault : spec_fault.CFault) → IsErrOf result (Refusal.Fault fault) → ⊥ }
{
    match tables(alloc, file) {
        Ok(text) => Ok(text),
        Err(_) => Err(Refusal::NoMemory),
    }
}

/// The refusal of a text that has too many bytes.
fn too_long(bytes: &[u8]) -> Result<CFile, Refusal>
    requires { most_bytes < length bytes.now }
    ensures file { IfOk result (IsCFileOf bytes.now) }
    ensures fault { (fault : spec_fault.CFault) → IsErrOf result (Refusal.Fault fault) → IsCFault bytes.now fault.place fault.code }
{
    Err(Refusal::Fault(CFault {
        place: Place {
            file: 0,
            line: 1,
            col: 1,
        },
        code: FaultCode::FileLarge,
    }))
}

/// The file that a text spells, or why it spells none.
fn file_within(alloc: Global, bytes: &[u8]) -> Result<CFile, Refusal>
    requires { length bytes.now ≤ most_bytes }
    ensures file { IfOk result (IsCFileOf bytes.now) }
    ensures fault { (fault : spec_fault.CFault) → IsErrOf result (Refusal.Fault fault) → IsCFault bytes.now fault.place fault.code }
{
    match read(alloc, bytes) {
        Ok(file) => Ok(file),
        Err(error) => Err(refusal_of(bytes, &error)),
    }
}

/// The file that a text spells, where it has not too many bytes.
fn file_of_text(alloc: Global, bytes: &[u8]) -> Result<CFile, Refusal>
    ensures file { IfOk result (IsCFileOf bytes.now) }
    ensures fault { (fault : spec_fault.CFault) → IsErrOf result (Refusal.Fault fault) → IsCFault bytes.now fault.place fault.code }
{
    if bytes.len() > MOST_BYTES {
        too_long(bytes)
    } else {
        file_within(alloc, bytes)
    }
}

/// The tables of the file that a text spells.
fn text_tables(alloc: Global, bytes: &[u8]) -> Result<Vec<u8>, Refusal>
    ensures tables { IfOk result (λ text. IsTables bytes.now text.items) }
    ensures fault { (fault : spec_fault.CFault) → IsErrOf result (Refusal.Fault fault) → IsCFault bytes.now fault.place fault.code }
{
    let file = file_of_text(alloc, bytes)?;
    let text = tables_text_of(alloc, &file)?;
    Ok(text)
}

/// The reason where a text is no C file.
fn refused(alloc: Global, name: &str, fault: CFault) -> Result<Due, NoMemory>
    ensures { IfOk result
        (λ due. (due.status ≡ Status.Refused) × (due.text.items ≡ c_fault_line name.now fault.place fault.code)) }
{
    let reported = Fault {
        phase: Phase::C,
        at: 0,
        place: fault.place,
        code: fault.code,
    };
    let text = fault_line(alloc, name.as_bytes(), &reported)?;
    Ok(Due {
        status: Status::Refused,
        text,
    })
}

/// What is due for the bytes of a file.
fn due_of_bytes(alloc: Global, file: &str, bytes: &[u8]) -> Result<Due, NoMemory>
    ensures { IfOk result (λ due. IsDueOfBytes file.now bytes.now due.status due.text.items) }
{
    match text_tables(alloc, bytes) {
        Ok(text) => Ok(Due {
            status: Status::Done,
            text,
        }),
        Err(Refusal::Fault(fault)) => {
            let due = refused(alloc, file, fault)?;
            Ok(due)
        }
        Err(Refusal::NoMemory) => Err(NoMemory),
    }
}

/// The reason where the read of the file failed.
fn failed(alloc: Global, file: &str) -> Result<Due, NoMemory>
    ensures { IfOk result
        (λ due. (due.status ≡ Status.ReadFault) × (due.text.items ≡ report.read_fault_line file.now)) }
{
    let due = read_fault(alloc, file.as_bytes())?;
    Ok(due)
}

/// What is due where the tables of a C file are asked for.
#[tactic(auto, using(crate::proofs::CFiles::asks_read))]
pub(crate) fn read_tables<A: Algebra, F: Files>(
    alloc: Global,
    _law: PhantomData<A>,
    file: &str,
    files: &mut F,
) -> Result<Due, NoMemory>
    ensures due { IfOk result (λ due. IsDueFor (F.holds files.old)
        (seen (F.asked files.old) (F.asked files.new) (F.faults files.old) (F.faults files.new))
        A.ops A.valid (read_request file.now) due.status due.text.items) }
    ensures asked { AsksFirst (F.holds files.old)
        (seen (F.asked files.old) (F.asked files.new) (F.faults files.old) (F.faults files.new))
        (read_request file.now) }
    ensures held { F.holds files.new ≡ F.holds files.old }
    ensures later { F.faults files.old ≤ F.faults files.new }
{
    match files.read(alloc, file, MOST_BYTES + 1) {
        Ok(bytes) => {
            let due = due_of_bytes(alloc, file, bytes.as_slice())?;
            Ok(due)
        }
        Err(FileErr::Missing) => {
            let due = no_such_file(alloc, file)?;
            Ok(due)
        }
        Err(FileErr::Failed) => {
            let due = failed(alloc, file)?;
            Ok(due)
        }
        Err(FileErr::NoMemory) => Err(NoMemory),
    }
}
