//! What is due for the words of a command line: the output, or the reason why there is none.
ghost use Rattle.std.specs.Prelude.{◌≡◌, ◌≤◌, map, string_bytes, IfOk};
ghost use Rattle.va_base.specs.Expansion.{IsExpanded};
ghost use Rattle.va_preproc.specs.Answers.{seen};
ghost use Rattle.va_command.specs.Requests.{compile as compile_request, Asks, AsksFirst};
ghost use Rattle.va_command.specs.Answers.{IsDue, IsDueFor, IsDueOfSource};
ghost use Rattle.va_report.specs.Reasons as report;

use crate::compile::c_text;
use crate::file_name::file_name;
use crate::front::FrontErr;
use crate::read_file::read_tables;
use crate::request::{Command, command_of};
use crate::status::Status;
use alg_laws::Algebra;
use std::alloc::Global;
use std::marker::PhantomData;
use va_base::{Expanded, Fault, Name, NoMemory};
use va_io::Files;
use va_preproc::{PreErr, expand};
use va_report::{fault_line, no_such_file_line, read_fault_line, usage_line};

/// A text, and the status with which a command ends once it is written.
#[derive(Drop)]
pub struct Due {
    pub status: Status,
    pub text: Vec<u8>,
}

/// What is due for these words.
pub fn due_for<A: Algebra, F: Files>(
    alloc: Global,
    law: PhantomData<A>,
    words: &[String],
    files: &mut F,
) -> Result<Due, NoMemory>
    ensures due { IfOk result (λ due. IsDue (F.holds files.old)
        (seen (F.asked files.old) (F.asked files.new) (F.faults files.old) (F.faults files.new))
        A.ops A.valid (map string_bytes words.now) due.status due.text.items) }
    ensures asked { Asks (F.holds files.old)
        (seen (F.asked files.old) (F.asked files.new) (F.faults files.old) (F.faults files.new))
        (map string_bytes words.now) }
    ensures held { F.holds files.new ≡ F.holds files.old }
    ensures later { F.faults files.old ≤ F.faults files.new }
{
    match command_of(words) {
        Some(Command::Compile(file)) => compile(alloc, law, file, files),
        Some(Command::Read(file)) => read_tables(alloc, law, file, files),
        None => usage(alloc),
    }
}

fn usage(alloc: Global) -> Result<Due, NoMemory>
    ensures { IfOk result (λ due. (due.status ≡ Status.Usage) × (due.text.items ≡ report.usage_line)) }
{
    let text = usage_line(alloc)?;
    Ok(Due {
        status: Status::Usage,
        text,
    })
}

/// The reason where there is no file of the name that the words give.
pub(crate) fn no_such_file(alloc: Global, file: &str) -> Result<Due, NoMemory>
    ensures { IfOk result
        (λ due. (due.status ≡ Status.NoFile) × (due.text.items ≡ report.no_such_file_line file.now)) }
{
    let text = no_such_file_line(alloc, file.as_bytes())?;
    Ok(Due {
        status: Status::NoFile,
        text,
    })
}

/// The reason where the read of a file failed.
pub(crate) fn read_fault(alloc: Global, name: &[u8]) -> Result<Due, NoMemory>
    ensures { IfOk result
        (λ due. (due.status ≡ Status.ReadFault) × (due.text.items ≡ report.read_fault_line name.now)) }
{
    let text = read_fault_line(alloc, name)?;
    Ok(Due {
        status: Status::ReadFault,
        text,
    })
}

/// The reason that a fault is, which stands in a file of this name.
fn refusal(alloc: Global, name: &[u8], fault: &Fault) -> Result<Due, NoMemory>
    ensures { IfOk result
        (λ due. (due.status ≡ Status.Refused) × (due.text.items ≡ report.fault_line name.now fault.now)) }
{
    let text = fault_line(alloc, name, fault)?;
    Ok(Due {
        status: Status::Refused,
        text,
    })
}

/// The same, by the name of the file.
fn refused(alloc: Global, name: &Name, fault: &Fault) -> Result<Due, NoMemory>
    ensures { IfOk result
        (λ due. (due.status ≡ Status.Refused) × (due.text.items ≡ report.fault_line name.now fault.now)) }
{
    let due = refusal(alloc, name.as_bytes(), fault)?;
    Ok(due)
}

/// The same for a read that failed, by the name of the file.
fn failed(alloc: Global, name: &Name) -> Result<Due, NoMemory>
    ensures { IfOk result
        (λ due. (due.status ≡ Status.ReadFault) × (due.text.items ≡ report.read_fault_line name.now)) }
{
    let due = read_fault(alloc, name.as_bytes())?;
    Ok(due)
}

/// What is due where a file is to be compiled.
#[tactic(auto, using(crate::proofs::AskedNames::asks_first))]
fn compile<A: Algebra, F: Files>(
    alloc: Global,
    law: PhantomData<A>,
    file: &str,
    files: &mut F,
) -> Result<Due, NoMemory>
    ensures due { IfOk result (λ due. IsDueFor (F.holds files.old)
        (seen (F.asked files.old) (F.asked files.new) (F.faults files.old) (F.faults files.new))
        A.ops A.valid (compile_request file.now) due.status due.text.items) }
    ensures asked { AsksFirst (F.holds files.old)
        (seen (F.asked files.old) (F.asked files.new) (F.faults files.old) (F.faults files.new))
        (compile_request file.now) }
    ensures held { F.holds files.new ≡ F.holds files.old }
    ensures later { F.faults files.old ≤ F.faults files.new }
{
    match expand(alloc, files, file) {
        Ok(source) => {
            let due = translated(alloc, law, &source)?;
            Ok(due)
        }
        Err(PreErr::Fault { fault, name }) => {
            let due = refused(alloc, &name, &fault)?;
            Ok(due)
        }
        Err(PreErr::Missing) => {
            let due = no_such_file(alloc, file)?;
            Ok(due)
        }
        Err(PreErr::Failed { name }) => {
            let due = failed(alloc, &name)?;
            Ok(due)
        }
        Err(PreErr::NoMemory) => Err(NoMemory),
    }
}

/// What is due where a text is to be compiled.
fn translated<A: Algebra>(
    alloc: Global,
    law: PhantomData<A>,
    source: &Expanded,
) -> Result<Due, NoMemory>
    requires expanded { IsExpanded source.now }
    ensures { IfOk result (λ due. IsDueOfSource A.ops A.valid source.now due.status due.text.items) }
{
    match c_text(alloc, law, source) {
        Ok(text) => Ok(Due {
            status: Status::Done,
            text,
        }),
        Err(FrontErr::Fault(fault)) => {
            let name = file_name(source.files.as_list(), fault.place.file);
            let due = refusal(alloc, name, &fault)?;
            Ok(due)
        }
        Err(FrontErr::NoMemory) => Err(NoMemory),
    }
}
