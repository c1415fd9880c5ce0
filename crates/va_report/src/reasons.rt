//! The lines that tell why a command has no output.
ghost use Rattle.std.specs.Prelude.{◌≡◌, ◌++◌, codes, IfOk};
ghost use Rattle.va_report.specs.Reasons as spec;

use std::alloc::Global;
use va_base::{Fault, NoMemory};

const USAGE: &str =
    "usage: vaosdi compile|check|tables|read FILE, or eval FILE POINT, or make|work N\n";

/// The usage line.
pub fn usage_line(alloc: Global) -> Result<Vec<u8>, NoMemory>
    ensures { IfOk result (λ line. line.items ≡ spec.usage_line) }
{
    let line = Vec::from_slice(alloc, USAGE.as_bytes())?;
    Ok(line)
}

/// The line for a fault that stands in a file of this name: `NAME:LINE:COL: CODE` and a line end.
pub fn fault_line(alloc: Global, name: &[u8], fault: &Fault) -> Result<Vec<u8>, NoMemory>
    ensures { IfOk result (λ line. line.items ≡ spec.fault_line name.now fault.now) }
{
    let code = fault.code.spelling();
    let rest = format!(in alloc; ":{}:{}: {}\n", fault.place.line, fault.place.col, code)?;
    let mut line = Vec::from_slice(alloc, name)?;
    line.extend_from_slice(rest.as_bytes())?;
    Ok(line)
}

/// A name and what is said of it.
fn said_of(alloc: Global, name: &[u8], reason: &str) -> Result<Vec<u8>, NoMemory>
    ensures { IfOk result (λ line. line.items ≡ name.now ++ reason.now) }
{
    let mut line = Vec::from_slice(alloc, name)?;
    line.extend_from_slice(reason.as_bytes())?;
    Ok(line)
}

/// The line for a file that is not there: `NAME: no such file` and a line end.
pub fn no_such_file_line(alloc: Global, name: &[u8]) -> Result<Vec<u8>, NoMemory>
    ensures { IfOk result (λ line. line.items ≡ spec.no_such_file_line name.now) }
{
    said_of(alloc, name, ": no such file\n")
}

/// The line for a file whose read failed: `NAME: read fault` and a line end.
pub fn read_fault_line(alloc: Global, name: &[u8]) -> Result<Vec<u8>, NoMemory>
    ensures { IfOk result (λ line. line.items ≡ spec.read_fault_line name.now) }
{
    said_of(alloc, name, ": read fault\n")
}
