//! Compiles Verilog-A compact models to C for the Open Source Device Interface.
#![tactic(auto)]

use alg_laws::Whole;
use std::alloc::AllocError;
use std::env;
use std::io::ErrorKind;
use std::marker::PhantomData;
use std::process::ExitCode;
use va_command::run;
use va_io::{DirFiles, StdSink};

/// The statuses where the words themselves can't be had: for want of memory, and for any other cause. The second is no
/// status of `run`.
const NO_MEMORY: u8 = 7;

const NO_WORDS: u8 = 8;

fn main(rt: HostRuntime) -> ExitCode {
    let words = match env::args(&rt) {
        Ok(all) => {
            let words: Result<Vec<String>, AllocError> = all.skip(1).collect(rt.alloc());
            words
        }
        Err(error) if error.kind() == ErrorKind::OutOfMemory => return ExitCode::from(NO_MEMORY),
        Err(_) => return ExitCode::from(NO_WORDS),
    };
    let Ok(words) = words else {
        return ExitCode::from(NO_MEMORY);
    };
    let mut files = DirFiles::new(&rt);
    let mut out = StdSink::new(rt.stdout());
    let mut err = StdSink::new(rt.stderr());
    // Any algebra serves: nothing that the program does depends on it.
    let law: PhantomData<Whole> = PhantomData;
    let status = run(
        rt.alloc(),
        law,
        words.as_slice(),
        &mut files,
        &mut out,
        &mut err,
    );
    ExitCode::from(status.number())
}
