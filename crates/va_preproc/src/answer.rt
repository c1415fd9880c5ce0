//! What the calls of an expansion answer.
use va_base::{Fault, NoMemory};

/// What a call gives, or the fault at which the text is refused; or memory was refused.
pub type Answer<T> = Result<Result<T, Fault>, NoMemory>;

/// What a call gives. Its fault is answered.
macro_rules! given {
    ($call:expr) => {
        match $call {
            Ok(value) => value,
            Err(fault) => return Ok(Err(fault)),
        }
    };
}

pub(crate) use given;
