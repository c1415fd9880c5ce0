//! Why an expansion is broken off.
use va_base::{Fault, Name};

/// Why an expansion is broken off, other than by a fault that stands in the text.
#[derive(Debug, Drop)]
pub enum Broken {
    /// Memory was refused.
    NoMemory,
    /// The read of the file of this name failed.
    Failed(Name),
    /// The read of an include answered that there is no file of this name, which is this fault.
    Missing(Fault, Name),
}

/// What a call gives, or the fault at which the text is refused; or the expansion was broken off.
pub type FileAnswer<T> = Result<Result<T, Fault>, Broken>;
