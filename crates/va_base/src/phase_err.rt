//! Why a phase gives nothing.
ghost use Rattle.std.specs.Prelude.{◌≡◌};

use crate::fault::Fault;
use crate::memory::NoMemory;
use std::alloc::{AllocError, AllocFailed};

/// Why a phase gives nothing: a fault stands in the text, or memory was refused.
#[derive(Clone, Copy, Debug, PartialEq, Eq)]
pub enum PhaseErr {
    Fault(Fault),
    /// Memory was refused.
    NoMemory,
}

impl From<AllocError> for PhaseErr {
    ghost use Rattle.va_base.specs.declared.phase_err.PhaseErr.TheVariants.{NoMemory};

    ghost from_gives = { λ _ e. e ≡ NoMemory };

    fn from(_: AllocError) -> Self {
        PhaseErr::NoMemory
    }
}

impl<T: Drop> From<AllocFailed<T>> for PhaseErr {
    ghost use Rattle.va_base.specs.declared.phase_err.PhaseErr.TheVariants.{NoMemory};

    ghost from_gives = { λ _ e. e ≡ NoMemory };

    fn from(_: AllocFailed<T>) -> Self {
        PhaseErr::NoMemory
    }
}

impl From<NoMemory> for PhaseErr {
    ghost use Rattle.va_base.specs.declared.phase_err.PhaseErr.TheVariants.{NoMemory};

    ghost from_gives = { λ _ e. e ≡ NoMemory };

    fn from(_: NoMemory) -> Self {
        PhaseErr::NoMemory
    }
}
