//! Files that are read by name.
ghost use Rattle.std.specs.Prelude.{◌≡◌, ◌≤◌, ◌⊎◌, List, ℕ, Option, IfOk, IsErrOf, vec_len};
ghost use Rattle.va_io.specs.Outside.{Holdings, Lacks, Gives, AsksFor, Rose};

use std::alloc::Global;
use thiserror::Error;

/// Why a file was not read.
#[derive(Clone, Copy, Debug, PartialEq, Eq, Error)]
pub enum FileErr {
    /// There is no file of that name, or the fault was counted.
    #[error("no such file")]
    Missing,
    /// The read failed, and the fault was counted.
    #[error("the file can't be read")]
    Failed,
    /// Memory was refused. Nothing is known of the file.
    #[error("out of memory")]
    NoMemory,
}

/// Files by their names. What they hold, and what was asked of them, is known where it is told.
pub trait Files {
    /// The bytes under each name, where they are told. No call changes them.
    ghost holds: { Self → Option Holdings };

    /// The names that were read, in order, where they are told: each read notes its name, unless memory was refused.
    ghost asked: { Self → Option (List (List ℕ)) };

    /// How many faults were counted. It never falls.
    ghost faults: { Self → ℕ };

    /// The first `max` bytes of a file, or all where it has fewer. `Missing` comes only where it is told that there is
    /// no file of that name, or a fault was counted in this call; `Failed` comes only where one was counted.
    fn read(&mut self, alloc: Global, name: &str, max: usize) -> Result<Vec<u8>, FileErr>
        ensures held { holds self.new ≡ holds self.old }
        ensures most { IfOk result (λ bytes. vec_len bytes ≤ max) }
        ensures bytes { IfOk result (λ bytes. Gives (holds self.old) name.now max bytes.items) }
        ensures missing { IsErrOf result FileErr.Missing →
            Lacks (holds self.old) name.now ⊎ Rose (faults self.old) (faults self.new) }
        ensures failed { IsErrOf result FileErr.Failed → Rose (faults self.old) (faults self.new) }
        ensures later { faults self.old ≤ faults self.new }
        ensures asked { AsksFor result (asked self.old) name.now (asked self.new) };
}
