//! Sinks that are written.
ghost use Rattle.std.specs.Prelude.{◌≡◌, ◌≤◌, ◌<◌, ◌+◌, List, ℕ, Option, length, take, IfOk, OnOk, OnErr, IsErrOf};
ghost use Rattle.va_io.specs.Outside.{Appends, AppendsSome, Rose};

use thiserror::Error;

/// Why a piece was not written.
#[derive(Clone, Copy, Debug, PartialEq, Eq, Error)]
pub enum SinkErr {
    /// The write failed, and the fault was counted.
    #[error("the sink can't be written")]
    Failed,
    /// Memory was refused, and the piece was longer than the room.
    #[error("out of memory")]
    NoMemory,
}

/// Where bytes are written.
pub trait Sink {
    /// All the bytes that were written, where they are told.
    ghost written: { Self → Option (List ℕ) };

    /// How many faults were counted. It never falls.
    ghost faults: { Self → ℕ };

    /// So many bytes are taken without memory.
    ghost room: { Self → ℕ };

    /// Writes the first bytes of a piece, at least one of a piece that is not empty, and says how many. They use up at
    /// most as much room. A refusal writes nothing and leaves the room: `Failed` comes only where a fault was counted in
    /// this call, and `NoMemory` only where the piece is longer than the room.
    fn write(&mut self, piece: &[u8]) -> Result<usize, SinkErr>
        ensures most { IfOk result (λ count. count ≤ length piece.now) }
        ensures some { IfOk result (λ count. 0 < length piece.now → 0 < count) }
        ensures taken { IfOk result (λ count. Appends (written self.old) (written self.new) (take count piece.now)) }
        ensures refused { OnErr result (written self.new ≡ written self.old) }
        ensures failed { IsErrOf result SinkErr.Failed → Rose (faults self.old) (faults self.new) }
        ensures memory { IsErrOf result SinkErr.NoMemory → room self.old < length piece.now }
        ensures later { faults self.old ≤ faults self.new }
        ensures room { IfOk result (λ count. room self.old ≤ room self.new + count) }
        ensures same_room { OnErr result (room self.new ≡ room self.old) };
}

/// Writes a whole text, piece by piece. After a refusal a first part of the text is written. `Failed` comes only where a
/// fault was counted in this call, and `NoMemory` only where the text is longer than the room was at the call. Whatever
/// the answer, the text uses up at most its length of the room.
#[tactic(auto, using(crate::proofs::Appending::appends_more))]
pub fn write_all<S: Sink>(sink: &mut S, text: &[u8]) -> Result<(), SinkErr>
    ensures whole { OnOk result (Appends (S.written sink.old) (S.written sink.new) text.now) }
    ensures some { OnErr result (0 < length text.now) }
    ensures part { AppendsSome (S.written sink.old) (S.written sink.new) text.now }
    ensures failed { IsErrOf result SinkErr.Failed → Rose (S.faults sink.old) (S.faults sink.new) }
    ensures memory { IsErrOf result SinkErr.NoMemory → S.room sink.old < length text.now }
    ensures later { S.faults sink.old ≤ S.faults sink.new }
    ensures room { S.room sink.old ≤ S.room sink.new + length text.now }
{
    let mut done = 0;
    'pieces: while done < text.len() {
        done += sink.write(&text[done..])?;
    }
    Ok(())
}
