//! The program's outputs.
use crate::sink::{Sink, SinkErr};
use std::io::Write;

/// A sink over a writer. It tells no content. Each write is flushed, and every error of the writer is `Failed`: a refused
/// write, a refused flush, and a write of a piece that is not empty which took nothing.
#[derive(Drop)]
pub struct StdSink<W> {
    writer: W,
    faults: u64,
}

impl<W: Write + Drop> StdSink<W> {
    ghost use Rattle.std.specs.Prelude.{◌≡◌};
    ghost use Rattle.va_io.specs.StdSink.{writer_of};

    /// A sink over this writer. Takes no memory.
    pub fn new(writer: W) -> StdSink<W>
        ensures writer { writer_of result ≡ writer }
        ensures faults { ⟦<Self as Sink>⟧.faults result ≡ 0 }
    {
        StdSink { writer, faults: 0 }
    }
}

impl<W: Write + Drop> Sink for StdSink<W> {
    ghost use Rattle.std.specs.Prelude.{◌<◌, ◌+◌, ◌-◌, ◌^◌, ◌≤◌, ◌≡◌, length, take, IfOk, IsErrOf, None, OnErr};
    ghost use Rattle.std.specs.Io.KnownBytes.{Appends as Grows};
    ghost use Rattle.va_io.specs.Outside.{Appends, CountsFailedWrite, Rose};
    ghost use Rattle.va_io.specs.StdSink.{writer_of};

    ghost written = { λ _. None };

    ghost faults = { λ s. s.faults };

    ghost room = { λ _. 2 ^ 64 - 1 };

    fn write(&mut self, piece: &[u8]) -> Result<usize, SinkErr>
        ensures most { IfOk result (λ count. count ≤ length piece.now) }
        ensures some { IfOk result (λ count. 0 < length piece.now → 0 < count) }
        ensures taken { IfOk result (λ count.
            Appends (⟦<Self as Sink>⟧.written self.old) (⟦<Self as Sink>⟧.written self.new) (take count piece.now)) }
        ensures refused { OnErr result (⟦<Self as Sink>⟧.written self.new ≡ ⟦<Self as Sink>⟧.written self.old) }
        ensures failed { IsErrOf result SinkErr.Failed →
            Rose (⟦<Self as Sink>⟧.faults self.old) (⟦<Self as Sink>⟧.faults self.new) }
        ensures memory { IsErrOf result SinkErr.NoMemory → ⟦<Self as Sink>⟧.room self.old < length piece.now }
        ensures later { ⟦<Self as Sink>⟧.faults self.old ≤ ⟦<Self as Sink>⟧.faults self.new }
        ensures room { IfOk result (λ count. ⟦<Self as Sink>⟧.room self.old ≤ ⟦<Self as Sink>⟧.room self.new + count) }
        ensures same_room { OnErr result (⟦<Self as Sink>⟧.room self.new ≡ ⟦<Self as Sink>⟧.room self.old) }

        // What it takes reaches the writer, where that tells its content.
        ensures reaches { IfOk result (λ count.
            Grows (W.contents (writer_of self.old)) (W.contents (writer_of self.new)) (take count piece.now)) }

        // Every refusal is a failure, and it is counted.
        ensures never { IsErrOf result SinkErr.NoMemory → ⊥ }
        ensures counted { CountsFailedWrite result
            (⟦<Self as Sink>⟧.faults self.old) (⟦<Self as Sink>⟧.faults self.new) }
    {
        if let Ok(count) = self.writer.write(piece)
            && (count > 0 || piece.is_empty())
            && self.writer.flush().is_ok()
        {
            return Ok(count);
        }
        self.faults = self.faults.saturating_add(1);
        Err(SinkErr::Failed)
    }
}
