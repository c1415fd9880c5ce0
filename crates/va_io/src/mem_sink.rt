//! A sink in memory.
ghost use Rattle.std.specs.Prelude.{◌≡◌, ◌≤◌, [], IsTrue};

use crate::numbered_calls::NumberedCalls;
use crate::sink::{Sink, SinkErr};
use std::alloc::Global;
use va_base::NoMemory;

/// A sink that keeps what it is given. One write takes `take` bytes at most. The writes whose numbers, from 1, were
/// listed fail, and no other write does.
#[derive(Drop)]
pub struct MemSink {
    bytes: Vec<u8>,
    take: usize,
    calls: NumberedCalls,
    faults: u64,
    ghost takes: { 1 ≤ take },
}

impl MemSink {
    ghost use Rattle.std.specs.Prelude.{◌≡◌, ◌≤◌, Some, [], OnOk, OnErr};
    ghost use Rattle.va_io.specs.MemSink.{listed_writes, writes_made, most_taken, MakesNoWrite};

    /// An empty sink, of which one write takes the lesser of `take` and the piece's length. The writes whose numbers,
    /// from 1, are in `fail` fail. The value keeps the allocator for its bytes. Takes no memory.
    pub fn new(alloc: Global, take: usize, fail: Vec<u64>) -> MemSink
        requires { 1 ≤ take }
        ensures written { ⟦<Self as Sink>⟧.written result ≡ Some [] }
        ensures faults { ⟦<Self as Sink>⟧.faults result ≡ 0 }
        ensures room { ⟦<Self as Sink>⟧.room result ≡ 0 }
        ensures listed { listed_writes result ≡ fail.items }
        ensures made { writes_made result ≡ 0 }
        ensures most { most_taken result ≡ take }
    {
        MemSink {
            bytes: Vec::new(alloc),
            take,
            calls: NumberedCalls::new(fail),
            faults: 0,
        }
    }

    /// What was written.
    pub fn bytes(&self) -> &[u8]
        ensures { ⟦<Self as Sink>⟧.written self.now ≡ Some result.now }
    {
        self.bytes.as_slice()
    }

    /// Makes room for `count` bytes more: a write within the room takes no memory. `NoMemory` changes nothing.
    pub fn reserve(&mut self, count: usize) -> Result<(), NoMemory>
        ensures room { OnOk result (count ≤ ⟦<Self as Sink>⟧.room self.new) }
        ensures same { OnErr result (⟦<Self as Sink>⟧.room self.new ≡ ⟦<Self as Sink>⟧.room self.old) }
        ensures keeps { ⟦<Self as Sink>⟧.room self.old ≤ ⟦<Self as Sink>⟧.room self.new }
        ensures written { ⟦<Self as Sink>⟧.written self.new ≡ ⟦<Self as Sink>⟧.written self.old }
        ensures faults { ⟦<Self as Sink>⟧.faults self.new ≡ ⟦<Self as Sink>⟧.faults self.old }
        ensures settings { MakesNoWrite self.old self.new }
    {
        self.bytes.reserve(count)?;
        Ok(())
    }
}

impl Sink for MemSink {
    ghost use Rattle.std.specs.Prelude.{◌↔◌, ◌<◌, ◌+◌, ◌-◌, ◌≤◌, ◌≡◌, [], min, length, take, IfOk, IsErrOf, OnErr, Some, vec_capacity, vec_len};
    ghost use Rattle.va_io.specs.MemSink.{listed_writes, most_taken, MakesWrite, NextWriteFails};
    ghost use Rattle.va_io.specs.Outside.{Appends, CountsFailedWrite, Rose};

    ghost written = { λ s. Some s.bytes.items };

    ghost faults = { λ s. s.faults };

    ghost room = { λ s. vec_capacity s.bytes - vec_len s.bytes };

    fn write(&mut self, piece: &[u8]) -> Result<usize, SinkErr>
        ensures most { IfOk result (λ count. count ≤ length piece.now) }
        ensures some { IfOk result (λ count. 0 < length piece.now → 0 < count) }
        ensures taken { IfOk result (λ count.
            Appends (⟦<Self as Sink>⟧.written self.old) (⟦<Self as Sink>⟧.written self.new) (take count piece.now)) }
        ensures refused { OnErr result (⟦<Self as Sink>⟧.written self.new ≡ ⟦<Self as Sink>⟧.written self.old) }
        ensures failed { IsErrOf result SinkErr.Failed →
            Rose (⟦<Self as Sink>⟧.faults self.old) (⟦<Self as Sink>⟧.faults self.new) }
        ensures memory { IsErrOf result SinkErr.NoMemory → ⟦<Self as Sink>⟧.room self.old < length piece.now }
        ensures later { ⟦<Self as Sink>⟧.faults self.old ≤ ⟦<Self as Sink>⟧.faults self.new }
        ensures room { IfOk result (λ count. ⟦<Self as Sink>⟧.room self.old ≤ ⟦<Self as Sink>⟧.room self.new + count) }
        ensures same_room { OnErr result (⟦<Self as Sink>⟧.room self.new ≡ ⟦<Self as Sink>⟧.room self.old) }

        // It fails exactly at the listed writes, and takes exactly as much as it may.
        ensures fails { IsErrOf result SinkErr.Failed ↔ NextWriteFails self.old }
        ensures count { IfOk result (λ count. count ≡ min (most_taken self.old) (length piece.now)) }
        ensures counted { CountsFailedWrite result
            (⟦<Self as Sink>⟧.faults self.old) (⟦<Self as Sink>⟧.faults self.new) }
        ensures quiet { listed_writes self.old ≡ [] → ⟦<Self as Sink>⟧.faults self.new ≡ ⟦<Self as Sink>⟧.faults self.old }
        ensures made { MakesWrite self.old self.new }
    {
        if self.calls.next_fails() {
            self.faults = self.faults.saturating_add(1);
            return Err(SinkErr::Failed);
        }
        let count = self.take.min(piece.len());
        if self.bytes.reserve(count).is_err() {
            return Err(SinkErr::NoMemory);
        }
        self.bytes.extend_from_slice(&piece[..count]).unwrap();
        Ok(count)
    }
}
