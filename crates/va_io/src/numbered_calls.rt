//! The calls of a value in memory, some of which are to fail.
ghost use Rattle.std.specs.Prelude.{◌≡◌, ◌↔◌, IsTrue};
ghost use Rattle.va_io.specs.Calls.{Fails};
ghost use Rattle.va_io.specs.Outside.{one_more};

/// Calls that are numbered from 1, and the numbers of those that are to fail.
#[derive(Drop)]
pub struct NumberedCalls {
    listed: Vec<u64>,
    made: u64,
}

impl NumberedCalls {
    /// No call yet. Those of the listed numbers are to fail.
    pub fn new(listed: Vec<u64>) -> NumberedCalls
        ensures listed { result.listed ≡ listed }
        ensures made { result.made ≡ 0 }
    {
        NumberedCalls { listed, made: 0 }
    }

    /// Makes the next call, and says whether it is to fail. The number of a call stops at 2^64 - 1, and no call of that
    /// number fails.
    pub fn next_fails(&mut self) -> bool
        ensures fails { IsTrue result ↔ Fails self.old.listed.items (one_more self.old.made) }
        ensures made { self.new.made ≡ one_more self.old.made }
        ensures listed { self.new.listed ≡ self.old.listed }
    {
        self.made = self.made.saturating_add(1);
        self.made < u64::MAX && self.listed.contains(&self.made)
    }
}
