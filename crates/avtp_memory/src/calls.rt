//! Counts the calls to an object in memory, and tells which of the calls fail on purpose.

ghost use Rattle.std.specs.Prelude.{◌≡◌};
ghost use Rattle.avtp_memory.specs.state.Calls.{CountsNext};

/// Numbers the calls from 1, and holds the numbers of the calls that fail. The call number stops at the greatest `u64`.
#[derive(Debug, Drop)]
pub struct Calls {
    pub fails: Vec<u64>,
    pub count: u64,
}

impl Calls {
    pub fn over(fails: Vec<u64>) -> Self
        ensures fails { result.fails.items ≡ fails.items }
        ensures count { result.count ≡ 0 }
    {
        Calls { fails, count: 0 }
    }

    /// Counts the next call, and returns whether it fails.
    pub fn next_fails(&mut self) -> bool
        ensures { CountsNext self.old.fails.items self.new.fails.items self.old.count self.new.count result }
    {
        self.count = self.count.saturating_add(1);
        self.fails.contains(&self.count)
    }
}
