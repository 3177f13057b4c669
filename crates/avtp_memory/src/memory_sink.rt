//! A sink in memory; the calls with the chosen numbers fail.

ghost use Rattle.std.specs.Prelude.{◌<◌};

use crate::calls::Calls;
use avtp_base::Failed;
use avtp_files::Sink;
use std::alloc::Global;

/// A sink that keeps all written bytes. The calls of the sink are numbered from 1. A call fails if its number was
/// chosen in `over`.
#[derive(Debug)]
pub struct MemorySink {
    bytes: Vec<u8>,
    calls: Calls,
    most: usize,
    faults: u64,
    ghost some: { 0 < most },
}

// One call for the proofs of all owners, instead of the drops of the parts at each of their ends.
impl Drop for MemorySink {
    fn drop(self) {
        let MemorySink {
            bytes: _,
            calls: _,
            most: _,
            faults: _,
        } = self;
    }
}

impl MemorySink {
    ghost use Rattle.std.specs.Prelude.{◌≡◌};
    ghost use Rattle.avtp_memory.specs.MemorySink.{IsNew, SetsMost, kept};

    /// An empty sink. A call fails if its number is in `fails`.
    pub fn over(alloc: Global, fails: Vec<u64>) -> Self
        ensures { IsNew result fails.items }
    {
        MemorySink {
            bytes: Vec::new(alloc),
            calls: Calls::over(fails),
            most: usize::MAX,
            faults: 0,
        }
    }

    /// Sets the greatest number of bytes that a write takes. `n` must be at least 1.
    pub fn at_most(self, n: usize) -> Self
        requires { 0 < n }
        ensures { SetsMost self result n }
    {
        let MemorySink {
            bytes,
            calls,
            most: _,
            faults,
        } = self;
        MemorySink {
            bytes,
            calls,
            most: n,
            faults,
        }
    }

    /// The written bytes.
    pub fn bytes(&self) -> &[u8]
        ensures { result.now ≡ kept self.now }
    {
        self.bytes.as_slice()
    }
}

impl Sink for MemorySink {
    ghost use Rattle.std.specs.Prelude.{Some};
    ghost use Rattle.avtp_memory.specs.MemorySink.{kept, fault_count, TakesByNumber};

    ghost state = { λ sink. record { held = Some (kept sink); faults = fault_count sink } };

    ghost writes = { λ old new piece result. TakesByNumber old new piece result };

    /// Fails if this call was chosen to fail, or if there is no memory to keep the piece.
    fn write(&mut self, piece: &[u8]) -> Result<usize, Failed> {
        if self.calls.next_fails() {
            self.faults = self.faults.saturating_add(1);
            return Err(Failed);
        }
        let taken = piece.len().min(self.most);
        match self.bytes.extend_from_slice(&piece[..taken]) {
            Ok(()) => Ok(taken),
            Err(_) => {
                self.faults = self.faults.saturating_add(1);
                Err(Failed)
            }
        }
    }
}
