//! A shelf in memory whose calls fail at chosen numbers.

ghost use Rattle.std.specs.Prelude.{◌<◌};

use crate::asked_names::AskedNames;
use crate::calls::Calls;
use crate::memory_files::MemoryFiles;
use avtp_base::{Failed, FaultPlace, NoMemory, OpenFault};
use avtp_files::{Shelf, Slot};
use std::alloc::Global;

/// A shelf that keeps its files in memory. All calls except `close_file` are numbered from 1, and the calls whose
/// numbers were chosen in `over` fail.
#[derive(Debug)]
pub struct MemoryShelf {
    held: MemoryFiles,
    asked: AskedNames,
    calls: Calls,
    most: usize,
    reading_faults: u64,
    /// Where the last reading fault occurred.
    last_fault: Option<FaultPlace>,
    writing_faults: u64,
    ghost some: { 0 < most },
}

// One call for the proofs of all owners, instead of the drops of the parts at each of their ends.
impl Drop for MemoryShelf {
    fn drop(self) {
        let MemoryShelf {
            held: _,
            asked: _,
            calls: _,
            most: _,
            reading_faults: _,
            last_fault: _,
            writing_faults: _,
        } = self;
    }
}

impl MemoryShelf {
    ghost use Rattle.std.specs.Prelude.{◌≡◌, option_copied};
    ghost use Rattle.avtp_memory.specs.NamedFiles.{bytes_under};
    ghost use Rattle.avtp_memory.specs.MemoryShelf.{IsNew, SetsMost, files_of};

    /// A shelf of these files, each under its name. The calls whose numbers are in `fails` fail. If two files have the
    /// same name, the first counts.
    pub fn over(alloc: Global, files: Vec<(String, Vec<u8>)>, fails: Vec<u64>) -> Self
        ensures { IsNew result (bytes_under files.items) fails.items }
    {
        MemoryShelf {
            held: MemoryFiles::over(alloc, files, 0),
            asked: AskedNames::new(alloc),
            calls: Calls::over(fails),
            most: usize::MAX,
            reading_faults: 0,
            last_fault: None,
            writing_faults: 0,
        }
    }

    /// Sets the greatest number of bytes that a read or a write moves. The number must be at least 1.
    pub fn at_most(self, n: usize) -> Self
        requires { 0 < n }
        ensures { SetsMost self result n }
    {
        let MemoryShelf {
            held,
            asked,
            calls,
            most: _,
            reading_faults,
            last_fault,
            writing_faults,
        } = self;
        MemoryShelf {
            held,
            asked,
            calls,
            most: n,
            reading_faults,
            last_fault,
            writing_faults,
        }
    }

    /// The bytes of the file with the name.
    pub fn file(&self, name: &str) -> Option<&[u8]>
        ensures { option_copied result ≡ files_of self.now name.now }
    {
        self.held.file(name)
    }

    /// The names that `open_file` and `create_file` were called with, in order. If there was no memory for a name, this
    /// name and all later names are missing.
    pub fn asked(&self) -> &[String]
        ensures { result.now ≡ self.now.asked.names.items }
    {
        self.asked.names.as_slice()
    }
}

impl Shelf for MemoryShelf {
    ghost use Rattle.std.specs.Prelude.{length};
    ghost use Rattle.avtp_memory.specs.state.MemoryFiles.{told_of_live};
    ghost use Rattle.avtp_memory.specs.MemoryShelf.{OpensByNumber, MakesByNumber, ReadsByNumber, WritesByNumber, KeepsNumber};
    ghost use Rattle.avtp_memory.specs.state.MemoryShelf.{state_of};

    ghost state = { state_of };

    ghost opens = { λ old new name result. OpensByNumber old new result };

    ghost makes = { λ old new name result. MakesByNumber old new result };

    ghost reads = { λ old new slot buffer result. ReadsByNumber old new slot (length buffer) result };

    ghost writes = { λ old new slot piece result. WritesByNumber old new piece result };

    ghost closes = { λ old new slot. KeepsNumber old new };

    ghost told = { λ shelf k told live. told_of_live shelf.held k live };

    /// Returns `Failed` if and only if this call was chosen to fail.
    fn open_file(&mut self, name: &str) -> Result<Slot, OpenFault> {
        self.asked.note(name);
        if self.calls.next_fails() {
            self.reading_faults = self.reading_faults.saturating_add(1);
            self.last_fault = Some(FaultPlace::Opening);
            return Err(OpenFault::Failed);
        }
        self.held.open(name)
    }

    /// Returns `Failed` if and only if this call was chosen to fail.
    fn create_file(&mut self, name: &str) -> Result<Slot, OpenFault> {
        self.asked.note(name);
        if self.calls.next_fails() {
            self.writing_faults = self.writing_faults.saturating_add(1);
            return Err(OpenFault::Failed);
        }
        let Ok(slot) = self.held.create(name) else {
            return Err(OpenFault::Memory);
        };
        Ok(slot)
    }

    /// Fails if and only if this call was chosen to fail. If the call does not fail, the number of moved bytes is the
    /// least of three: the number of unread bytes, the length of the buffer, and the limit of a call.
    fn read(&mut self, slot: Slot, buf: &mut [u8]) -> Result<usize, Failed> {
        if self.calls.next_fails() {
            let left = self.held.left(slot);
            self.reading_faults = self.reading_faults.saturating_add(1);
            self.last_fault = Some(FaultPlace::Reading(left));
            return Err(Failed);
        }
        Ok(self.held.read(slot, self.most, buf))
    }

    /// Fails if this call was chosen to fail, or if there is no memory to keep the piece. Otherwise takes the whole
    /// piece, or only its first bytes if the piece is longer than the limit of one call.
    fn write(&mut self, slot: Slot, piece: &[u8]) -> Result<usize, Failed> {
        if self.calls.next_fails() {
            self.writing_faults = self.writing_faults.saturating_add(1);
            return Err(Failed);
        }
        let taken = piece.len().min(self.most);
        match self.held.append(slot, &piece[..taken]) {
            Ok(()) => Ok(taken),
            Err(NoMemory) => {
                self.writing_faults = self.writing_faults.saturating_add(1);
                Err(Failed)
            }
        }
    }

    /// Frees the slot. This call is not numbered.
    fn close_file(&mut self, slot: Slot) {
        self.held.close(slot);
    }
}
