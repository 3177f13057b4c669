//! A shelf whose calls never return `Failed`, and which allocates for a written file only when the file is made.

use crate::asked_names::AskedNames;
use crate::memory_files::MemoryFiles;
use avtp_base::{Failed, OpenFault};
use avtp_files::{Shelf, Slot};
use std::alloc::Global;

/// A shelf that keeps as much of each written file as fits its room, and takes all further bytes without keeping them.
/// The shelf shows its files as long as it has kept all written bytes. Once the shelf has dropped some bytes, it never
/// shows its files again.
#[derive(Debug)]
pub struct QuietShelf {
    held: MemoryFiles,
    asked: AskedNames,
    all: bool,
}

// One call for the proofs of all owners, instead of the drops of the parts at each of their ends.
impl Drop for QuietShelf {
    fn drop(self) {
        let QuietShelf {
            held: _,
            asked: _,
            all: _,
        } = self;
    }
}

impl QuietShelf {
    ghost use Rattle.std.specs.Prelude.{◌≡◌, option_copied};
    ghost use Rattle.avtp_memory.specs.NamedFiles.{bytes_under};
    ghost use Rattle.avtp_memory.specs.QuietShelf.{IsNew, kept_files};

    /// A shelf of these files, each under its name. A file that is made has room for `room` bytes. If two files have
    /// the same name, the first counts.
    pub fn over(alloc: Global, files: Vec<(String, Vec<u8>)>, room: usize) -> Self
        ensures { IsNew result (bytes_under files.items) room }
    {
        QuietShelf {
            held: MemoryFiles::over(alloc, files, room),
            asked: AskedNames::new(alloc),
            all: true,
        }
    }

    /// The kept bytes of the file with the name.
    pub fn file(&self, name: &str) -> Option<&[u8]>
        ensures { option_copied result ≡ kept_files self.now name.now }
    {
        self.held.file(name)
    }
}

impl Shelf for QuietShelf {
    ghost use Rattle.std.specs.Prelude.{length};
    ghost use Rattle.avtp_memory.specs.state.MemoryFiles.{told_of_live};
    ghost use Rattle.avtp_memory.specs.QuietShelf.{OpensQuietly, MakesQuietly, ReadsQuietly, WritesQuietly, KeepsKept};
    ghost use Rattle.avtp_memory.specs.state.QuietShelf.{state_of};

    ghost state = { state_of };

    ghost opens = { λ old new name result. OpensQuietly old new name result };

    ghost makes = { λ old new name result. MakesQuietly old new name result };

    ghost reads = { λ old new slot buffer result. ReadsQuietly old new slot (length buffer) result };

    ghost writes = { λ old new slot piece result. WritesQuietly old new slot piece result };

    ghost closes = { λ old new slot. KeepsKept old new };

    ghost told = { λ shelf k told live. told_of_live shelf.held k live };

    /// Never returns `Failed`. A shelf that no longer shows its files cannot tell that a file is missing, and returns
    /// `Memory` instead.
    fn open_file(&mut self, name: &str) -> Result<Slot, OpenFault> {
        self.asked.note(name);
        match self.held.open(name) {
            Ok(slot) => Ok(slot),
            Err(OpenFault::Missing) if self.all => Err(OpenFault::Missing),
            Err(_) => Err(OpenFault::Memory),
        }
    }

    /// Never returns `Failed`. Reserves the room of the file.
    fn create_file(&mut self, name: &str) -> Result<Slot, OpenFault> {
        self.asked.note(name);
        match self.held.create(name) {
            Ok(slot) => Ok(slot),
            Err(_) => Err(OpenFault::Memory),
        }
    }

    /// Never fails. Moves all bytes that are left to read, or as many as fill the buffer if more are left.
    fn read(&mut self, slot: Slot, buf: &mut [u8]) -> Result<usize, Failed> {
        Ok(self.held.read(slot, usize::MAX, buf))
    }

    /// Never fails. Takes the whole piece, and keeps as much of it as fits the room of the file.
    fn write(&mut self, slot: Slot, piece: &[u8]) -> Result<usize, Failed> {
        let fits = self.held.keep(slot, piece);
        self.all = self.all && fits;
        Ok(piece.len())
    }

    /// Frees the slot.
    fn close_file(&mut self, slot: Slot) {
        self.held.close(slot);
    }
}
