//! Files in memory, and which of them are open. Each shelf in memory is built on `MemoryFiles`.

ghost use Rattle.std.specs.Prelude.{◌≤◌};
ghost use Rattle.avtp_memory.specs.state.OpenFile.{AreNamed, HaveRoom};

use crate::named_files::NamedFiles;
use crate::open_file::{OpenFile, advance, copy_from, rest_of};
use avtp_base::{NoMemory, OpenFault};
use avtp_files::Slot;
use avtp_files::slots::Slots;
use std::alloc::Global;

/// Files by name, and open files by slot. When a file is made, it gets memory for `room` bytes.
#[derive(Debug)]
pub struct MemoryFiles {
    alloc: Global,
    files: NamedFiles,
    live: Slots<OpenFile>,
    room: usize,
    ghost named: { AreNamed files.entries.items live.entries.items },
    ghost roomy: { HaveRoom room files.entries.items live.entries.items },
}

// One call for the proofs of all owners, instead of the drops of the parts at each of their ends.
impl Drop for MemoryFiles {
    fn drop(self) {
        let MemoryFiles {
            alloc: _,
            files: _,
            live: _,
            room: _,
        } = self;
    }
}

impl MemoryFiles {
    ghost use Rattle.std.specs.Prelude.{◌≡◌, ◌<◌, true, Some, length, option_copied, option_map, IfSome, IsSome};
    ghost use Rattle.avtp_base.specs.Files.{left_in};
    ghost use Rattle.avtp_memory.specs.MemoryFiles.{files_in, slots_in};
    ghost use Rattle.avtp_memory.specs.NamedFiles.{bytes_under};
    ghost use Rattle.avtp_memory.specs.state.MemoryFiles.{AppendsPiece, FreesSlot, HoldsFiles, KeepsFront, MakesFile, OpensFile, ReadsFile};

    /// Files in memory, each under its name, and none of them open. A file that is made gets memory for `room` bytes.
    /// If two files have the same name, the first counts.
    pub fn over(alloc: Global, files: Vec<(String, Vec<u8>)>, room: usize) -> Self
        ensures { HoldsFiles result (bytes_under files.items) room }
    {
        MemoryFiles {
            alloc,
            files: NamedFiles { entries: files },
            live: Slots::new(alloc),
            room,
        }
    }

    /// The bytes of the file with the name.
    pub fn file(&self, name: &str) -> Option<&[u8]>
        ensures { option_copied result ≡ files_in self.now name.now }
    {
        self.files.bytes(name)
    }

    /// Opens a file for reading, or returns `Missing` if no file has the name.
    pub fn open(&mut self, name: &str) -> Result<Slot, OpenFault>
        ensures { OpensFile self.old self.new name.now result }
    {
        if self.files.bytes(name).is_none() {
            return Err(OpenFault::Missing);
        }
        let Ok(file) = OpenFile::start(self.alloc, name, false) else {
            return Err(OpenFault::Memory);
        };
        let Ok(slot) = self.live.free_slot() else {
            return Err(OpenFault::Memory);
        };
        self.live.set(slot, Some(file));
        Ok(slot)
    }

    /// Opens an empty file with the name for writing: empties the file that has the name, or makes a new one. The file
    /// gets memory for `room` bytes.
    pub fn create(&mut self, name: &str) -> Result<Slot, NoMemory>
        ensures { MakesFile self.old self.new name.now result }
    {
        let file = OpenFile::start(self.alloc, name, true)?;
        let slot = self.live.free_slot()?;
        self.files.empty(self.alloc, name, self.room)?;
        self.live.set(slot, Some(file));
        Ok(slot)
    }

    /// How many bytes of the file are still to be read.
    pub fn left(&self, slot: Slot) -> usize
        requires { IsSome (slots_in self.now slot.0) }
        ensures { IfSome (left_in (slots_in self.now) slot.0) (λ left. result ≡ length left) }
    {
        let Some(file) = self.live.get(slot) else {
            unreachable!()
        };
        rest_of(self.files.bytes_of(file.name.as_str()), file.place).len()
    }

    /// Moves the next unread bytes of the file to the buffer, and returns how many bytes it moved. The number of moved
    /// bytes is the least of three: the number of unread bytes, the length of the buffer, and `most`.
    pub fn read(&mut self, slot: Slot, most: usize, buf: &mut [u8]) -> usize
        requires live { IsSome (slots_in self.old slot.0) }
        requires some { 0 < most }
        requires room { 0 < length buf.old }
        ensures { ReadsFile self.old self.new slot.0 most (length buf.old) buf.new result }
    {
        let Some(file) = self.live.get(slot) else {
            unreachable!()
        };
        let bytes = self.files.bytes_of(file.name.as_str());
        let moved = copy_from(bytes, file.place, most, buf);
        advance(&mut self.live, slot, moved);
        moved
    }

    /// Appends the whole piece to the file of a slot. If there is no memory, nothing is appended.
    pub fn append(&mut self, slot: Slot, piece: &[u8]) -> Result<(), NoMemory>
        requires live { option_map (λ o. o.made) (slots_in self.old slot.0) ≡ Some true }
        ensures { AppendsPiece self.old self.new slot.0 piece.now result }
    {
        let Some(file) = self.live.get(slot) else {
            unreachable!()
        };
        self.files.append(file.name.as_str(), piece)
    }

    /// Keeps as much of a piece as fits the room of the slot's file, and returns whether it kept all of the piece.
    pub fn keep(&mut self, slot: Slot, piece: &[u8]) -> bool
        requires live { option_map (λ o. o.made) (slots_in self.old slot.0) ≡ Some true }
        ensures { KeepsFront self.old self.new slot.0 piece.now result }
    {
        let Some(file) = self.live.get(slot) else {
            unreachable!()
        };
        self.files.keep(file.name.as_str(), self.room, piece)
    }

    /// Frees the slot.
    pub fn close(&mut self, slot: Slot)
        requires { IsSome (slots_in self.old slot.0) }
        ensures { FreesSlot self.old self.new slot.0 }
    {
        self.live.set(slot, None);
    }
}
