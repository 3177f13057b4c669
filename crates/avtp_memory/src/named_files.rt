//! Files in memory, by name.

ghost use Rattle.std.specs.Prelude.{◌≡◌, ◌≤◌, [], Some, OnOk, OnErr, IsSome, option_copied, position};
ghost use Rattle.avtp_memory.specs.NamedFiles.{bytes_under, has_name};
ghost use Rattle.avtp_memory.specs.state.NamedFiles.{capacity_under, SetsFile, GrowsFile, KeepsNamed, KeepsCapacity, KeepsWithin};

use crate::room::{empty_with_room, keep_within};
use avtp_base::NoMemory;
use std::alloc::Global;

/// Names with their bytes. If two entries have the same name, the first counts.
#[derive(Debug, Drop)]
pub struct NamedFiles {
    pub entries: Vec<(String, Vec<u8>)>,
}

impl NamedFiles {
    /// The bytes of the file with the name.
    pub fn bytes(&self, name: &str) -> Option<&[u8]>
        ensures { option_copied result ≡ bytes_under self.now.entries.items name.now }
    {
        match place_of(&self.entries, name) {
            Some(place) => Some(self.entries[place].1.as_slice()),
            None => None,
        }
    }

    /// The bytes of the file with the name. A file with the name must exist.
    pub fn bytes_of(&self, name: &str) -> &[u8]
        requires { IsSome (bytes_under self.now.entries.items name.now) }
        ensures { bytes_under self.now.entries.items name.now ≡ Some result.now }
    {
        match self.bytes(name) {
            Some(bytes) => bytes,
            None => &[],
        }
    }

    /// Appends the piece to the file with the name.
    pub fn append(&mut self, name: &str, piece: &[u8]) -> Result<(), NoMemory>
        requires { IsSome (bytes_under self.old.entries.items name.now) }
        ensures ok { OnOk result (GrowsFile self.old.entries.items self.new.entries.items name.now piece.now) }
        ensures err { OnErr result (KeepsNamed self.old.entries.items self.new.entries.items) }
        ensures capacity { KeepsCapacity self.old.entries.items self.new.entries.items }
    {
        let Some(place) = place_of(&self.entries, name) else {
            return Err(NoMemory);
        };
        let file = &mut self.entries[place];
        file.1.extend_from_slice(piece)?;
        Ok(())
    }

    /// Appends to the file `name` as many bytes of a piece as fit the room. Returns whether all of the piece was
    /// appended.
    pub fn keep(&mut self, name: &str, room: usize, piece: &[u8]) -> bool
        requires named { IsSome (bytes_under self.old.entries.items name.now) }
        requires roomy { room ≤ capacity_under self.old.entries.items name.now }
        ensures kept { KeepsWithin self.old.entries.items self.new.entries.items name.now room piece.now result }
        ensures capacity { KeepsCapacity self.old.entries.items self.new.entries.items }
    {
        let Some(place) = place_of(&self.entries, name) else {
            return false;
        };
        let file = &mut self.entries[place];
        keep_within(&mut file.1, room, piece)
    }

    /// Empties the file with the name, or adds an empty file. The file has memory for `room` bytes.
    pub fn empty(&mut self, alloc: Global, name: &str, room: usize) -> Result<(), NoMemory>
        ensures ok { OnOk result (SetsFile self.old.entries.items self.new.entries.items name.now []) }
        ensures roomy { OnOk result (room ≤ capacity_under self.new.entries.items name.now) }
        ensures err { OnErr result (KeepsNamed self.old.entries.items self.new.entries.items) }
        ensures capacity { KeepsCapacity self.old.entries.items self.new.entries.items }
    {
        match place_of(&self.entries, name) {
            Some(place) => {
                let file = &mut self.entries[place];
                empty_with_room(&mut file.1, room)?;
                Ok(())
            }
            None => {
                let name = String::from_str(alloc, name)?;
                let file = Vec::with_capacity(alloc, room)?;
                self.entries.push((name, file))?;
                Ok(())
            }
        }
    }
}

// The index of the first file with the name.
fn place_of(entries: &[(String, Vec<u8>)], name: &str) -> Option<usize>
    ensures { result ≡ position (has_name name.now) entries.now }
{
    entries.iter().position(|entry| entry.0.as_str() == name)
}
