//! An open file of a shelf in memory.

ghost use Rattle.std.specs.Prelude.{◌≡◌, ◌+◌, ◌-◌, ◌^◌, ◌<◌, ◌++◌, [], length, min, take, drop, option_map, IsSome, IfOk, IfSome, string_bytes};
ghost use Rattle.avtp_files.specs.Entries.{entry_at, SetsEntry};
ghost use Rattle.avtp_memory.specs.state.OpenFile.{moved_on};

use avtp_base::NoMemory;
use avtp_files::Slot;
use avtp_files::slots::Slots;
use std::alloc::Global;

/// An open file: its name, how many of its bytes were read, and whether it was made for writing.
#[derive(Debug, Drop)]
pub struct OpenFile {
    pub name: String,
    pub place: usize,
    pub made: bool,
}

impl OpenFile {
    /// The file with the name, before any of its bytes are read.
    pub fn start(alloc: Global, name: &str, made: bool) -> Result<Self, NoMemory>
        ensures name { IfOk result (λ file. string_bytes file.name ≡ name.now) }
        ensures place { IfOk result (λ file. file.place ≡ 0) }
        ensures made { IfOk result (λ file. file.made ≡ made) }
    {
        let name = String::from_str(alloc, name)?;
        Ok(OpenFile {
            name,
            place: 0,
            made,
        })
    }
}

/// Adds `by` to the number of bytes that were read of the open file in `slot`.
pub fn advance(live: &mut Slots<OpenFile>, slot: Slot, by: usize)
    requires live { IsSome (entry_at live.old.entries.items slot.0) }
    requires fits { IfSome (entry_at live.old.entries.items slot.0) (λ file. file.place + by < 2 ^ 64) }
    ensures { SetsEntry live.old.entries.items live.new.entries.items slot.0 (option_map (moved_on by) (entry_at live.old.entries.items slot.0)) }
{
    if let Some(file) = &mut live.entries[slot.0 as usize] {
        file.place += by;
    }
}

/// Copies the bytes of a file, from index `place` on, to the front of the buffer. Copies at most `most` bytes, and
/// returns how many it copied.
pub fn copy_from(bytes: &[u8], place: usize, most: usize, buf: &mut [u8]) -> usize
    requires some { 0 < most }
    requires room { 0 < length buf.old }
    ensures count { result ≡ min (length bytes.now - place) (min (length buf.old) most) }
    ensures fits { place + result < 2 ^ 64 }
    ensures moved { drop place bytes.now ≡ take result buf.new ++ drop (place + result) bytes.now }
    ensures at_end { result ≡ 0 → drop (place + result) bytes.now ≡ [] }
{
    let left = rest_of(bytes, place);
    let moved = left.len().min(buf.len()).min(most);
    buf[..moved].copy_from_slice(&left[..moved]);
    moved
}

/// The bytes from index `place` on, or no bytes if `place` is past the end.
pub fn rest_of(bytes: &[u8], place: usize) -> &[u8]
    ensures { result.now ≡ drop place bytes.now }
{
    if place < bytes.len() {
        &bytes[place..]
    } else {
        &[]
    }
}
