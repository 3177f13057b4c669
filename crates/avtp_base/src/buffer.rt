//! A buffer of bytes to be written.

ghost use Rattle.std.specs.Prelude.{◌≡◌, ◌+◌, ◌≤◌, ◌++◌, [], length, take, drop, IfOk};

use crate::failed::NoMemory;
use crate::spelled::Spelled;
use std::alloc::Global;
use std::marker::Model;

/// A buffer of at most 65,536 bytes to be written. Contracts see the buffered bytes as a list. The memory is reserved
/// once.
#[derive(Drop)]
pub struct Buffer {
    /// The buffered bytes, followed by bytes that will be overwritten.
    bytes: Vec<u8>,
    /// The number of buffered bytes.
    len: usize,
}

impl Model for Buffer {
    ghost use Rattle.std.specs.Prelude.{List, ℕ, ◌≡◌, ◌≤◌, take, vec_len};

    ghost Value = { List ℕ };

    ghost view = { λ buffer. take buffer.len buffer.bytes.items };

    ghost invariant = { λ buffer. (vec_len buffer.bytes ≡ 65536) × (buffer.len ≤ 65536) };
}

impl Buffer {
    ghost use Rattle.std.specs.Borrow.{sem};
    ghost use Rattle.avtp_base.specs.Waiting.{LendsWaiting};

    /// The greatest number of buffered bytes.
    pub const ROOM: usize = 65_536;

    /// An empty buffer. Reserves all the memory that the buffer will need.
    pub fn new(alloc: Global) -> Result<Self, NoMemory>
        ensures { IfOk result (λ buffer. buffer ≡ []) }
    {
        // The memory is filled with zeros here, because a slice can show only initialized memory.
        match vec![in alloc; 0; Self::ROOM] {
            Ok(bytes) => Ok(Buffer { bytes, len: 0 }),
            Err(_) => Err(NoMemory),
        }
    }

    /// How many more bytes fit into the buffer.
    pub fn room(&self) -> usize
        ensures { length self.now + result ≡ Self.ROOM }
    {
        Self::ROOM - self.len
    }

    /// Adds bytes at the end. The buffer must have room for `bytes`.
    #[inline(always)]
    pub fn push(&mut self, bytes: &[u8])
        requires { length self.old + length bytes.now ≤ Self.ROOM }
        ensures { self.new ≡ self.old ++ bytes.now }
    {
        let end = self.len + bytes.len();
        self.bytes[self.len..end].copy_from_slice(bytes);
        self.len = end;
    }

    /// Adds the first `len` of these bytes at the end. Copies all of `bytes`, not only the first `len`: callers pass an
    /// array, whose length the compiler knows, and copying a known number of bytes needs no function call. Therefore
    /// there must be room for all of `bytes`.
    #[inline(always)]
    pub fn push_first(&mut self, bytes: &[u8], len: usize)
        requires some { len ≤ length bytes.now }
        requires room { length self.old + length bytes.now ≤ Self.ROOM }
        ensures { self.new ≡ self.old ++ take len bytes.now }
    {
        let end = self.len + len;
        self.push(bytes);
        self.len = end;
    }

    /// Adds the encoding of a value at the end. The value is encoded in place. There must be room for the encoding.
    #[inline(always)]
    pub fn add<W: Spelled>(&mut self, added: &W)
        requires { length self.old + length (W.spelling added.now) ≤ Self.ROOM }
        ensures { self.new ≡ self.old ++ W.spelling added.now }
    {
        let end = self.len + added.size();
        added.write(&mut self.bytes[self.len..end]);
        self.len = end;
    }

    /// The buffered bytes.
    pub fn waiting(&self) -> &[u8]
        ensures { result.now ≡ self.now }
    {
        &self.bytes[..self.len]
    }

    /// The buffered bytes, to be changed in place.
    #[inline(always)]
    pub fn waiting_mut(&mut self) -> &mut [u8]
        ensures* writes_back { sem 𝓛 (LendsWaiting self.entry result) }
        ensures value { result.now ≡ self.old }
    {
        self.bytes.slice_mut(0..self.len)
    }

    /// Drops the first `count` bytes, which have been written.
    pub fn drop_front(&mut self, count: usize)
        requires { count ≤ length self.old }
        ensures { self.new ≡ drop count self.old }
    {
        let left = self.len - count;
        move_to_front(&mut self.bytes[0..self.len], count);
        self.len = left;
    }
}

/// Moves all bytes after the first `count` bytes to the front.
fn move_to_front(bytes: &mut [u8], count: usize)
    requires { count ≤ length bytes.old }
    ensures { bytes.new ≡ drop count bytes.old ++ take count bytes.old }
{
    bytes.rotate_left(count);
}
