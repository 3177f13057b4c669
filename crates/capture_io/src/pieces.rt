//! Reads a file in pieces, up to a limit.

ghost use Rattle.std.specs.Prelude.{◌≡◌, ◌≤◌, [], length, drop, IsSome};
ghost use Rattle.avtp_files.specs.ShelfCalls.{ClosesSlot};
ghost use Rattle.capture_io.specs.state.Pieces.{IsDrained, OpensPieces, ReadsPiece};

use crate::end::Stop;
use avtp_base::{Failed, OpenFault};
use avtp_files::{Shelf, Slot};
use std::alloc::Global;
use std::marker::Model;

/// The greatest number of bytes in a piece.
const PIECE: usize = 65_536;

/// An open file that is read in pieces of at most 65,536 bytes, up to a limit. Bytes that were read are buffered until
/// they are taken.
#[derive(Drop)]
pub struct Pieces {
    slot: Slot,
    piece: Vec<u8>,
    /// Where the buffered bytes begin and end in the piece.
    start: usize,
    end: usize,
    /// How many more bytes may be read.
    left: u64,
    /// Whether a read has shown that the file exceeds the limit.
    over: bool,
}

impl Model for Pieces {
    ghost use Rattle.std.specs.Prelude.{◌≡◌, ◌≤◌, slice_range, vec_len};
    ghost use Rattle.capture_io.specs.Pieces.{Piecing};

    ghost Value = { Piecing };

    ghost view = { λ p. record { slot = p.slot.0; waiting = slice_range p.piece.items p.start p.end; left = p.left; over = p.over } };

    ghost invariant = { λ p. (vec_len p.piece ≡ 65536) × (p.start ≤ p.end) × (p.end ≤ 65536) };
}

impl Pieces {
    /// Opens a file for reading at most `limit` bytes. The name is asked for first; then the memory of a piece is
    /// reserved. If there is no memory, the file is closed again.
    pub fn open<F: Shelf>(
        alloc: Global,
        limit: u64,
        shelf: &mut F,
        name: &str,
    ) -> Result<Self, OpenFault>
        ensures { OpensPieces (F.state shelf.old) (F.state shelf.new) limit name.now result }
    {
        let slot = shelf.open_file(name)?;
        let Ok(piece) = vec![in alloc; 0u8; PIECE] else {
            shelf.close_file(slot);
            return Err(OpenFault::Memory);
        };
        Ok(Pieces {
            slot,
            piece,
            start: 0,
            end: 0,
            left: limit,
            over: false,
        })
    }

    /// Reads the next piece; no bytes may be buffered before the call. If the result is `None`, bytes are buffered now;
    /// otherwise the result says why reading stopped. Bytes beyond the limit are dropped. If a read shows that bytes
    /// follow the limit, the call returns `Limit` once all bytes up to the limit were taken.
    pub fn read<F: Shelf>(&mut self, shelf: &mut F) -> Option<Stop>
        requires { IsDrained (F.state shelf.old).slots self.old }
        ensures { ReadsPiece (F.state shelf.old) (F.state shelf.new) self.old self.new result }
    {
        if self.over {
            return Some(Stop::Limit);
        }
        match shelf.read(self.slot, &mut self.piece) {
            Ok(0) => Some(Stop::End),
            Ok(count) => {
                let within = self.left.min(count as u64) as usize;
                self.start = 0;
                self.end = within;
                self.left -= within as u64;
                self.over = within < count;
                if within == 0 { Some(Stop::Limit) } else { None }
            }
            Err(Failed) => Some(Stop::Fault),
        }
    }

    /// The buffered bytes.
    pub fn waiting(&self) -> &[u8]
        ensures { result.now ≡ self.now.waiting }
    {
        &self.piece[self.start..self.end]
    }

    /// Takes the first `count` buffered bytes.
    pub fn take(&mut self, count: usize)
        requires { count ≤ length self.old.waiting }
        ensures { self.new ≡ record self.old { waiting = drop count self.old.waiting } }
    {
        self.start += count;
    }

    /// Takes all buffered bytes.
    pub fn take_all(&mut self)
        ensures { self.new ≡ record self.old { waiting = [] } }
    {
        self.start = self.end;
    }

    /// Closes the file.
    pub fn close<F: Shelf>(self, shelf: &mut F)
        requires { IsSome ((F.state shelf.old).slots self.slot) }
        ensures { ClosesSlot (F.state shelf.old) (F.state shelf.new) self.slot }
    {
        shelf.close_file(self.slot);
    }
}
