//! Feeds the pieces of a capture to its reader.

ghost use Rattle.std.specs.Prelude.{◌≤◌, length, IsSome};
ghost use Rattle.capture_io.specs.Source.{GivesNext, slot_of};
ghost use Rattle.capture_io.specs.state.Source.{FindsAhead, IsReady, ReadsOn, ReadsRecord};

use crate::capture_reader::CaptureReader;
use crate::end::End;
use crate::pieces::Pieces;
use avtp_files::Shelf;
use std::marker::Model;

/// A capture that is read from a shelf and fed to a reader in pieces. A record is held by the reader if the reader has
/// taken the record's bytes. A record that the reader has not taken is shown in the piece.
#[derive(Drop)]
pub struct Feed {
    pub pieces: Pieces,
    pub reader: CaptureReader,
    pub ended: Option<End>,
}

impl Model for Feed {
    ghost use Rattle.std.specs.Prelude.{◌≤◌, ◌+◌, ◌^◌, length};
    ghost use Rattle.capture_io.specs.state.Reader.{taken};
    ghost use Rattle.capture_io.specs.Source.{Sourcing};

    ghost Value = { Sourcing };

    ghost view = { λ s. record { pieces = s.pieces; reader = s.reader; ended = s.ended } };

    ghost invariant = { λ s. taken s.reader + length s.pieces.waiting + s.pieces.left ≤ 2 ^ 62 };
}

impl Feed {
    /// Drops the held record, and reads on to the next record. If the result is `None`, the next record is held now;
    /// otherwise the result says how the reading ended. Once the reading has ended, each further call returns the same
    /// end and reads nothing.
    #[inline(never)]
    pub fn next<F: Shelf>(&mut self, shelf: &mut F) -> Option<End>
        requires { IsSome ((F.state shelf.old).slots (slot_of self.old)) }
        ensures { GivesNext (F.state shelf.old) (F.state shelf.new) self.old self.new result }
    {
        if self.ended.is_some() {
            return self.ended;
        }
        self.reader.release();
        self.ended = self.read_on(shelf);
        self.ended
    }

    /// Reads on until a record is held, or the reading ends.
    fn read_on<F: Shelf>(&mut self, shelf: &mut F) -> Option<End>
        requires { IsReady (F.state shelf.old).slots self.old }
        ensures { ReadsRecord (F.state shelf.old) (F.state shelf.new) self.old self.new result }
    {
        loop {
            if let Some(end) = self.step(shelf) {
                return Some(end);
            }
            if self.reader.held().is_some() {
                return None;
            }
        }
    }

    /// Feeds buffered bytes to the reader, at most up to the end of one record, or reads the next piece if no bytes are
    /// buffered. If the reader refuses the bytes, returns the refusal, which ends the reading.
    fn step<F: Shelf>(&mut self, shelf: &mut F) -> Option<End>
        requires { IsReady (F.state shelf.old).slots self.old }
        ensures { ReadsOn (F.state shelf.old) (F.state shelf.new) self.old self.new result }
    {
        if self.pieces.waiting().is_empty() {
            let stop = self.pieces.read(shelf)?;
            return Some(stop.end(self.reader.finish().err()));
        }
        match self.reader.feed(self.pieces.waiting()) {
            Ok(taken) => {
                self.pieces.take(taken);
                None
            }
            Err(refusal) => {
                self.pieces.take_all();
                Some(End::Refused(refusal))
            }
        }
    }

    /// The size of the next record, if the buffered bytes begin with the whole record and no byte of the record was
    /// taken yet. If the result is `None`, one of two things holds: the buffered bytes do not begin with a whole
    /// untaken record, or the reading has ended.
    #[inline(always)]
    pub fn whole_ahead(&self) -> Option<usize>
        ensures { FindsAhead self.now result }
    {
        if self.ended.is_some() {
            return None;
        }
        self.reader.whole_ahead(self.pieces.waiting())
    }

    /// Whether the file must be read to get the next record. No read is needed if the buffered bytes after the first
    /// `taken` bytes are assumed to contain the whole record.
    pub fn must_read(&self, taken: usize) -> bool
        requires { taken ≤ length self.now.pieces.waiting }
    {
        self.ended.is_none() && !self.reader.is_ahead(&self.pieces.waiting()[taken..])
    }
}
