//! Reads a capture record by record.

ghost use Rattle.std.specs.Prelude.{◌≤◌, ◌^◌, IsSome};
ghost use Rattle.capture_io.specs.Reader.{IsView};
ghost use Rattle.avtp_files.specs.ShelfCalls.{ClosesSlot};
ghost use Rattle.capture_io.specs.Source.{Advances, GivesNext, OpensSource, held_in, slot_of};
ghost use Rattle.capture_io.specs.state.Source.{GivesUp, IsLending, lending};

use crate::capture_reader::CaptureReader;
use crate::end::End;
use crate::feed::Feed;
use crate::pieces::Pieces;
use avtp_base::OpenFault;
use avtp_files::Shelf;
use pcap_frames::RecordView;
use std::alloc::Global;
use std::marker::Model;

/// A capture that is read from a shelf, and delivers its records one after the other. Each call of the shelf reads at
/// most 65,536 bytes. When a source is opened, its memory is reserved. The memory does not grow with the capture.
///
/// If a record is complete in the piece that was read, the record is lent from there. A record that is cut between
/// pieces is copied. Contracts see a lent record as held, and its bytes as taken, until the next record is asked for.
#[derive(Drop)]
pub struct Source {
    feed: Feed,
    /// The size of the held record, if that record is lent. The bytes of a lent record are the first buffered bytes.
    lent: Option<usize>,
}

impl Model for Source {
    ghost use Rattle.capture_io.specs.Source.{Sourcing};
    ghost use Rattle.capture_io.specs.state.Source.{IsLending, lending};

    ghost Value = { Sourcing };

    ghost view = { λ s. lending s.lent s.feed };

    ghost invariant = { λ s. IsLending s.lent s.feed };
}

impl Source {
    /// Opens a capture for reading at most `limit` bytes; `limit` is at most 2^62. No record is held yet.
    ///
    /// `Missing` is returned only if the shelf shows its files and none of them has the name. If the result is
    /// `Failed`, the count of reading faults rose. `Memory` means that memory ran out. If the call fails, the file is
    /// not open. The name is asked for before memory is reserved, so exactly this name was asked for, whatever the
    /// result.
    pub fn open<F: Shelf>(
        alloc: Global,
        limit: u64,
        shelf: &mut F,
        name: &str,
    ) -> Result<Self, OpenFault>
        requires { limit ≤ 2 ^ 62 }
        ensures { OpensSource (F.state shelf.old) (F.state shelf.new) limit name.now result }
    {
        let pieces = Pieces::open(alloc, limit, shelf, name)?;
        let Ok(reader) = CaptureReader::new(alloc) else {
            pieces.close(shelf);
            return Err(OpenFault::Memory);
        };
        let feed = Feed {
            pieces,
            reader,
            ended: None,
        };
        Ok(Source { feed, lent: None })
    }

    /// Drops the held record, and reads on to the next record. If the result is `None`, the next record is held now;
    /// otherwise the result tells how the reading ended. Once the reading has ended, each further call returns the same
    /// end and reads nothing.
    #[inline(always)]
    pub fn next<F: Shelf>(&mut self, shelf: &mut F) -> Option<End>
        requires { IsSome ((F.state shelf.old).slots (slot_of self.old)) }
        ensures { GivesNext (F.state shelf.old) (F.state shelf.new) self.old self.new result }
    {
        give_up(&mut self.feed, self.lent);
        self.lent = self.feed.whole_ahead();
        if self.lent.is_some() {
            return None;
        }
        self.feed.next(shelf)
    }

    /// Drops the held record. If the next record is complete in the bytes that were read, holds that record and returns
    /// `true`. Otherwise returns `false`. If the result is `false`, `next` reads on, and possibly has to wait for the
    /// program that writes the file.
    #[inline(always)]
    pub fn advance(&mut self) -> bool
        ensures { Advances self.old self.new result }
    {
        give_up(&mut self.feed, self.lent);
        self.lent = self.feed.whole_ahead();
        self.lent.is_some()
    }

    /// Whether `next` will read from the file, judging by the bytes that were read. If the file must be read, `next`
    /// possibly has to wait for the program that writes the file. A caller should therefore first print what is known
    /// so far. The answer is a hint: no clause states anything about it.
    #[inline(always)]
    pub fn must_read(&self) -> bool {
        self.feed.must_read(self.lent.unwrap_or(0))
    }

    /// The held record.
    #[inline(always)]
    pub fn record(&self) -> RecordView<'_>
        requires { IsSome (held_in self.now) }
        ensures { IsView (held_in self.now) result }
    {
        if let Some(size) = self.lent {
            return self.feed.reader.lend(&self.feed.pieces.waiting()[..size]);
        }
        match self.feed.reader.held() {
            Some(record) => record,
            None => unreachable!(),
        }
    }

    /// Closes the file, however much of it was read.
    pub fn close<F: Shelf>(self, shelf: &mut F)
        requires { IsSome ((F.state shelf.old).slots (slot_of self)) }
        ensures { ClosesSlot (F.state shelf.old) (F.state shelf.new) (slot_of self) }
    {
        self.feed.pieces.close(shelf);
    }
}

/// Releases the lent record if there is one, or else the record that the reader holds, if any.
#[inline(always)]
fn give_up(feed: &mut Feed, lent: Option<usize>)
    requires { IsLending lent feed.old }
    ensures { GivesUp (lending lent feed.old) feed.new }
{
    match lent {
        Some(size) => {
            feed.reader.pass(&feed.pieces.waiting()[..size]);
            feed.pieces.take(size);
        }
        None => feed.reader.release(),
    }
}
