//! A capture is read record by record into a listener. The listener shows the items one by one.

ghost use Rattle.std.specs.Prelude.{◌≡◌, ◌<◌, [], MatchResult, None, false};
ghost use Rattle.listener.specs.Listening.{IsIdle, is_closed};
ghost use Rattle.capture_hearing.specs.Hearing.{ClosesAt, GivesPull, GoesOn, IsGoing, IsAtReading, IsSoundAt, heard_at, pull_at, pull_with, reads_left};

use avtp_base::{Bytes, NoMemory};
use avtp_files::Shelf;
use capture_io::{End, Source};
use listener::{Counts, RecordListener};
use presenter_ring::Pull;
use std::alloc::Global;

/// The stage that the hearing of a capture has reached.
#[derive(Clone, Copy, Debug, PartialEq, Eq)]
pub enum Stage {
    /// Records are being read, and items are shown once they are due.
    Reading,
    /// The reading ended in this way, and the remaining items are being shown.
    Showing(End),
    /// The reading ended in this way, and the last item was shown.
    Ended(End),
    /// There was no memory for a record.
    NoMemory,
}

/// The result of hearing a capture.
#[derive(Clone, Copy, Debug, PartialEq, Eq)]
pub enum Heard {
    /// The capture was heard as far as it could be read. `end` says how the reading ended.
    Ended { end: End, counts: Counts },
    /// The hearing stopped at a record because there was no memory for the record.
    NoMemory,
}

/// What a receiver returns after the last item, given how the reading of the capture ended.
fn pull_of(end: End) -> Pull
    ensures { result ≡ pull_with end }
{
    match end {
        End::Whole => Pull::Done,
        End::Refused(refusal) => Pull::Refused(refusal),
        End::ReadFault => Pull::ReadFault,
        End::Limit => Pull::Limit,
    }
}

/// Closes the listener unless a read fault or the limit ended the reading.
fn close_at(listener: &mut RecordListener, end: End)
    requires { (is_closed listener.old ≡ false) × IsIdle listener.old }
    ensures { ClosesAt end listener.old listener.new }
{
    match end {
        End::Whole | End::Refused(_) => listener.close(),
        End::ReadFault | End::Limit => {}
    }
}

/// A capture that is read, the listener that gets its records, and the stage of the hearing.
#[derive(Drop)]
pub struct Hearing {
    pub source: Source,
    pub listener: RecordListener,
    pub alloc: Global,
    pub stage: Stage,
    ghost sound: { IsSoundAt stage source listener },
}

impl Hearing {
    /// Returns the next item that is shown, or how the hearing ended.
    pub fn next<F: Shelf>(&mut self, shelf: &mut F) -> Pull
        requires { IsGoing (F.state shelf.old).slots self.old.source self.old.stage }
        ensures { GivesPull (F.state shelf.old) (F.state shelf.new) self.old.source self.new.source self.old.listener self.new.listener self.old.stage self.new.stage result }
    {
        loop {
            if let Some(shown) = self.listener.next_out() {
                return Pull::Item(shown);
            }
            match self.stage {
                Stage::Showing(end) => {
                    self.stage = Stage::Ended(end);
                    return pull_of(end);
                }
                _ => match self.read_record(shelf) {
                    Ok(()) => {}
                    Err(NoMemory) => return Pull::Memory,
                },
            }
        }
    }

    /// Whether `next` possibly has to read another record and wait for it.
    pub fn may_wait(&self) -> bool {
        match self.stage {
            Stage::Reading => self.source.must_read(),
            _ => false,
        }
    }

    /// Returns the samples of a presented item to the listener, which reuses their memory.
    pub fn take_back(&mut self, samples: Bytes)
        ensures source { self.new.source ≡ self.old.source }
        ensures listener { self.new.listener ≡ self.old.listener }
        ensures stage { self.new.stage ≡ self.old.stage }
    {
        self.listener.give_back(samples);
    }

    /// Reads the next record and gives it to the listener, or ends the reading. Before this call, all due items must
    /// have been returned.
    fn read_record<F: Shelf>(&mut self, shelf: &mut F) -> Result<(), NoMemory>
        requires reading { IsAtReading (F.state shelf.old).slots self.old.source self.old.stage }
        requires idle { IsIdle self.old.listener }
        ensures on { GoesOn (F.state shelf.old) (F.state shelf.new) self.old.source self.new.source self.old.listener self.new.listener self.old.stage self.new.stage [] }
        ensures stage { MatchResult result (λ _. (pull_at self.new.stage ≡ None) × (reads_left self.new.stage self.new.source < reads_left self.old.stage self.old.source)) (λ _. self.new.stage ≡ Stage.NoMemory) }
    {
        match self.source.next(shelf) {
            None => match self.listener.take_record(self.alloc, &self.source.record()) {
                Ok(()) => Ok(()),
                Err(NoMemory) => {
                    self.stage = Stage::NoMemory;
                    Err(NoMemory)
                }
            },
            Some(end) => {
                close_at(&mut self.listener, end);
                self.stage = Stage::Showing(end);
                Ok(())
            }
        }
    }

    /// The result of the hearing, once it has ended.
    pub fn heard(&self) -> Heard
        ensures { result ≡ heard_at self.now.stage self.now.listener }
    {
        match self.stage {
            Stage::Ended(end) => Heard::Ended {
                end,
                counts: self.listener.counts(),
            },
            _ => Heard::NoMemory,
        }
    }
}
