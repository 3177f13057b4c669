//! What a listener shows of a capture that is fed in pieces.

ghost use Rattle.std.specs.Prelude.{◌≡◌, ◌+◌, ◌^◌, ◌<◌, ◌≤◌, ◌++◌, ℕ, false, List, length, take, None, IfOk, IsSome, MatchResult, OnOk};
ghost use Rattle.std.specs.Option.{option_to_list};
ghost use Rattle.pcap_frames.specs.Capture.{whole_records};
ghost use Rattle.pcap_frames.specs.Reading.{IsNext, Passes, held as held_by, taken};
ghost use Rattle.sample_schedule.specs.Limits.{IsPlan};
ghost use Rattle.listener.specs.Feeding.{Begins, Ends, Feeds, GivesNext, IsQuiet, StandsFor, is_ended, out};
ghost use Rattle.listener.specs.Listening.{HoldsWaiting};
ghost use Rattle.listener.specs.state.Feeding.{HearsNext};
ghost use Rattle.listener.specs.state.Listening.{Rests};
ghost use Rattle.listener.specs.Heard.{counts_of, schedule_plan};

use crate::heard::Counts;
use crate::plan::ListenPlan;
use crate::record_listener::RecordListener;
use avtp_base::{Bytes, NoMemory, Refusal};
use pcap_frames::Reader;
use sample_schedule::Shown;
use std::alloc::Global;
use std::marker::Model;
use thiserror::Error;

/// Why a listener stops.
#[derive(Clone, Copy, Debug, PartialEq, Eq, Error)]
pub enum ListenFault {
    /// The capture's first field that is cut off or refused. The records before the refused field are heard.
    #[error("the capture is refused")]
    Refused(Refusal),
    /// There was no memory for the samples of a packet.
    #[error("out of memory")]
    Memory,
}

/// A listener that takes a capture's bytes in pieces of any length. The listener shows what a `RecordListener` shows of
/// the capture's records.
///
/// After each call of `feed` or `end`, the caller calls `next_out` to take all items that are due, and only then feeds
/// more bytes. Memory for the listener's state is reserved when the listener is made. Later each packet's samples are
/// copied once, into the batch that is shown. If a record is cut between two pieces, its bytes are first copied one
/// more time.
pub struct Listener {
    reader: Reader,
    listener: RecordListener,
    /// The item that is due next. The item is taken from the judge before `next_out` asks for it, so that `feed` can
    /// tell whether an item is due. `counts` leaves this item out.
    next: Option<Shown>,
    out_of_memory: bool,
}

// One call for the proofs of all owners, instead of the drops of the parts at each of their ends.
impl Drop for Listener {
    fn drop(self) {
        let Listener {
            reader: _,
            listener: _,
            next: _,
            out_of_memory: _,
        } = self;
    }
}

impl Model for Listener {
    ghost use Rattle.listener.specs.Feeding.{Feeding};
    ghost use Rattle.listener.specs.state.Feeding.{IsSound};

    ghost Value = { Feeding };

    ghost view = { λ fed. record { reader = fed.reader; listener = fed.listener; next = fed.next; out_of_memory = fed.out_of_memory } };

    ghost invariant = { λ fed. IsSound (record { reader = fed.reader; listener = fed.listener; next = fed.next; out_of_memory = fed.out_of_memory }) };
}

impl Listener {
    /// A new listener. The plan must be within the limits that `ListenPlan` names.
    pub fn begin(alloc: Global, plan: ListenPlan) -> Result<Self, NoMemory>
        requires plan { IsPlan (schedule_plan plan) }
        ensures { IfOk result (Begins plan) }
    {
        let reader = Reader::new(alloc)?;
        let listener = RecordListener::begin(alloc, plan)?;
        Ok(Listener {
            reader,
            listener,
            next: None,
            out_of_memory: false,
        })
    }

    /// Takes bytes up to the end of the next record or of the piece, whichever comes first, and returns how many it
    /// took. In all, at most 2^62 bytes may be taken, and the listener must not have been ended.
    ///
    /// Without a fault, returns `Ok(0)` if and only if the piece is empty or an item is due. `Refused` is the capture's
    /// first refusal, and is returned as soon as the bytes so far show it. The records before the refusal are kept, and
    /// the listener can still be ended. `Memory` is returned if there is no memory for the samples of the record that
    /// was read. If memory ran out for a record, the record makes no item, and every later `feed` and `end` returns
    /// `Memory`.
    pub fn feed(&mut self, alloc: Global, piece: &[u8]) -> Result<usize, ListenFault>
        requires open { is_ended self.old ≡ false }
        requires bounded { taken self.old.reader + length piece.now ≤ 2 ^ 62 }
        ensures { Feeds piece.now self.old self.new result }
    {
        if self.out_of_memory {
            return Err(ListenFault::Memory);
        }
        if self.next.is_some() {
            return Ok(0);
        }
        match self.reader.whole_ahead(piece) {
            Some(size) => match take_lent(
                alloc,
                &mut self.reader,
                &mut self.listener,
                &piece[..size],
            ) {
                Ok(()) => {
                    self.listener.put_next(&mut self.next);
                    Ok(size)
                }
                Err(NoMemory) => {
                    self.out_of_memory = true;
                    Err(ListenFault::Memory)
                }
            },
            None => match self.reader.feed(piece) {
                Ok(taken) => match take_held(alloc, &mut self.reader, &mut self.listener) {
                    Ok(()) => {
                        self.listener.put_next(&mut self.next);
                        Ok(taken)
                    }
                    Err(NoMemory) => {
                        self.out_of_memory = true;
                        Err(ListenFault::Memory)
                    }
                },
                Err(refusal) => Err(ListenFault::Refused(refusal)),
            },
        }
    }

    /// The next item that is shown of the bytes so far. Before `end`, only items that are due are returned; after
    /// `end`, all items. Returns `None` if and only if no item is left that may be returned. If the talker keeps the
    /// rules, `listener_laws::bytes_are_given_truly` applies to the items that are returned. Allocates nothing.
    pub fn next_out(&mut self) -> Option<Shown>
        ensures { GivesNext self.old self.new result }
    {
        if self.next.is_none() {
            return None;
        }
        let shown = self.next.take()?;
        self.next = self.listener.next_out();
        Some(shown)
    }

    /// Takes back the memory of samples that were shown. The samples of later packets are copied into this memory
    /// before more is allocated. At most 64 returned buffers are kept; the memory of further buffers is freed. May be
    /// called at any time. Allocates nothing.
    pub fn give_back(&mut self, samples: Bytes)
        ensures { self.new ≡ self.old }
    {
        self.listener.give_back(samples);
    }

    /// Ends the capture after the bytes so far, and makes all remaining items due. Before the call, all due items must
    /// have been returned, and the listener must not have been ended. Allocates nothing.
    ///
    /// `Refused` is the capture's first field that is cut off or refused, if there is one; only the records before that
    /// field are shown. If `feed` returned `Memory`, `end` returns `Memory` and changes nothing.
    pub fn end(&mut self) -> Result<(), ListenFault>
        requires open { is_ended self.old ≡ false }
        requires quiet { IsQuiet self.old }
        ensures { Ends self.old self.new result }
    {
        if self.out_of_memory {
            return Err(ListenFault::Memory);
        }
        self.listener.close();
        self.next = self.listener.next_out();
        match self.reader.finish() {
            Ok(()) => Ok(()),
            Err(refusal) => Err(ListenFault::Refused(refusal)),
        }
    }

    /// How many batches wait for their presentation time: at most the plan's `buffer`. The waiting batches together
    /// have at most `room` bytes.
    pub fn held(&self) -> u32
        ensures { HoldsWaiting result self.now.listener }
    {
        self.listener.held()
    }

    /// How many records were read so far, how many of them belong to the stream, and how many batches and flags were
    /// returned.
    pub fn counts(&self) -> Counts
        ensures { (bytes : List ℕ) (given : ℕ) → StandsFor bytes given self.now → result ≡ counts_of self.now.listener.plan (whole_records bytes) (take given (out self.now bytes)) }
    {
        let counts = self.listener.counts();
        match &self.next {
            Some(shown) => counts.without_shown(shown),
            None => counts,
        }
    }
}

/// Gives the next record, whose bytes are `piece`, to the listener without copying them. If there is no memory, the
/// listener and the reader are unchanged.
fn take_lent(
    alloc: Global,
    reader: &mut Reader,
    listener: &mut RecordListener,
    piece: &[u8],
) -> Result<(), NoMemory>
    requires rests { Rests listener.old }
    requires few { listener.old.counts.frames < 2 ^ 62 }
    requires next { IsNext reader.old piece.now }
    requires bounded { taken reader.old + length piece.now ≤ 2 ^ 62 }
    ensures hears { HearsNext (λ bytes. bytes ++ piece.now) 1 reader.old reader.new listener.old listener.new result }
    ensures passed { MatchResult result
        (λ ok. Passes reader.old piece.now reader.new)
        (λ no_memory. reader.new ≡ reader.old) }
{
    listener.take_record(alloc, &reader.lend(piece))?;
    reader.pass(piece);
    Ok(())
}

/// If the reader holds a record, gives that record to the listener. If there is no memory, the listener is unchanged.
fn take_held(
    alloc: Global,
    reader: &mut Reader,
    listener: &mut RecordListener,
) -> Result<(), NoMemory>
    requires rests { Rests listener.old }
    requires few { IsSome (held_by reader.old) → listener.old.counts.frames < 2 ^ 62 }
    ensures hears { HearsNext (λ bytes. bytes) (length (option_to_list (held_by reader.old))) reader.old reader.new listener.old listener.new result }
    ensures free { OnOk result (held_by reader.new ≡ None) }
    ensures read { (taken reader.new ≡ taken reader.old) × (reader.new.refusal ≡ reader.old.refusal) }
{
    let Some(held) = reader.held() else {
        return Ok(());
    };
    listener.take_record(alloc, &held)?;
    let _ = reader.release();
    Ok(())
}
