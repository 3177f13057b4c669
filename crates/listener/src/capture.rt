//! A whole capture at once.

ghost use Rattle.std.specs.Prelude.{◌≡◌, ◌+◌, ◌≤◌, ◌^◌, ℤ, IfOk, OnOk, length};
ghost use Rattle.packet_journal.specs.Packets.{PacketJournal};
ghost use Rattle.pcap_frames.specs.Capture.{whole_records};
ghost use Rattle.pcap_frames.specs.Reading.{taken};
ghost use Rattle.sample_schedule.specs.Limits.{IsPlan};
ghost use Rattle.listener.specs.Feeding.{Begins};
ghost use Rattle.listener.specs.state.Feeding.{CanFeed, FeedsPiece, GivesAll, Stops};
ghost use Rattle.listener.specs.Headline.{KeepsHeadline};
ghost use Rattle.listener.specs.Heard.{heard_of, schedule_plan};
ghost use Rattle.listener.specs.Laws.{HearsTalker};

use crate::heard::{Heard, ShownList};
use crate::listener::{ListenFault, Listener};
use crate::plan::ListenPlan;
use avtp_base::{NoMemory, Refusal};
use sample_schedule::Shown;
use std::alloc::Global;

/// Puts all items that are due into a list.
pub(crate) fn give_all(listener: &mut Listener, list: &mut Vec<Shown>) -> Result<(), NoMemory>
    ensures { OnOk result (GivesAll list.old.items list.new.items listener.old listener.new) }
{
    while let Some(shown) = listener.next_out() {
        list.push(shown)?;
    }
    Ok(())
}

/// Feeds the whole piece, or the part before the capture's first refusal, and puts all items that become due into a
/// list.
pub(crate) fn feed_piece(
    alloc: Global,
    listener: &mut Listener,
    piece: &[u8],
    list: &mut Vec<Shown>,
) -> Result<(), NoMemory>
    requires ready { CanFeed listener.old }
    requires bounded { taken listener.old.reader + length piece.now ≤ 2 ^ 62 }
    ensures { OnOk result (FeedsPiece piece.now list.old.items list.new.items listener.old listener.new) }
{
    let mut used = 0;
    while used < piece.len() {
        match listener.feed(alloc, &piece[used..]) {
            Ok(taken) => {
                give_all(listener, list)?;
                used += taken;
            }
            Err(ListenFault::Refused(_)) => return Ok(()),
            Err(ListenFault::Memory) => return Err(NoMemory),
        }
    }
    Ok(())
}

/// Ends the capture, and returns its first refusal.
fn end(listener: &mut Listener) -> Option<Refusal>
    requires { CanFeed listener.old }
    ensures { Stops listener.old listener.new result }
{
    match listener.end() {
        Ok(()) | Err(ListenFault::Memory) => None,
        Err(ListenFault::Refused(refusal)) => Some(refusal),
    }
}

/// What a new listener shows of a whole capture.
fn hear(alloc: Global, listener: &mut Listener, bytes: &[u8]) -> Result<Heard, NoMemory>
    requires begun { Begins listener.old.listener.plan listener.old }
    requires bounded { length bytes.now ≤ 2 ^ 62 }
    ensures { IfOk result (λ heard. heard ≡ heard_of listener.old.listener.plan bytes.now) }
{
    let mut list = Vec::new(alloc);
    feed_piece(alloc, listener, bytes, &mut list)?;
    let refused = end(listener);
    give_all(listener, &mut list)?;
    Ok(Heard {
        shown: ShownList::over(list),
        counts: listener.counts(),
        refused,
    })
}

/// What a listener shows of a whole capture: the schedule of the stream's packets, the counts, and the first refusal.
/// Only the whole records before the first refusal are heard. If a `Listener` is fed the bytes and then ended, the
/// listener shows the same.
///
/// A record belongs to the stream if it is a readable Ethernet frame of AVTP whose packet has the subtype of AAF (IEEE
/// 1722-2016, 7), CVF (8) or IEC 61883. The packet's stream ID must be valid and equal to the plan's ID of the stream.
/// A record belongs to the media clock if it is a readable Ethernet frame of AVTP with a packet of CRF (IEEE 1722-2016,
/// 10). The packet's stream ID must be valid and equal to the plan's ID of the clock.
///
/// A packet of the stream is flagged as malformed if its reader refuses it. The CVF reader accepts only H.264, and the
/// IEC 61883 reader accepts only IEC 61883-6. Adjacent fragments of H.264 are put together into one unit, which has the
/// frame number and the presentation time of its last packet. If a fragment is in no whole unit, it is flagged as
/// broken or too long. Record times are read as nanoseconds of gPTP. The plan must be within the limits that
/// `ListenPlan` names.
///
/// If the talker keeps the rules, `KeepsHeadline` holds for what is shown, whatever packets of the talker and of its
/// clock a capture loses, repeats or reorders. Suppose that a packet came in time, found room, and has a known
/// timestamp or clock reference. Then the packet is presented once and in order, with each sample at the talker's own
/// nanosecond. Hence any two listeners agree if both have the talker's clock, or neither has. If a packet of the stream
/// came and is not presented, the packet is flagged with one reason. If a unit of H.264 is presented, it is one whole
/// unit of the talker.
///
/// The capture must have at most 2^62 bytes. If memory runs out, returns `NoMemory` and shows nothing.
pub fn whole(alloc: Global, plan: &ListenPlan, bytes: &[u8]) -> Result<Heard, NoMemory>
    requires plan { IsPlan (schedule_plan plan.now) }
    requires bounded { length bytes.now ≤ 2 ^ 62 }
    ensures exact { IfOk result (λ heard. heard ≡ heard_of plan.now bytes.now) }
    ensures headline { IfOk result (λ heard. (shift : ℤ) (p : PacketJournal) → HearsTalker shift p plan.now (whole_records bytes.now) → KeepsHeadline shift p plan.now (whole_records bytes.now) heard.shown) }
{
    let mut listener = Listener::begin(alloc, *plan)?;
    hear(alloc, &mut listener, bytes)
}
