//! Measures a listener by itself.

ghost use Rattle.std.specs.Prelude.{◌≡◌, ◌+◌, ◌≤◌, ◌^◌, false, length, OnOk};
ghost use Rattle.pcap_frames.specs.Reading.{taken};
ghost use Rattle.listener.specs.Feeding.{IsQuiet, IsReady, Keeps, is_ended};

use crate::capture::{STREAM, capture};
use crate::timed::Timed;
use listener::{ListenFault, ListenPlan, Listener};
use sample_schedule::Shown;
use std::alloc::Global;
use std::time::{Clock, Instant};

const PLAN: ListenPlan = ListenPlan {
    stream: STREAM,
    clock: None,
    buffer: 4_096,
    room: 67_108_864,
    look: 0,
    lead: 2_000_000,
    shift: 0,
};

/// The number of bytes in a piece of a capture.
const PIECE: usize = 65_536;

/// The maximum number of bytes in a capture.
const MOST: usize = 1 << 40;

/// Listens to the first of several streams in a capture. The capture is made before the measurement starts.
pub fn hear<C: Clock>(clock: &C, alloc: Global, streams: u32, packets: u32) -> Option<Timed>
    requires some { 1 ≤ streams }
    requires most { streams ≤ 65536 }
{
    let capture = capture(alloc, streams, packets)?;
    if capture.len() > MOST {
        return None;
    }
    let mut listener = Listener::begin(alloc, PLAN).ok()?;
    time_hearing(clock, alloc, &mut listener, &capture)
}

/// Measures how long a new listener takes for a capture, and counts the batches that are presented.
fn time_hearing<C: Clock>(
    clock: &C,
    alloc: Global,
    listener: &mut Listener,
    capture: &[u8],
) -> Option<Timed>
    requires open { is_ended listener.old ≡ false }
    requires ready { IsReady listener.old }
    requires bounded { taken listener.old.reader + length capture.now ≤ 2 ^ 62 }
{
    let start = Instant::now(clock).ok()?;
    let presented = hear_all(alloc, listener, capture).ok()?;
    let nanoseconds = u64::try_from(start.elapsed(clock).ok()?.as_nanos()).ok()?;
    Some(Timed {
        count: presented,
        nanoseconds,
    })
}

/// Feeds a capture in pieces, and counts the batches that are presented.
fn hear_all(alloc: Global, listener: &mut Listener, capture: &[u8]) -> Result<u64, ListenFault>
    requires open { is_ended listener.old ≡ false }
    requires ready { IsReady listener.old }
    requires bounded { taken listener.old.reader + length capture.now ≤ 2 ^ 62 }
{
    let mut presented = 0;
    let mut used = 0;
    while used < capture.len() {
        let end = used + PIECE.min(capture.len() - used);
        feed(alloc, listener, &capture[used..end], &mut presented)?;
        used = end;
    }
    listener.end()?;
    drain(listener, &mut presented);
    Ok(presented)
}

/// Feeds a piece, and counts the batches that are presented.
fn feed(
    alloc: Global,
    listener: &mut Listener,
    piece: &[u8],
    presented: &mut u64,
) -> Result<(), ListenFault>
    requires open { is_ended listener.old ≡ false }
    requires ready { IsReady listener.old }
    requires bounded { taken listener.old.reader + length piece.now ≤ 2 ^ 62 }
    ensures open { OnOk result (is_ended listener.new ≡ false) }
    ensures ready { OnOk result (IsReady listener.new) }
    ensures bounded { OnOk result (taken listener.new.reader ≤ taken listener.old.reader + length piece.now) }
{
    let mut used = 0;
    while used < piece.len() {
        let taken = listener.feed(alloc, &piece[used..])?;
        drain(listener, presented);
        used += taken;
    }
    Ok(())
}

/// Takes all items that are due, counts the batches among them, and gives their memory back.
#[inline(always)]
fn drain(listener: &mut Listener, presented: &mut u64)
    ensures quiet { IsQuiet listener.new }
    ensures keeps { Keeps listener.old listener.new }
{
    while let Some(shown) = listener.next_out() {
        if let Shown::Present(batch) = shown {
            *presented = presented.saturating_add(1);
            listener.give_back(batch.bytes);
        }
    }
}
