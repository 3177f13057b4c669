//! Captures with records that do not belong to the stream, and captures in pieces.

ghost use Rattle.std.specs.Prelude.{◌≡◌, ◌+◌, ◌≤◌, ◌^◌, false, length, OnErr, OnOk};
ghost use Rattle.pcap_frames.specs.Reading.{taken};
ghost use Rattle.listener.specs.Feeding.{IsQuiet, is_ended};

use crate::hearing::{heard, line_of, plan_of};
use listener::{Counts, ListenFault, Listener};
use sample_schedule::Shown;
use std::alloc::Global;
use std::test::Fail;
use vectors_avtp::{bytes_of, check_rows};

/// Captures of one record, and what they count: a packet of the stream, which is presented, or none. The capture's first
/// refusal follows.
const ROWS: &str = "\
pcap => Counts { frames: 1, packets: 1, presented: 1, flagged: 0 } None
// a byte more
pcap 00 => Counts { frames: 1, packets: 1, presented: 1, flagged: 0 } Some(Refusal { field: TsSec, at: 106, short: true })
// another EtherType
pcap 57=f1 => Counts { frames: 1, packets: 0, presented: 0, flagged: 0 } None
// no byte after the EtherType
pcap 32=0e 36=0e 52=22f0 len=54 => Counts { frames: 1, packets: 0, presented: 0, flagged: 0 } None
// the longest record
pcap 32=000004 36=000004 len=40 len=262184 => Counts { frames: 1, packets: 0, presented: 0, flagged: 0 } None";

/// The counts of a capture, and its first refusal.
fn counted(alloc: Global, row: &str) -> Result<String, Fail> {
    let heard = heard(alloc, "buffer:1 room:24", &bytes_of(alloc, row)?)?;
    Ok(format!(in alloc; "{:?} {:?}", heard.counts, heard.refused)?)
}

#[test]
fn a_record_is_counted_whatever_it_holds(rt: HostRuntime) -> Result<(), Fail> {
    let alloc = rt.alloc();
    check_rows(ROWS, |row| counted(alloc, row))
}

/// Feeds a piece of a capture.
fn feed(alloc: Global, listener: &mut Listener, piece: &[u8]) -> Result<usize, ListenFault>
    requires open { is_ended listener.old ≡ false }
    requires bounded { taken listener.old.reader + length piece.now ≤ 2 ^ 62 }
    ensures open { is_ended listener.new ≡ false }
    ensures bounded { taken listener.new.reader ≤ taken listener.old.reader + length piece.now }
    ensures stopped { OnErr result (IsQuiet listener.new) }
{
    listener.feed(alloc, piece)
}

/// The fault that `end` returns, the first item that is shown, and the counts.
fn end_of(listener: &mut Listener) -> (Option<ListenFault>, Option<Shown>, Counts)
    requires open { is_ended listener.old ≡ false }
    requires quiet { IsQuiet listener.old }
{
    let at_end = listener.end().err();
    let shown = listener.next_out();
    (at_end, shown, listener.counts())
}

/// Feeds a capture in two pieces, cut at `cut`, and returns the fault that `feed` returns after the first record.
fn fault_of(
    alloc: Global,
    listener: &mut Listener,
    bytes: &[u8],
    cut: usize,
) -> Result<ListenFault, Fail>
    requires open { is_ended listener.old ≡ false }
    requires none { taken listener.old.reader ≡ 0 }
    ensures open { OnOk result (is_ended listener.new ≡ false) }
    ensures quiet { OnOk result (IsQuiet listener.new) }
{
    if bytes.len() > 1_000 || cut > bytes.len() {
        return Err(Fail::new("a long capture"));
    }
    let front = feed(alloc, listener, &bytes[..cut])?;
    let back = feed(alloc, listener, &bytes[cut..])?;
    let rest = bytes.get(front.saturating_add(back)..).unwrap_or(&[]);
    if rest.len() > 1_000 {
        return Err(Fail::new("a long capture"));
    }
    match feed(alloc, listener, rest) {
        Ok(_) => Err(Fail::new("no fault")),
        Err(fault) => Ok(fault),
    }
}

/// What a listener hears of a capture in two pieces, cut at `cut`: the first item that is shown, the counts, and the
/// faults that `feed` and `end` return after the first record.
fn hear_in_pieces(
    alloc: Global,
    listener: &mut Listener,
    bytes: &[u8],
    cut: usize,
) -> Result<String, Fail>
    requires open { is_ended listener.old ≡ false }
    requires none { taken listener.old.reader ≡ 0 }
{
    let fault = fault_of(alloc, listener, bytes, cut)?;
    let (at_end, shown, counts) = end_of(listener);
    let line = line_of(alloc, &shown.ok_or("nothing is shown")?)?;
    let faults = [Some(fault), at_end];
    Ok(format!(in alloc; "{line} {counts:?} {faults:?}")?)
}

/// What is heard of the capture, wherever it is cut.
const PIECES: &str =
    "1/0 at 1002000000 Counts { frames: 1, packets: 1, presented: 1, flagged: 0 } [Some(Refused(Refusal { field: InclLen, at: 114, short: false })), Some(Refused(Refusal { field: InclLen, at: 114, short: false }))]";

/// The capture is the first vector, followed by the header of a second record whose stated length exceeds the limit.
#[test]
fn a_capture_may_be_cut_anywhere(rt: HostRuntime) -> Result<(), Fail> {
    let bytes = bytes_of(rt.alloc(), "pcap len=122 114=01 116=04")?;
    for cut in 0..106usize {
        let mut listener = Listener::begin(rt.alloc(), plan_of(1, 24, None))?;
        let found = hear_in_pieces(rt.alloc(), &mut listener, &bytes, cut)?;
        assert!(rt; found.as_str() == PIECES, "cut at {cut}: {found}");
    }
    Ok(())
}
