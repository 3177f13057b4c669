//! What is found in the packets of small streams.

use sequence_track::{Seen, Tracker};
use std::alloc::{AllocError, Global};
use std::test::Fail;
use vectors_avtp::check_rows;

/// Notes a packet without a finding of its own, or, if `wrong` is true, a packet with both a reserved bit and a wrong
/// timestamp. The text has what is found in the packet.
fn noted(
    alloc: Global,
    tracker: &mut Tracker,
    stream: (u64, u8),
    seq: u8,
    mr: bool,
    wrong: bool,
) -> Result<String, Fail> {
    let (id, subtype) = stream;
    let found = tracker.note(Seen {
        id,
        subtype,
        seq,
        mr,
        reserved: wrong,
        stamp_wrong: wrong,
    });
    let reserved = if found.reserved { " reserved" } else { "" };
    let stamp = if found.stamp { " stamp" } else { "" };
    let untracked = if found.untracked { " untracked" } else { "" };
    let step = number_text(alloc, "step", found.step.map(u32::from))?;
    let hold = number_text(alloc, "hold", found.hold)?;
    Ok(format!(in alloc; "{reserved}{step}{hold}{stamp}{untracked}")?)
}

/// A number that was found, after its name.
fn number_text(alloc: Global, name: &str, found: Option<u32>) -> Result<String, AllocError> {
    match found {
        Some(number) => format!(in alloc; " {name} {number}"),
        None => Ok(String::new(alloc)),
    }
}

/// Streams, each with its packets in order, and what is found in each packet. A packet has its sequence
/// number, then `m` if its restart bit is set, and `!` if it has both a reserved bit and a wrong timestamp. `step` is
/// the step of the sequence number, unless that step is 1. If the restart bit changes at a packet after fewer than
/// eight packets with the previous value, `hold` is the number of those packets, unless the stream began with the
/// previous value of the restart bit.
const STREAMS: &str = "\
// Each finding by itself, and all findings together. The first change of the restart bit is no finding, because the
// value before it began with the stream. The restart bit then keeps its second value for four packets, and its third
// value for one packet.
0, 1m, 2m!, 2m, 3m!, 4, 3m! => ;; reserved stamp; step 0; reserved stamp; hold 4; reserved step 255 hold 1 stamp;
// The step is counted modulo 256.
254, 255, 0, 1, 0, 128, 127, 1, 2 => ;;;; step 255; step 128; step 255; step 130;;
// The restart bit is kept for seven packets.
0, 1m, 2m, 3m, 4m, 5m, 6m, 7m, 8 => ;;;;;;;; hold 7;
// The restart bit is kept for eight packets.
0, 1m, 2m, 3m, 4m, 5m, 6m, 7m, 8m, 9 => ;;;;;;;;;;";

/// What is found in each packet of a stream.
fn noted_of(alloc: Global, row: &str) -> Result<String, Fail> {
    let mut tracker = Tracker::begin(alloc)?;
    let mut text = String::new(alloc);
    for packet in row.split(", ") {
        let (mr, wrong) = (packet.contains('m'), packet.contains('!'));
        let seq = packet.trim_end_matches('!').trim_end_matches('m').parse()?;
        text.push_str(&noted(alloc, &mut tracker, (7, 2), seq, mr, wrong)?)?;
        text.push_str(";")?;
    }
    Ok(text)
}

#[test]
fn each_packet_has_the_findings_of_its_stream(rt: HostRuntime) -> Result<(), Fail> {
    let alloc = rt.alloc();
    check_rows(STREAMS, |row| noted_of(alloc, row))
}

/// Each stream ID has two streams, with different subtypes. No packet of the 1,025th stream is tracked. The first 1,024
/// streams stay tracked.
#[test]
fn the_first_1024_subtypes_with_ids_are_tracked(rt: HostRuntime) -> Result<(), Fail> {
    let alloc = rt.alloc();
    let mut tracker = Tracker::begin(alloc)?;
    let mut found = String::new(alloc);
    for place in 0..1_024u64 {
        let stream = (place / 2, if place % 2 == 0 { 2 } else { 3 });
        let text = noted(
            alloc,
            &mut tracker,
            stream,
            (place % 251) as u8,
            false,
            false,
        )?;
        if !text.is_empty() {
            found.push_str(&format!(in alloc; "stream {place}{text}, ")?)?;
        }
    }
    found.push_str(&format!(in alloc; "{} streams", tracker.streams())?)?;
    for (id, seq, wrong) in [(1_024, 0, true), (1_024, 9, true), (0, 2, false)] {
        let text = noted(alloc, &mut tracker, (id, 2), seq, false, wrong)?;
        found.push_str(&format!(in alloc; ", {id}/{seq}{text}")?)?;
    }
    found.push_str(&format!(in alloc; ", {} streams", tracker.streams())?)?;
    assert!(rt;
        found.as_str()
            == "1024 streams, 1024/0 reserved untracked, 1024/9 reserved untracked, 0/2 step 2, 1024 streams",
        "{found}"
    );
    Ok(())
}
