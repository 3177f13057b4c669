//! What `check` finds in records.

use crate::captures::Recorded;
use avtp_packet::{read_packet, reserved, stamp_is_wrong, stream_of};
use pcap_frames::read_frame;
use sequence_track::{Findings, Seen, Tracker};
use std::alloc::Global;
use std::test::Fail;

/// `check` returns this value for a packet if nothing is found in the packet.
pub const NOTHING: Findings = Findings {
    reserved: false,
    step: None,
    hold: None,
    stamp: false,
    untracked: false,
};

fn seen_in(frame: &[u8]) -> Option<Seen> {
    let frame = read_frame(frame).ok()?;
    let packet = read_packet(frame.payload).ok()?;
    let stream = stream_of(&packet)?;
    Some(Seen {
        id: stream.id,
        subtype: stream.subtype,
        seq: stream.seq,
        mr: stream.mr,
        reserved: reserved(&packet),
        stamp_wrong: stamp_is_wrong(&packet),
    })
}

/// Whether each record holds a packet of a stream, and `check` finds nothing in any of these packets.
pub fn is_clean(alloc: Global, records: &[Recorded]) -> Result<bool, Fail> {
    let mut tracker = Tracker::begin(alloc)?;
    for record in records {
        match seen_in(&record.frame) {
            Some(seen) if tracker.note(seen) == NOTHING => {}
            _ => return Ok(false),
        }
    }
    Ok(true)
}
