//! What `check` sees in a record.

ghost use Rattle.std.specs.Prelude.{◌≡◌, ◌≤◌, ◌<◌, ◌^◌, length};
ghost use Rattle.avtp_packet.specs.Packet.{packet_shape};
ghost use Rattle.avtp_packet.specs.PacketStream.{stream_of as stream_of_packet};
ghost use Rattle.avtp_text.specs.Check.{finding_texts};
ghost use Rattle.check_command.specs.Check.{checked_packet as checked_packet_of, checked_record as checked_record_of, checked_stream as checked_stream_of};

use avtp_base::Refusal;
use avtp_header::ETHERTYPE;
use avtp_packet::{Packet, read_packet, reserved, stamp_is_wrong, stream_of};
use pcap_frames::{FrameView, read_frame};
use run_report::in_frame;
use sequence_track::{Findings, Seen};

/// The result of checking one record.
#[derive(Clone, Copy, Debug)]
pub enum Checked {
    /// A frame whose EtherType is not AVTP's, or a packet of a format that is not read.
    Passed,
    /// A refused frame or packet; the refused field's offset is counted from the start of the frame.
    Malformed(Refusal),
    /// A packet whose stream ID is not valid.
    Unmarked {
        /// The packet's stream ID, which is not valid.
        id: u64,
        /// Whether a reserved bit is set.
        reserved: bool,
    },
    /// A packet with a valid stream ID.
    Marked(Seen),
}

/// Reads the bytes of a record.
#[tactic(auto, unfolding(crate::specs::Check::checked_record, crate::specs::Check::checked_frame))]
pub fn checked_record(bytes: &[u8]) -> Checked
    ensures { result ≡ checked_record_of bytes.now }
{
    match read_frame(bytes) {
        Err(refusal) => Checked::Malformed(refusal),
        Ok(frame) if frame.ethertype != ETHERTYPE => Checked::Passed,
        Ok(frame) => checked_packet(&frame),
    }
}

/// Reads the AVTP packet in a frame.
#[tactic(auto, unfolding(crate::specs::Check::checked_packet))]
fn checked_packet(frame: &FrameView<'_>) -> Checked
    requires { frame.now.start < 2 ^ 32 }
    ensures { result ≡ checked_packet_of frame.now.start frame.now.payload.now }
{
    match read_packet(frame.payload) {
        Err(refusal) => Checked::Malformed(in_frame(frame, refusal)),
        Ok(packet) => checked_stream(&packet),
    }
}

fn checked_stream(packet: &Packet<'_>) -> Checked
    ensures { result ≡ checked_stream_of (stream_of_packet (packet_shape packet.now)) (packet_shape packet.now) }
{
    let reserved = reserved(packet);
    match stream_of(packet) {
        None => Checked::Passed,
        Some(stream) if stream.sv => Checked::Marked(Seen {
            id: stream.id,
            subtype: stream.subtype,
            seq: stream.seq,
            mr: stream.mr,
            reserved,
            stamp_wrong: stamp_is_wrong(packet),
        }),
        Some(stream) => Checked::Unmarked {
            id: stream.id,
            reserved,
        },
    }
}

/// The number of findings.
pub fn count(findings: &Findings) -> u64
    ensures count { result ≡ length (finding_texts findings.now) }
    ensures few { result ≤ 5 }
{
    u64::from(findings.reserved)
        + u64::from(findings.untracked)
        + u64::from(findings.step.is_some())
        + u64::from(findings.hold.is_some())
        + u64::from(findings.stamp)
}
