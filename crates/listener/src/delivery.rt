//! Records that belong to a stream or to its clock.

ghost use Rattle.std.specs.Prelude.{◌≡◌, ◌==◌, ◌||◌, Bool, false, ℕ, Some, None, if◌then◌else◌, option_map};
ghost use Rattle.std.specs.List.{list_any};
ghost use Rattle.pcap_frames.specs.Reading.{shown};
ghost use Rattle.avtp_header.specs.declared.header.Peeked.{Peeked as PeekedFields};
ghost use Rattle.avtp_header.specs.Header.{peeked_of};
ghost use Rattle.packet_journal.specs.Deliveries.{belongs, clock_kinds, delivery, is_avtp, is_delivered, is_wanted, packet_in, stream_kinds};
ghost use Rattle.time_unfold.specs.Time.{IsArrival};
ghost use Rattle.listener.specs.Streams.{stream_packet, stream_packet_shape};
ghost use Rattle.listener.specs.state.Views.{avtp_shape, delivery_shape, is_of_clock as is_of_clock_by};

use crate::delivery_view::DeliveryView;
use crate::plan::ListenPlan;
use avtp_header::{ETHERTYPE, Peeked, peek, subtype};
use pcap_frames::{RecordView, read_frame};

/// A packet of a stream.
#[derive(Clone, Copy, Debug)]
pub struct StreamPacket<'a> {
    /// The packet's subtype: IEC 61883, AAF or CVF.
    pub subtype: u8,
    /// The AVTP packet, with all that follows it in the frame.
    pub bytes: &'a [u8],
}

/// An AVTP packet that has a stream ID, whether the ID is valid or not.
#[derive(Clone, Copy)]
pub(crate) struct AvtpPacket<'a> {
    pub peeked: Peeked,
    pub bytes: &'a [u8],
}

/// The packet in a readable Ethernet frame of AVTP, if the packet is long enough to hold a stream ID.
#[inline(always)]
fn avtp_packet(frame: &[u8]) -> Option<AvtpPacket<'_>>
    ensures { option_map avtp_shape result ≡ (if is_avtp frame.now then Some (record { peeked = peeked_of (packet_in frame.now); bytes = packet_in frame.now }) else None) }
{
    let Ok(ethernet) = read_frame(frame) else {
        return None;
    };
    if ethernet.ethertype != ETHERTYPE {
        return None;
    }
    let peeked = peek(ethernet.payload)?;
    Some(AvtpPacket {
        peeked,
        bytes: ethernet.payload,
    })
}

/// Whether a listener reads packets of this subtype as a stream: IEC 61883, AAF or CVF.
fn is_read(subtype: u8) -> bool
    ensures { result ≡ list_any (λ kind. subtype == kind) stream_kinds }
{
    matches!(subtype, subtype::IEC_61883 | subtype::AAF | subtype::CVF)
}

fn is_of_stream(stream: u64, peeked: Peeked) -> bool
    ensures { result ≡ is_wanted stream_kinds stream peeked }
{
    is_read(peeked.subtype) && peeked.sv && peeked.stream_id == stream
}

fn is_of_clock(clock: Option<u64>, peeked: Peeked) -> bool
    ensures { result ≡ is_of_clock_by clock peeked }
{
    match clock {
        Some(id) => peeked.subtype == subtype::CRF && peeked.sv && peeked.stream_id == id,
        None => false,
    }
}

/// The packet in a record's bytes, if the record belongs to the stream with the ID `stream`. The record must be a
/// readable Ethernet frame of AVTP with a packet of IEC 61883, AAF or CVF. The packet's stream ID must be valid and
/// equal to `stream`. The packet need not be well formed. A listener takes exactly these records for records of the
/// stream.
#[inline(always)]
pub fn packet_of_stream(stream: u64, frame: &[u8]) -> Option<StreamPacket<'_>>
    ensures { option_map stream_packet_shape result ≡ (if belongs stream_kinds stream frame.now then Some (stream_packet frame.now) else None) }
{
    let packet = avtp_packet(frame)?;
    if !is_of_stream(stream, packet.peeked) {
        return None;
    }
    Some(StreamPacket {
        subtype: packet.peeked.subtype,
        bytes: packet.bytes,
    })
}

/// The record as a delivery, if the record belongs to the plan's stream or to the plan's clock. The record must be a
/// readable Ethernet frame of AVTP. For the stream, the record's packet must be of IEC 61883, AAF or CVF; for the
/// clock, the packet must be of CRF. The packet must have a valid stream ID: the plan's stream ID for a packet of the
/// stream, and the plan's clock ID for a packet of the clock.
pub fn delivery_of<'a>(
    plan: &ListenPlan,
    frame: u64,
    held: &RecordView<'a>,
) -> Option<DeliveryView<'a>>
    requires { IsArrival held.now.arrival }
    ensures { option_map delivery_shape result ≡ (if is_delivered plan.now.stream plan.now.clock held.now.bytes.now then Some (delivery frame (shown held.now)) else None) }
{
    let Ok(ethernet) = read_frame(held.bytes) else {
        return None;
    };
    if ethernet.ethertype != ETHERTYPE {
        return None;
    }
    let peeked = peek(ethernet.payload)?;
    if !is_of_stream(plan.stream, peeked) && !is_of_clock(plan.clock, peeked) {
        return None;
    }
    Some(DeliveryView {
        frame,
        arrival: held.arrival,
        subtype: peeked.subtype,
        seq: peeked.seq,
        packet: ethernet.payload,
    })
}
