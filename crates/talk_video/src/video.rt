//! The packets of an H.264 stream (IEEE 1722-2016, 8).

ghost use Rattle.std.specs.Prelude.{◌≡◌, ◌+◌, ◌-◌, ◌*◌, ◌^◌, ◌<◌, ◌≤◌, nat_le, length, pos, Option, Some, None, IfOk, IfErr};
ghost use Rattle.cvf_format.specs.AnnexB.{nal_units};
ghost use Rattle.cvf_format.specs.Cvf.{cvf_shape, cvf_spelling, header_size};
ghost use Rattle.packet_journal.specs.Packets.{H264Data};
ghost use Rattle.talk_plan.specs.declared.fault.TalkFault.TheVariants.{Memory};
ghost use Rattle.talk_video.specs.Fragments.{access_unit_of, body_by, ends_access_unit as ends_access_unit_of, packets_for, part_by, rest_in};
ghost use Rattle.talk_plan.specs.Ethernet.{packet_bytes};
ghost use Rattle.talk_video.specs.state.Listing.{HasAccessUnit, IsCarried, IsFragmentAt, IsFullPart, IsUnitAt};
ghost use Rattle.talk_video.specs.Streams.{IsPacketOfVideo, IsVideoOf, SendsVideo, video_packet};
ghost use Rattle.talk_video.specs.Video.{access_instant, stamp_by, video_arrival};

use crate::units::{NalUnit, list_units};
use avtp_base::NoMemory;
use avtp_base::octets::bits_at;
use avtp_header::subtype;
use cvf_format::{CvfView, NalPart, fragments, write_cvf};
use std::alloc::Global;
use talk_plan::{ETHERNET_HEADER, TalkFault, TalkPlan, write_ethernet};

/// A plan of an H.264 stream, with the byte stream and its NAL units.
#[derive(Debug, Drop)]
pub struct VideoStream<'a> {
    pub plan: TalkPlan,
    /// Whether each NAL unit is stamped only on its last fragment.
    pub last_stamp: bool,
    pub input: &'a [u8],
    pub units: Vec<NalUnit>,
    /// The number of packets.
    pub packets: u64,
}

/// The number of bytes of a NAL unit in each of its fragments except the last fragment. The unit's first byte is not
/// counted.
const FULL_BODY: usize = 1398;

/// How many bytes of a packet are not counted in the packet's stated length.
const UNCOUNTED: usize = 24;

/// The number of counted bytes before the body: the H.264 timestamp, and the headers of `part`. The packet's stated
/// length counts the H.264 timestamp, the headers of `part`, and the body.
fn counted_header(part: NalPart) -> usize
    ensures { result ≡ header_size part - 24 }
{
    match part {
        NalPart::Single => 5,
        NalPart::First | NalPart::Middle | NalPart::Last => 6,
    }
}

/// Fragment `k` of `rest`, the bytes of a unit after its first byte.
fn fragment(rest: &[u8], k: usize) -> &[u8]
    requires { k * 1398 ≤ length rest.now }
    ensures { IsFullPart rest.now k result.now }
{
    let behind = &rest[k * FULL_BODY..];
    if behind.len() < FULL_BODY {
        behind
    } else {
        &behind[..FULL_BODY]
    }
}

impl NalUnit {
    /// Whether packet `n` carries the whole unit, or the first, a middle or the last fragment of the unit.
    #[tactic(auto, unfolding(crate::specs::Fragments::part_by))]
    fn part(&self, n: u64) -> NalPart
        requires { IsFragmentAt self.now n }
        ensures { result ≡ part_by (packets_for (self.now.from, self.now.to)) (n - self.now.first) }
    {
        let packets = u64::from(fragments(self.to - self.from));
        let k = n - self.first;
        if packets == 1 {
            NalPart::Single
        } else if k == 0 {
            NalPart::First
        } else if k + 1 == packets {
            NalPart::Last
        } else {
            NalPart::Middle
        }
    }

    /// The bytes that packet `n` carries of the unit, not counting the unit's first byte.
    fn body<'a>(&self, bytes: &'a [u8], n: u64) -> &'a [u8]
        requires { IsCarried bytes.now self.now n }
        ensures value { result.now
            ≡ body_by (part_by (packets_for (self.now.from, self.now.to)) (n - self.now.first)) (n - self.now.first) (rest_in bytes.now (self.now.from, self.now.to)) }
        ensures short { length result.now ≤ 1399 }
    {
        let rest = &bytes[self.from + 1..self.to];
        match self.part(n) {
            NalPart::Single => rest,
            NalPart::First | NalPart::Middle | NalPart::Last => {
                fragment(rest, (n - self.first) as usize)
            }
        }
    }
}

impl<'a> VideoStream<'a> {
    /// The stream of H.264 for a plan and for a byte stream that has no fault.
    pub fn of(
        alloc: Global,
        plan: TalkPlan,
        last_stamp: bool,
        input: &'a [u8],
    ) -> Result<Self, TalkFault>
        requires { SendsVideo plan last_stamp input.now }
        ensures made { IfOk result (IsVideoOf plan input.now) }
        ensures only { IfErr result (λ fault. fault ≡ Memory) }
    {
        match list_units(alloc, input) {
            Ok((units, packets)) => Ok(VideoStream {
                plan,
                last_stamp,
                input,
                units,
                packets,
            }),
            Err(NoMemory) => Err(TalkFault::Memory),
        }
    }

    /// The unit that packet `n` carries. A binary search finds the last unit whose first packet is at most `n`.
    fn unit_of(&self, n: u64) -> NalUnit
        requires { IsPacketOfVideo self.now n }
        ensures { IsUnitAt self.now n result }
    {
        let place = self.units.as_slice().partition_point(
            |unit: &NalUnit| -> bool
                ensures { result ≡ nat_le unit.now.first n }
            { unit.first <= n },
        ) - 1;
        self.units[place]
    }

    /// The instant of an access unit, in nanoseconds of gPTP.
    #[tactic(auto, unfolding(crate::specs::Video::access_instant))]
    fn instant(&self, access_unit: u64) -> u64
        requires { HasAccessUnit self.now access_unit }
        ensures { result ≡ access_instant self.now.plan access_unit }
    {
        self.plan.start as u64
            + u64::from(self.plan.lead)
            + access_unit * 1_000_000_000 / u64::from(self.plan.rate)
    }

    /// When packet `n` is sent, in nanoseconds of gPTP.
    #[tactic(auto, unfolding(crate::specs::Video::access_instant))]
    #[cold]
    #[inline(never)]
    pub fn arrival(&self, n: u64) -> i64
        requires { IsPacketOfVideo self.now n }
        ensures { result ≡ pos (video_arrival self.now.plan self.now.input.now (nal_units self.now.input.now) n) }
    {
        (self.instant(self.unit_of(n).access_unit) - u64::from(self.plan.lead)) as i64
    }

    /// The instant in the timestamp of a packet that carries `part` of a unit, if the packet is stamped.
    fn stamp(&self, part: NalPart, instant: u64) -> Option<u64>
        ensures { result ≡ stamp_by self.now.last_stamp part instant }
    {
        match part {
            NalPart::First | NalPart::Middle if self.last_stamp => None,
            _ => Some(instant),
        }
    }

    /// Whether packet `n`, which carries `unit` or a fragment of it, is the last packet of its access unit.
    fn ends_access_unit(&self, n: u64, unit: NalUnit) -> bool
        requires { IsUnitAt self.now n unit }
        ensures { result ≡ ends_access_unit_of self.now.input.now (nal_units self.now.input.now) n }
    {
        n + 1 == self.packets || self.unit_of(n + 1).access_unit != unit.access_unit
    }

    /// Packet `n`.
    fn packet(&self, n: u64) -> CvfView<'a>
        requires { IsPacketOfVideo self.now n }
        ensures { cvf_shape result ≡ video_packet self.now n }
    {
        let unit = self.unit_of(n);
        let part = unit.part(n);
        let body = unit.body(self.input, n);
        let instant = self.instant(unit.access_unit);
        let stamp = self.stamp(part, instant);
        let length = (counted_header(part) + body.len()) as u16;
        CvfView {
            header: self.plan.header(subtype::CVF, stamp, n, length),
            ptv: true,
            marker: self.ends_access_unit(n, unit),
            evt: 0,
            h264_timestamp: (instant % (1 << 32)) as u32,
            nal: bits_at(self.input, unit.from, 0, 8),
            part,
            body,
            reserved: false,
        }
    }

    /// The length of the frame of packet `n`.
    #[cold]
    #[inline(never)]
    pub fn frame_size(&self, n: u64) -> usize
        requires { IsPacketOfVideo self.now n }
        ensures { result ≡ length (packet_bytes (H264Data (video_packet self.now n))) }
    {
        let unit = self.unit_of(n);
        let body = unit.body(self.input, n);
        ETHERNET_HEADER + UNCOUNTED + counted_header(unit.part(n)) + body.len()
    }

    /// Writes the frame of packet `n`.
    #[tactic(auto, using(talk_plan::proofs::HeaderLemmas::bytes_size), unfolding(talk_plan::specs::Ethernet::packet_bytes))]
    #[cold]
    #[inline(never)]
    pub fn write(&self, out: &mut [u8], n: u64)
        requires packet { IsPacketOfVideo self.now n }
        requires room { length out.old ≡ length (packet_bytes (H264Data (video_packet self.now n))) }
        ensures { out.new ≡ packet_bytes (H264Data (video_packet self.now n)) }
    {
        write_ethernet(&mut out[..ETHERNET_HEADER]);
        let Ok(_) = write_cvf(&mut out[ETHERNET_HEADER..], &self.packet(n)) else {
            unreachable!()
        };
    }
}
