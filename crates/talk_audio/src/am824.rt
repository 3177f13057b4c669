//! The packets of an AM824 stream (IEC 61883-6, in AVTP by IEEE 1722-2016, 5).

ghost use Rattle.std.specs.Prelude.{◌≡◌, ◌+◌, ◌*◌, ◌≤◌, ◌<◌, ◌^◌, length, Option, Some, None};
ghost use Rattle.iec61883_format.specs.Iec.{block_size as block_size_of, iec_shape};
ghost use Rattle.packet_journal.specs.Packets.{Am824Data};
ghost use Rattle.talk_audio.specs.Audio.{silent_quadlets as silent_quadlets_of};
ghost use Rattle.talk_plan.specs.Ethernet.{packet_bytes};
ghost use Rattle.talk_audio.specs.Packets.{am824_kind, dbc_of, iec_packet, stamp_of};
ghost use Rattle.talk_plan.specs.Places.{IsPacketOf};
ghost use Rattle.talk_plan.specs.Plan.{fdf_of as fdf_of_rate};
ghost use Rattle.talk_audio.specs.Streams.{IsAm824};
ghost use Rattle.talk_audio.specs.state.Packets.{IsAm824Packet, IsBlockPacket, IsPlanWith};

use crate::audio::SAMPLES_LIMIT;
use avtp_header::subtype;
use byteorder::{BigEndian, ByteOrder};
use iec61883_format::{Cip, IecView, anchor_index, syt_interval, write_iec};
use talk_plan::{ETHERNET_HEADER, TalkKind, TalkPlan, write_ethernet};

/// The values that a plan of AM824 fixes for all packets.
#[derive(Clone, Copy, Debug)]
pub struct Am824Format {
    /// The code of the sample rate.
    pub fdf: u8,
    /// SYT_INTERVAL: one data block in this many is stamped.
    pub interval: u32,
}

/// The length of the header of a packet, with the CIP header (IEEE 1722-2016, 5; IEC 61883-1).
pub(crate) const BLOCKS_HEADER: usize = 32;

/// The quadlet of silence: the label of linear audio of 24 bits, and the value 0 (IEC 61883-6).
const SILENT: u32 = 0x4000_0000;

/// The code of a sample rate in Hz, if IEC 61883-6 has one.
fn fdf_of(rate: u32) -> Option<u8>
    ensures { result ≡ fdf_of_rate rate }
{
    Some(match rate {
        32_000 => 0,
        44_100 => 1,
        48_000 => 2,
        88_200 => 3,
        96_000 => 4,
        176_400 => 5,
        192_000 => 6,
        _ => return None,
    })
}

/// The number of bytes in a data block, which has one quadlet for each channel.
pub(crate) fn block_size(channels: u16) -> usize
    ensures { result ≡ block_size_of channels }
{
    4 * usize::from(channels)
}

/// Quadlets of silence, enough for a packet of any format.
#[tactic(auto, unfolding(crate::specs::Audio::silent_quadlets))]
pub(crate) fn silent_quadlets() -> [u8; SAMPLES_LIMIT]
    ensures { result ≡ silent_quadlets_of 369 }
{
    let mut bytes = [0; SAMPLES_LIMIT];
    BigEndian::write_u32_into(&[SILENT; SAMPLES_LIMIT / 4], &mut bytes);
    bytes
}

/// The block count, modulo 256, of the first data block of packet `n`.
fn block_count(plan: &TalkPlan, n: u64) -> u8
    requires { n * plan.now.count ≤ 2 ^ 28 }
    ensures { result ≡ dbc_of plan.now n }
{
    (n * u64::from(plan.count) % 256) as u8
}

impl Am824Format {
    /// The format of a plan of AM824.
    pub fn of(plan: &TalkPlan) -> Self
        requires { IsPlanWith plan.now TalkKind.Am824 }
        ensures { IsAm824 result plan.now }
    {
        let Some(fdf) = fdf_of(plan.rate) else {
            unreachable!()
        };
        let Some(interval) = syt_interval(fdf) else {
            unreachable!()
        };
        Am824Format { fdf, interval }
    }

    /// The instant in the timestamp of packet `n`: the instant of the packet's first block whose count is a multiple of
    /// the interval. If no block count in a packet is a multiple of the interval, the packet has no timestamp (IEC
    /// 61883-6).
    fn stamp(&self, plan: &TalkPlan, n: u64) -> Option<u64>
        requires { IsAm824Packet self.now plan.now n }
        ensures { result ≡ stamp_of (am824_kind plan.now) plan.now n }
    {
        let stamped = anchor_index(block_count(plan, n), self.interval);
        if stamped < plan.count {
            Some(plan.stamped_instant(n, stamped))
        } else {
            None
        }
    }

    /// Writes the frame of packet `n`, with its data blocks.
    #[tactic(auto, unfolding(talk_plan::specs::Ethernet::packet_bytes))]
    #[inline(never)]
    pub fn write(&self, plan: &TalkPlan, out: &mut [u8], n: u64, blocks: &[u8])
        requires { IsBlockPacket self.now plan.now n blocks.now out.old }
        ensures { out.new ≡ packet_bytes (Am824Data (iec_packet plan.now n blocks.now)) }
    {
        let length = 8 + blocks.len() as u16;
        let packet = IecView {
            header: plan.header(subtype::IEC_61883, self.stamp(plan, n), n, length),
            gateway_info: 0,
            channel: 31,
            tcode: 0xa,
            sy: 0,
            cip: Cip {
                sid: 63,
                dbs: plan.channels,
                dbc: block_count(plan, n),
                fdf: self.fdf,
                syt: 0xffff,
            },
            count: plan.count,
            payload: blocks,
            reserved: false,
        };
        write_ethernet(&mut out[..ETHERNET_HEADER]);
        let Ok(_) = write_iec(&mut out[ETHERNET_HEADER..], &packet) else {
            unreachable!()
        };
    }
}
