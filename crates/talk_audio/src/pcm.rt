//! The packets of a PCM stream (IEEE 1722-2016, 7).

ghost use Rattle.std.specs.Prelude.{◌≡◌, ◌+◌, ◌*◌, ◌≤◌, ◌<◌, ◌^◌, ◌++◌, [], length, pos, take, drop, Option, Some, None};
ghost use Rattle.aaf_format.specs.Aaf.{aaf_shape, frame_size as frame_size_of};
ghost use Rattle.talk_audio.specs.Packets.{aaf_bytes, aaf_packet, kind_of, stamp_of};
ghost use Rattle.talk_audio.specs.state.Packets.{CanPatch, IsPcmOf, IsPcmPacket, IsPlanWith, front_of, patched};
ghost use Rattle.talk_plan.specs.Places.{IsSentAt};
ghost use Rattle.talk_plan.specs.Plan.{rate_code as rate_code_of};
ghost use Rattle.talk_audio.specs.Streams.{HasHeaders, IsPcmStream};

use crate::audio::SAMPLES_LIMIT;
use aaf_format::{AafFormat, AafView, width_of, write_aaf};
use avtp_header::{StreamHeader, subtype};
use talk_plan::{ETHERNET_HEADER, TalkKind, TalkPlan, write_ethernet};

/// The values that a plan of PCM fixes for all packets.
#[derive(Clone, Copy, Debug)]
pub struct PcmFormat {
    pub format: AafFormat,
    /// Whether only one packet in eight is stamped.
    pub sparse: bool,
    /// Whether each packet is stamped and the media clock never restarts.
    pub steady: bool,
    /// The code of the sample rate.
    pub code: u8,
    /// The Ethernet header and the packet header of packet 0's frame, which are encoded once and adapted for each
    /// frame. The headers of other frames differ only in the packet's first four bytes and in its timestamp. In a
    /// steady stream, the headers differ only in the sequence number and the timestamp.
    pub headers: [u8; HEADERS],
}

/// The length of the header of a packet (IEEE 1722-2016, 7).
pub(crate) const PCM_HEADER: usize = 24;

/// The length of both headers of a frame.
const HEADERS: usize = ETHERNET_HEADER + PCM_HEADER;

/// The code of a sample rate in Hz, if AAF has one.
fn rate_code(rate: u32) -> Option<u8>
    ensures { result ≡ rate_code_of rate }
{
    Some(match rate {
        8_000 => 1,
        16_000 => 2,
        32_000 => 3,
        44_100 => 4,
        48_000 => 5,
        88_200 => 6,
        96_000 => 7,
        176_400 => 8,
        192_000 => 9,
        24_000 => 10,
        _ => return None,
    })
}

/// The first four bytes of a packet's header: its subtype, its flag bits, its sequence number, and whether its
/// timestamp is uncertain.
fn front_bytes(header: &StreamHeader) -> [u8; 4]
    ensures { result ≡ front_of header.now }
{
    [
        header.subtype,
        128 * u8::from(header.sv) + 8 * u8::from(header.mr) + u8::from(header.tv),
        header.seq,
        u8::from(header.tu),
    ]
}

/// Writes `N` bytes at an offset. The compiler knows `N`, so it moves the bytes without a call.
#[inline(always)]
fn put_bytes<const N: usize>(out: &mut [u8], offset: usize, bytes: &[u8; N])
    requires { offset + N ≤ length out.old }
    ensures { out.new ≡ take offset out.old ++ (bytes.now ++ drop (offset + N) out.old) }
{
    let (_, behind) = out.split_at_mut(offset);
    let Some(place) = behind.first_chunk_mut() else {
        unreachable!()
    };
    *place = *bytes;
}

/// Samples are moved in two parts of this many bytes each.
const PART: usize = 16;

/// Copies samples to a slice of the same length. Most packets have 16 to 32 bytes of samples. Samples of 16 to 32 bytes
/// are moved as two parts, which can overlap, so no call is needed. A move becomes a call if the compiler does not know
/// the move's length.
#[inline(always)]
fn copy_samples(out: &mut [u8], samples: &[u8])
    requires { length out.old ≡ length samples.now }
    ensures { out.new ≡ samples.now }
{
    match (samples.first_chunk::<PART>(), samples.last_chunk::<PART>()) {
        (Some(first), Some(last)) if samples.len() <= 2 * PART => {
            put_bytes(out, 0, first);
            put_bytes(out, samples.len() - PART, last);
        }
        _ => out.copy_from_slice(samples),
    }
}

impl PcmFormat {
    /// The format of a plan of PCM.
    pub fn of(plan: &TalkPlan, format: AafFormat, sparse: bool) -> Self
        requires { IsPlanWith plan.now (TalkKind.Aaf format sparse) }
        ensures { IsPcmStream result plan.now }
    {
        let Some(code) = rate_code(plan.rate) else {
            unreachable!()
        };
        let pcm = PcmFormat {
            format,
            sparse,
            steady: !sparse && plan.restart.is_none(),
            code,
            headers: [0; HEADERS],
        };
        PcmFormat {
            headers: pcm.first_headers(plan),
            ..pcm
        }
    }

    /// The headers of packet 0's frame.
    fn first_headers(&self, plan: &TalkPlan) -> [u8; HEADERS]
        requires { IsPcmOf self.now plan.now }
        ensures { HasHeaders result (aaf_packet self.now.format self.now.sparse plan.now 0 []) }
    {
        let samples = [0; SAMPLES_LIMIT];
        let size = plan.count as usize * self.frame_size(plan.channels);
        let stamp = self.stamp(plan, 0, plan.arrival(0));
        let view = AafView {
            header: plan.header(subtype::AAF, stamp, 0, size as u16),
            format: self.format,
            nsr: self.code,
            channels: plan.channels,
            depth: (8 * width_of(self.format)) as u8,
            sparse: self.sparse,
            evt: 0,
            count: plan.count,
            payload: &samples[..size],
            reserved: false,
        };
        let mut packet = [0; PCM_HEADER + SAMPLES_LIMIT];
        let Ok(_) = write_aaf(&mut packet, &view) else {
            unreachable!()
        };
        let mut headers = [0; HEADERS];
        let (ethernet, header) = headers.split_at_mut(ETHERNET_HEADER);
        write_ethernet(ethernet);
        header.copy_from_slice(&packet[..PCM_HEADER]);
        headers
    }

    /// The number of bytes in a sample frame.
    pub fn frame_size(&self, channels: u16) -> usize
        ensures { result ≡ frame_size_of channels self.now.format }
    {
        usize::from(channels) * width_of(self.format) as usize
    }

    /// The instant in the timestamp of packet `n`, which is sent at `arrival`. In sparse mode, one packet in eight has
    /// a timestamp (IEEE 1722-2016, 7).
    fn stamp(&self, plan: &TalkPlan, n: u64, arrival: i64) -> Option<u64>
        requires { IsSentAt plan.now n arrival }
        ensures { result ≡ stamp_of (kind_of self.now.sparse) plan.now n }
    {
        if self.sparse && n % 8 != 0 {
            None
        } else {
            Some(plan.first_stamped_instant(n, arrival))
        }
    }

    /// Writes the frame of packet `n`, which is sent at `arrival`, with its samples.
    #[inline(always)]
    pub fn write(&self, plan: &TalkPlan, out: &mut [u8], n: u64, arrival: i64, samples: &[u8])
        requires { IsPcmPacket self.now plan.now n arrival samples.now out.old }
        ensures { out.new ≡ aaf_bytes self.now.format self.now.sparse plan.now n samples.now }
    {
        if self.steady {
            let instant = plan.first_stamped_instant(n, arrival);
            self.write_over(
                out,
                2,
                &[(n % 256) as u8],
                (instant % (1 << 32)) as u32,
                samples,
            );
        } else {
            self.write_marked(plan, out, n, arrival, samples);
        }
    }

    /// Writes the frame of packet `n` of any stream, steady or not. This function is kept out of line.
    #[cold]
    #[inline(never)]
    fn write_marked(&self, plan: &TalkPlan, out: &mut [u8], n: u64, arrival: i64, samples: &[u8])
        requires { IsPcmPacket self.now plan.now n arrival samples.now out.old }
        ensures { out.new ≡ aaf_bytes self.now.format self.now.sparse plan.now n samples.now }
    {
        let stamp = self.stamp(plan, n, arrival);
        let header = plan.header(subtype::AAF, stamp, n, samples.len() as u16);
        self.write_over(out, 0, &front_bytes(&header), header.timestamp, samples);
    }

    /// Writes a frame: the headers of packet 0's frame with two changes, and then the samples. In the packet's header,
    /// `part` replaces the bytes at offset `at`, and the given timestamp replaces the timestamp.
    #[inline(always)]
    fn write_over<const N: usize>(
        &self,
        out: &mut [u8],
        at: usize,
        part: &[u8; N],
        timestamp: u32,
        samples: &[u8],
    )
        requires { CanPatch self.now.headers at N samples.now out.old }
        ensures { out.new ≡ take 18 self.now.headers ++ (patched (drop 18 self.now.headers) at part.now timestamp ++ samples.now) }
    {
        let (headers, behind) = out.split_at_mut(out.len() - samples.len());
        put_bytes(headers, 0, &self.headers);
        put_bytes(headers, ETHERNET_HEADER + at, part);
        put_bytes(headers, ETHERNET_HEADER + 12, &timestamp.to_be_bytes());
        copy_samples(behind, samples);
    }
}
