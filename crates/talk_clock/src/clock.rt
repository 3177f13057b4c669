//! The packets of a media clock (IEEE 1722-2016, 10).

ghost use Rattle.std.specs.Prelude.{◌≡◌, ◌+◌, ◌*◌, ◌/◌, ◌≤◌, ◌<◌, ◌^◌, ℕ, List, flat_map, length, pos, take, Option, Some, None};
ghost use Rattle.byteorder.specs.Endian.{big_bytes};
ghost use Rattle.crf_format.specs.Crf.{crf_shape, crf_spelling};
ghost use Rattle.talk_clock.specs.Clock.{clock_arrival, clock_mr, clock_packet, clock_packets, clock_point, first_point, frame_at, points_for, points_in};
ghost use Rattle.talk_clock.specs.Clock.{AreFew, clock_frame_size, clock_bytes};
ghost use Rattle.talk_plan.specs.Plan.{IsAudioPlan};
ghost use Rattle.talk_clock.specs.Streams.{IsClockOf, IsClockStream, IsPacketOfClock, IsPointOfClock};
ghost use Rattle.talk_clock.specs.state.Points.{HasTimestamps, IsFirstPoint, IsInstantOf, IsPlaceOf, IsSizeOf, TakesPoints, TakesTimestamps};

use byteorder::{BigEndian, ByteOrder};
use crf_format::{CrfView, write_crf};
use talk_plan::{CrfPlan, ETHERNET_HEADER, TalkPlan, write_ethernet};

/// The media clock of a plan. The clock is sent with a stream of `stream` packets. The clock's points are counted
/// through the whole stream, including points at sample frames that only fill up the last packet. The sample frame of
/// point s is s times the spacing. Each restart is at the beginning of a clock packet, so a restart does not change the
/// sample frames of points.
#[derive(Clone, Copy, Debug)]
pub struct ClockStream {
    pub plan: TalkPlan,
    pub crf: CrfPlan,
    /// The number of packets of the stream.
    pub stream: u64,
}

/// The length in bytes of the header of a clock packet.
const CRF_HEADER: usize = 20;

/// The length in bytes of a timestamp.
const TIMESTAMP: usize = 8;

/// The maximum number of points of a packet.
const POINTS_LIMIT: usize = 180;

/// The type of a clock whose events are audio samples.
const AUDIO_SAMPLE: u8 = 1;

impl ClockStream {
    /// The clock that a plan sends with a stream of this many packets; `None` if the plan has no clock.
    pub fn of(plan: TalkPlan, stream: u64) -> Option<Self>
        requires plan { IsAudioPlan plan }
        requires few { AreFew plan stream }
        ensures { IsClockOf result plan stream }
    {
        match plan.crf {
            None => None,
            Some(crf) => Some(ClockStream { plan, crf, stream }),
        }
    }

    /// The number of points of the clock.
    #[tactic(auto, using(crate::proofs::ClockLemmas::few_frames))]
    fn points(&self) -> u64
        requires { IsClockStream self.now }
        ensures { result ≡ points_for self.now.crf self.now.plan self.now.stream }
    {
        (self.stream * u64::from(self.plan.count)).div_ceil(self.plan.spacing(&self.crf))
    }

    /// The number of packets of the clock.
    pub fn packets(&self) -> u64
        requires { IsClockStream self.now }
        ensures { result ≡ clock_packets self.now.crf self.now.plan self.now.stream }
    {
        self.points().div_ceil(u64::from(self.crf.points))
    }

    /// The number of the first point of packet `m`.
    fn first(&self, m: u64) -> u64
        requires { IsPacketOfClock self.now m }
        ensures { IsFirstPoint self.now m result }
    {
        m * u64::from(self.crf.points)
    }

    /// Where point `s` is: the number of a stream packet, and which of the packet's sample frames the point is at.
    #[tactic(auto, using(crate::proofs::ClockLemmas::point_within))]
    fn place(&self, s: u64) -> (u64, u32)
        requires { IsPointOfClock self.now s }
        ensures { IsPlaceOf self.now s result.0 result.1 }
    {
        let frame = s * self.plan.spacing(&self.crf);
        let count = u64::from(self.plan.count);
        (frame / count, (frame % count) as u32)
    }

    /// The instant of point `s`, in nanoseconds of gPTP.
    #[tactic(auto, unfolding(crate::specs::Clock::clock_point))]
    fn point(&self, s: u64) -> u64
        requires { IsPointOfClock self.now s }
        ensures { IsInstantOf self.now s result }
    {
        let (packet, within) = self.place(s);
        self.plan.instant(packet, within)
    }

    /// The time at which packet `m` is sent, in nanoseconds of gPTP.
    #[cold]
    #[inline(never)]
    pub fn arrival(&self, m: u64) -> i64
        requires { IsPacketOfClock self.now m }
        ensures { result ≡ pos (clock_arrival self.now.crf self.now.plan m) }
    {
        (self.point(self.first(m)) - u64::from(self.plan.lead)) as i64
    }

    /// The number of points of packet `m`.
    fn size(&self, m: u64) -> usize
        requires { IsPacketOfClock self.now m }
        ensures { IsSizeOf self.now m result }
    {
        u64::from(self.crf.points).min(self.points() - self.first(m)) as usize
    }

    /// The length of the frame of packet `m`.
    #[cold]
    #[inline(never)]
    pub fn frame_size(&self, m: u64) -> usize
        requires { IsPacketOfClock self.now m }
        ensures { result ≡ clock_frame_size self.now.crf self.now.plan self.now.stream m }
    {
        ETHERNET_HEADER + CRF_HEADER + TIMESTAMP * self.size(m)
    }

    /// Writes the points of packet `m` into `points`.
    fn write_points(&self, points: &mut [u64], m: u64)
        requires { TakesPoints self.now m points.old }
        ensures { points.new ≡ points_in self.now.crf self.now.plan self.now.stream m }
    {
        let first = self.first(m);
        for i in 0..points.len() {
            points[i] = self.point(first + i as u64);
        }
    }

    /// Writes the timestamps of packet `m` into `out`.
    fn write_timestamps(&self, out: &mut [u8], m: u64)
        requires { TakesTimestamps self.now m out.old }
        ensures { out.new ≡ flat_map (big_bytes 8) (points_in self.now.crf self.now.plan self.now.stream m) }
    {
        let mut points = [0; POINTS_LIMIT];
        let points = &mut points[..self.size(m)];
        self.write_points(points, m);
        BigEndian::write_u64_into(points, out);
    }

    /// Packet `m` with its timestamps.
    fn packet<'a>(&self, m: u64, timestamps: &'a [u8]) -> CrfView<'a>
        requires { HasTimestamps self.now m timestamps.now }
        ensures { crf_shape result ≡ clock_packet self.now.crf self.now.plan self.now.stream m }
    {
        let (first, _) = self.place(self.first(m));
        CrfView {
            sv: true,
            mr: self.plan.restart_bit(first),
            fs: false,
            tu: false,
            seq: (m % 256) as u8,
            kind: AUDIO_SAMPLE,
            stream_id: self.crf.id,
            pull: self.crf.pull,
            base_frequency: self.crf.rate,
            interval: self.crf.interval,
            payload: timestamps,
            reserved: false,
        }
    }

    /// Writes the frame of packet `m`.
    #[tactic(auto, unfolding(crate::specs::Clock::clock_bytes))]
    #[cold]
    #[inline(never)]
    pub fn write(&self, out: &mut [u8], m: u64)
        requires packet { IsPacketOfClock self.now m }
        requires room { length out.old ≡ clock_frame_size self.now.crf self.now.plan self.now.stream m }
        ensures { out.new ≡ clock_bytes (clock_packet self.now.crf self.now.plan self.now.stream m) }
    {
        let mut timestamps = [0; TIMESTAMP * POINTS_LIMIT];
        let timestamps = &mut timestamps[..TIMESTAMP * self.size(m)];
        self.write_timestamps(timestamps, m);
        write_ethernet(&mut out[..ETHERNET_HEADER]);
        let Ok(_) = write_crf(&mut out[ETHERNET_HEADER..], &self.packet(m, timestamps)) else {
            unreachable!()
        };
    }
}
