//! When the packets of a plan are sent, and with which timestamps.

ghost use Rattle.std.specs.Prelude.{◌≡◌, ◌+◌, ◌*◌, ◌/◌, ◌≤◌, ◌<◌, ◌^◌, pos, Option, Some, None};
ghost use Rattle.talk_plan.specs.Stamps.{stamped_by, stamped_instant as stamped_instant_of};
ghost use Rattle.talk_plan.specs.Headers.{header_of};
ghost use Rattle.talk_plan.specs.Places.{IsFrameOf, IsPacketOf, IsSentAt};
ghost use Rattle.talk_plan.specs.Plan.{IsAudioPlan, Restarts, spacing_of};
ghost use Rattle.talk_plan.specs.Timing.{arrival_of, mr_of, first_packet as first_packet_of, nominal_instant, nominal_offset as nominal_offset_of};
ghost use Rattle.talk_plan.specs.Timing.{run_of};
ghost use Rattle.talk_plan.specs.state.Places.{CountsFrames, IsClockedFrame, IsEvent, IsPart, IsRunStart};

use crate::plan::{CrfPlan, TalkPlan};
use avtp_header::StreamHeader;
use clock_track::{pull_down, pull_up};

const NANOSECONDS: u64 = 1_000_000_000;

/// How long `parts` of `whole` equal parts of a period take, rounded down.
fn part(parts: u64, period: u64, whole: u64) -> u64
    requires { parts < whole }
    ensures { IsPart parts period whole result }
{
    (u128::from(parts) * u128::from(period) / u128::from(whole)) as u64
}

impl TalkPlan {
    /// The number of packet `n`'s run. A run begins at the start of the stream and at each restart.
    #[tactic(auto, using(crate::proofs::RunLemmas::some_packets))]
    fn run(&self, n: u64) -> u64
        requires { Restarts self.now.restart self.now.jump }
        ensures { result ≡ run_of self.now n }
    {
        match self.restart {
            None => 0,
            Some(packets) => n / u64::from(packets),
        }
    }

    /// The number of the first packet in packet `n`'s run.
    #[tactic(auto, using(crate::proofs::RunLemmas::some_packets, crate::proofs::RunLemmas::begun))]
    fn first_packet(&self, n: u64) -> u64
        requires { IsAudioPlan self.now }
        ensures { result ≡ first_packet_of self.now (run_of self.now n) }
    {
        match self.restart {
            None => 0,
            Some(packets) => self.run(n) * u64::from(packets),
        }
    }

    /// How long `frames` sample frames take, in nanoseconds. At 48, 96 and 192 kHz, a sample frame takes a whole number
    /// of thirds of a nanosecond. The compiler turns a division by 3 into a multiplication; a division by an unknown
    /// number takes ten times as long.
    #[tactic(auto, using(crate::proofs::RateLemmas::rate_from, crate::proofs::TimingLemmas::short_offset))]
    fn offset(&self, frames: u64) -> u64
        requires { CountsFrames self.now frames }
        ensures { result ≡ nominal_offset_of self.now.rate frames }
    {
        match self.rate {
            48_000 => frames * 20_833 + frames / 3,
            96_000 => frames * 10_416 + frames * 2 / 3,
            192_000 => frames * 5_208 + frames / 3,
            rate => frames * NANOSECONDS / u64::from(rate),
        }
    }

    /// The instant of event 0 in packet `n`'s run, in nanoseconds of gPTP.
    #[tactic(auto, using(crate::proofs::RunLemmas::in_run, crate::proofs::RateLemmas::rate_from, crate::proofs::TimingLemmas::few_jumps, crate::proofs::TimingLemmas::short_offset))]
    fn run_start(&self, n: u64) -> u64
        requires { IsPacketOf self.now n }
        ensures { IsRunStart self.now n result }
    {
        let start = self.start as u64 + u64::from(self.lead);
        if self.restart.is_none() {
            return start;
        }
        let first = self.first_packet(n);
        start + self.run(n) * u64::from(self.jump) + self.offset(first * u64::from(self.count))
    }

    /// Sample frame `i` of packet `n` is this event of the packet's run.
    #[tactic(auto, using(crate::proofs::RunLemmas::in_run, crate::proofs::TimingLemmas::first_before))]
    fn event(&self, n: u64, i: u32) -> u64
        requires { IsFrameOf self.now n i }
        ensures { IsEvent self.now n i result }
    {
        (n - self.first_packet(n)) * u64::from(self.count) + u64::from(i)
    }

    /// The instant of sample frame `i` of packet `n`, in nanoseconds of gPTP.
    #[tactic(auto, using(crate::proofs::TimingLemmas::in_time), unfolding(crate::specs::Timing::nominal_instant))]
    #[inline(always)]
    pub fn instant(&self, n: u64, i: u32) -> u64
        requires { IsFrameOf self.now n i }
        ensures value { result ≡ nominal_instant self.now n i }
        ensures lead { self.now.lead ≤ result }
        ensures bound { result < self.now.lead + 2 ^ 32 * 1000000000 }
    {
        self.run_start(n) + self.offset(self.event(n, i))
    }

    /// The number of sample frames from one point of the plan's clock to the next.
    pub fn spacing(&self, crf: &CrfPlan) -> u64
        requires plan { IsAudioPlan self.now }
        requires clock { self.now.crf ≡ Some crf.now }
        ensures value { result ≡ spacing_of crf.now self.now.rate }
        ensures some { 1 ≤ result }
    {
        u64::from(crf.interval) * u64::from(self.rate) * pull_down(crf.pull)
            / (u64::from(crf.rate) * pull_up(crf.pull))
    }

    /// The instant in the timestamp of sample frame `i` of packet `n`, computed from the plan's clock, in nanoseconds
    /// of gPTP. If the sample frame is before the run's second point, the instant is the sample frame's nominal
    /// instant. If the sample frame is at or after the run's second point, the instant is computed from the clock's
    /// last point at or before the sample frame. The computation uses the period that ends at this last point.
    #[tactic(auto, using(crate::proofs::RateLemmas::rate_from, crate::proofs::TimingLemmas::short_offset))]
    #[cold]
    #[inline(never)]
    fn clocked_instant(&self, crf: &CrfPlan, n: u64, i: u32) -> u64
        requires { IsClockedFrame self.now crf.now n i }
        ensures { result ≡ stamped_by (Some crf.now) self.now n i }
    {
        let spacing = self.spacing(crf);
        let event = self.event(n, i);
        if event < spacing {
            return self.instant(n, i);
        }
        let last = event / spacing;
        let offset = self.offset(last * spacing);
        let period = offset - self.offset((last - 1) * spacing);
        self.run_start(n) + offset + part(event % spacing, period, spacing)
    }

    /// The instant in the timestamp of sample frame `i` of packet `n`, in nanoseconds of gPTP.
    pub fn stamped_instant(&self, n: u64, i: u32) -> u64
        requires { IsFrameOf self.now n i }
        ensures { result ≡ stamped_instant_of self.now n i }
    {
        match self.crf {
            None => self.instant(n, i),
            Some(crf) => self.clocked_instant(&crf, n, i),
        }
    }

    /// The instant in the timestamp of sample frame 0 of packet `n`, in nanoseconds of gPTP. The packet is sent at
    /// `arrival`.
    #[tactic(auto, using(crate::proofs::TimingLemmas::lead_within))]
    pub fn first_stamped_instant(&self, n: u64, arrival: i64) -> u64
        requires { IsSentAt self.now n arrival }
        ensures { result ≡ stamped_instant_of self.now n 0 }
    {
        match self.crf {
            None => arrival as u64 + u64::from(self.lead),
            Some(crf) => self.clocked_instant(&crf, n, 0),
        }
    }

    /// When packet `n` is sent, in nanoseconds of gPTP.
    #[inline(always)]
    pub fn arrival(&self, n: u64) -> i64
        requires { IsPacketOf self.now n }
        ensures { result ≡ pos (arrival_of self.now n) }
    {
        (self.instant(n, 0) - u64::from(self.lead)) as i64
    }

    /// The media clock restart bit of packet `n`, which toggles with each run.
    pub fn restart_bit(&self, n: u64) -> bool
        requires { Restarts self.now.restart self.now.jump }
        ensures { result ≡ mr_of self.now n }
    {
        self.run(n) % 2 == 1
    }

    /// The stream header of packet `n` (IEEE 1722-2016, 4.4.4), for a payload of `length` bytes. If `stamp` is an
    /// instant, the header has the timestamp of that instant.
    pub fn header(&self, subtype: u8, stamp: Option<u64>, n: u64, length: u16) -> StreamHeader
        requires { Restarts self.now.restart self.now.jump }
        ensures { result ≡ header_of subtype stamp self.now n length }
    {
        StreamHeader {
            subtype,
            sv: true,
            mr: self.restart_bit(n),
            format_bits: 0,
            tv: stamp.is_some(),
            seq: (n % 256) as u8,
            tu: false,
            stream_id: self.id,
            timestamp: stamp.map_or(0, |instant| (instant % (1 << 32)) as u32),
            data_length: length,
        }
    }
}
