//! The packets of an audio stream.

ghost use Rattle.std.specs.Prelude.{◌≡◌, ◌+◌, ◌*◌, ◌≤◌, ◌<◌, ◌^◌, ℕ, List, drop, length, pos, take, [], true, IfOk, IfErr};
ghost use Rattle.talk_plan.specs.Ethernet.{packet_bytes};
ghost use Rattle.talk_audio.specs.Journal.{samples_in};
ghost use Rattle.talk_plan.specs.Places.{IsPacketOf};
ghost use Rattle.talk_plan.specs.Plan.{IsAudioPlan};
ghost use Rattle.talk_audio.specs.Samples.{filled_up, is_whole as is_whole_by};
ghost use Rattle.talk_audio.specs.Streams.{IsAudio, IsPacketOfInput, audio_of, headers_of, packets_of, samples_size};
ghost use Rattle.talk_audio.specs.state.Packets.{TakesRest, TakesSamples};
ghost use Rattle.talk_plan.specs.Timing.{arrival_of};

use crate::am824::{Am824Format, BLOCKS_HEADER, block_size, silent_quadlets};
use crate::pcm::{PCM_HEADER, PcmFormat};
use talk_plan::{ETHERNET_HEADER, TalkKind, TalkPlan};

/// The format of an audio stream.
#[derive(Clone, Copy, Debug)]
pub enum Format {
    Pcm(PcmFormat),
    Am824(Am824Format),
}

/// A plan of an audio stream, with its format.
#[derive(Clone, Copy, Debug)]
pub struct AudioStream {
    pub plan: TalkPlan,
    pub format: Format,
    /// The number of bytes in a packet's samples.
    pub size: usize,
}

/// The maximum number of bytes in a packet's samples.
pub(crate) const SAMPLES_LIMIT: usize = 1476;

impl AudioStream {
    pub fn of(plan: TalkPlan) -> Self
        requires { IsAudioPlan plan }
        ensures plan { result.plan ≡ plan }
        ensures whole { IsAudio result }
    {
        match plan.kind {
            TalkKind::Aaf { format, sparse } => {
                let pcm = PcmFormat::of(&plan, format, sparse);
                AudioStream {
                    plan,
                    format: Format::Pcm(pcm),
                    size: plan.count as usize * pcm.frame_size(plan.channels),
                }
            }
            TalkKind::Am824 => AudioStream {
                plan,
                format: Format::Am824(Am824Format::of(&plan)),
                size: plan.count as usize * block_size(plan.channels),
            },
            TalkKind::H264 { .. } => unreachable!(),
        }
    }

    /// The number of bytes in a sample frame.
    fn frame_size(&self) -> usize
        requires { IsAudio self.now }
        ensures { result ≡ (audio_of self.now).frame }
    {
        match self.format {
            Format::Pcm(pcm) => pcm.frame_size(self.plan.channels),
            Format::Am824(_) => block_size(self.plan.channels),
        }
    }

    /// The number of packets that hold the input.
    #[tactic(auto, using(crate::proofs::FormatLemmas::format_of))]
    pub fn packets(&self, input: &[u8]) -> u64
        requires { IsAudio self.now }
        ensures { result ≡ packets_of self.now input.now }
    {
        let frames = input.len() / self.frame_size();
        frames.div_ceil(self.plan.count as usize) as u64
    }

    /// Whether the input is a whole number of sample frames.
    #[tactic(auto, using(crate::proofs::FormatLemmas::format_of))]
    pub fn is_whole(&self, input: &[u8]) -> bool
        requires { IsAudio self.now }
        ensures { result ≡ is_whole_by (audio_of self.now).frame input.now }
    {
        input.len() % self.frame_size() == 0
    }

    /// The length of each frame.
    pub fn frame_limit(&self) -> usize
        requires { IsAudio self.now }
        ensures value { result ≡ headers_of self.now + samples_size self.now }
        ensures bound { result ≤ 1526 }
    {
        let header = match self.format {
            Format::Pcm(_) => PCM_HEADER,
            Format::Am824(_) => BLOCKS_HEADER,
        };
        ETHERNET_HEADER + header + self.size
    }

    /// When packet `n` is sent, in nanoseconds of gPTP.
    #[inline(always)]
    pub fn arrival(&self, n: u64) -> i64
        requires { IsPacketOf self.now.plan n }
        ensures { result ≡ pos (arrival_of self.now.plan n) }
    {
        self.plan.arrival(n)
    }

    /// Silence, at least as much as a packet holds. The last packet's samples are copied over the start of this array,
    /// so the talker needs no buffer other than that of one frame.
    #[tactic(auto, using(crate::proofs::Am824Lemmas::packet_of_silence, crate::proofs::PcmLemmas::zeros))]
    fn silence(&self) -> [u8; SAMPLES_LIMIT]
        requires { IsAudio self.now }
        ensures { take (samples_size self.now) result ≡ (audio_of self.now).silence }
    {
        match self.format {
            Format::Pcm(_) => [0; SAMPLES_LIMIT],
            Format::Am824(_) => silent_quadlets(),
        }
    }

    /// Writes the frame of packet `n`, which is sent at `arrival`, with the given samples.
    #[inline(always)]
    fn write_samples(&self, out: &mut [u8], n: u64, arrival: i64, samples: &[u8])
        requires { TakesSamples self.now n arrival samples.now out.old }
        ensures { out.new ≡ packet_bytes ((audio_of self.now).packet n samples.now) }
    {
        match &self.format {
            Format::Pcm(pcm) => pcm.write(&self.plan, out, n, arrival, samples),
            Format::Am824(am824) => am824.write(&self.plan, out, n, samples),
        }
    }

    /// Writes the frame of packet `n`, which is sent at `arrival`. The packet's samples are the end of the input,
    /// `rest`, and then silence.
    // The code of `write_last` seldom runs while audio is sent. The function is marked cold, so that it takes no
    // registers from the code that runs often. The code for clock packets, for stamps on a clock and for H.264 is also
    // marked cold, so that it takes no registers from the code that runs often.
    #[cold]
    #[inline(never)]
    fn write_last(&self, out: &mut [u8], n: u64, arrival: i64, rest: &[u8])
        requires { TakesRest self.now n arrival rest.now out.old }
        ensures { out.new ≡ packet_bytes ((audio_of self.now).packet n (filled_up (audio_of self.now).silence rest.now)) }
    {
        let mut filled = self.silence();
        filled[..rest.len()].copy_from_slice(rest);
        self.write_samples(out, n, arrival, &filled[..self.size]);
    }

    /// The input from the first sample of packet `n` on.
    #[tactic(auto, using(crate::proofs::FormatLemmas::format_of, crate::proofs::SampleLemmas::begun_within))]
    fn samples_from<'a>(&self, input: &'a [u8], n: u64) -> &'a [u8]
        requires { IsPacketOfInput self.now input.now n }
        ensures { result.now ≡ drop (n * samples_size self.now) input.now }
    {
        &input[n as usize * self.size..]
    }

    /// Writes the frame of packet `n`. The packet is made from the input, and is sent at `arrival`.
    #[tactic(auto, using(crate::proofs::SampleLemmas::last_samples, crate::proofs::FormatLemmas::whole_of))]
    #[inline(always)]
    pub fn write(&self, out: &mut [u8], input: &[u8], n: u64, arrival: i64)
        requires packet { IsPacketOfInput self.now input.now n }
        requires arrival { arrival ≡ pos (arrival_of self.now.plan n) }
        requires room { length out.old ≡ headers_of self.now + samples_size self.now }
        ensures { out.new ≡ packet_bytes ((audio_of self.now).packet n (samples_in (audio_of self.now) self.now.plan input.now n)) }
    {
        let rest = self.samples_from(input, n);
        if rest.len() < self.size {
            self.write_last(out, n, arrival, rest);
        } else {
            self.write_samples(out, n, arrival, &rest[..self.size]);
        }
    }
}
