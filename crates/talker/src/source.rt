//! What makes the packets of a stream.

ghost use Rattle.std.specs.Prelude.{◌≡◌, length, pos, false, Some, None};
ghost use Rattle.talk_plan.specs.Ethernet.{packet_bytes};
ghost use Rattle.talk_clock.specs.Streams.{IsClockOf};
ghost use Rattle.talker.specs.state.Talking.{BeginsSource, CanBegin, HasPackets, IsPacketOfSource, IsSentFrom, IsSource, plan_in, stream_in};
ghost use Rattle.talker.specs.state.Turns.{IsTurnOf};

use crate::turn::Turn;
use std::alloc::Global;
use talk_audio::AudioStream;
use talk_clock::ClockStream;
use talk_plan::{TalkFault, TalkKind, TalkPlan};
use talk_video::{VideoStream, units_fault};

/// Makes the packets of a stream from its input.
#[derive(Debug, Drop)]
pub(crate) enum Source<'a> {
    Audio {
        stream: AudioStream,
        input: &'a [u8],
    },
    Video(VideoStream<'a>),
}

impl<'a> Source<'a> {
    /// The source of a plan and an input. If the plan or the input has a fault, the fault is returned, even if memory
    /// runs out. For audio, `Arrival` is never the fault, because the packets of every plan arrive well before the
    /// instant 2^32 seconds.
    #[tactic(auto, using(talk_audio::proofs::FormatLemmas::audio_found, crate::proofs::TalkLemmas::none_late), unfolding(crate::specs::Faults::fault_of))]
    pub fn of(alloc: Global, plan: TalkPlan, input: &'a [u8]) -> Result<Self, TalkFault>
        requires { CanBegin plan input.now }
        ensures { BeginsSource plan input.now result }
    {
        match plan.kind {
            TalkKind::H264 { last_stamp } => {
                if let Some(fault) = units_fault(input) {
                    return Err(fault);
                }
                let stream = VideoStream::of(alloc, plan, last_stamp, input)?;
                Ok(Source::Video(stream))
            }
            TalkKind::Aaf { .. } | TalkKind::Am824 => {
                let stream = AudioStream::of(plan);
                if stream.is_whole(input) {
                    Ok(Source::Audio { stream, input })
                } else {
                    Err(TalkFault::Frames)
                }
            }
        }
    }

    /// The number of the stream's packets.
    pub fn packets(&self) -> u64
        requires { IsSource self.now }
        ensures { result ≡ (stream_in self.now).journal.times.packets }
    {
        match self {
            Source::Audio { stream, input } => stream.packets(input),
            Source::Video(stream) => stream.packets,
        }
    }

    /// The media clock of the plan, if the plan has one. The stream has `packets` packets.
    pub fn clock(&self, packets: u64) -> Option<ClockStream>
        requires { HasPackets self.now packets }
        ensures { IsClockOf result (plan_in self.now) packets }
    {
        match self {
            Source::Audio { stream, .. } => ClockStream::of(stream.plan, packets),
            Source::Video(_) => None,
        }
    }

    /// When packet `n` is sent, in nanoseconds of gPTP.
    #[inline(always)]
    pub fn arrival(&self, n: u64) -> i64
        requires { IsPacketOfSource self.now n }
        ensures { result ≡ pos ((stream_in self.now).arrival n) }
    {
        match self {
            Source::Audio { stream, .. } => stream.arrival(n),
            Source::Video(stream) => stream.arrival(n),
        }
    }

    /// The length of the frame of packet `n`.
    #[inline(always)]
    pub fn size(&self, n: u64) -> usize
        requires { IsPacketOfSource self.now n }
        ensures { result ≡ length (packet_bytes ((stream_in self.now).journal.packet n)) }
    {
        match self {
            Source::Audio { stream, .. } => stream.frame_limit(),
            Source::Video(stream) => stream.frame_size(n),
        }
    }

    /// The turn of packet `n`.
    #[inline(always)]
    pub fn turn(&self, n: u64) -> Turn
        requires { IsPacketOfSource self.now n }
        ensures { IsTurnOf (stream_in self.now) false n result }
    {
        Turn {
            arrival: self.arrival(n),
            number: n,
            clock: false,
            size: self.size(n),
        }
    }

    /// Writes the frame of packet `n`, which is sent at `arrival`.
    #[inline(always)]
    pub fn write(&self, out: &mut [u8], n: u64, arrival: i64)
        requires { IsSentFrom self.now n arrival out.old }
        ensures { out.new ≡ packet_bytes ((stream_in self.now).journal.packet n) }
    {
        match self {
            Source::Audio { stream, input } => stream.write(out, input, n, arrival),
            Source::Video(stream) => stream.write(out, n),
        }
    }
}
