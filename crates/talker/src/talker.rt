//! The frames of a plan, one after another.

ghost use Rattle.std.specs.Prelude.{◌≡◌, ◌<◌, ◌≤◌, ◌⊎◌, ◌↔◌, IsTrue, length, slice_get, Ok, Err, Some, None, IfOk, IfErr, take, IfSome, IfNone, OnOk, true};
ghost use Rattle.std.specs.Option.{option_map};
ghost use Rattle.pcap_frames.specs.Capture.{HasSpelling};
ghost use Rattle.talk_plan.specs.declared.fault.TalkFault.TheVariants.{Memory};
ghost use Rattle.talker.specs.Faults.{fault_of};
ghost use Rattle.talker.specs.Frames.{capture_style, clock_frames, frames, record_of, sent_frame, stream_frames};
ghost use Rattle.talker.specs.Journal.{stream_of};
ghost use Rattle.talk_plan.specs.Plan.{IsPlan, most_input};
ghost use Rattle.talker.specs.Talking.{gone_on};
ghost use Rattle.talker.specs.state.Talking.{IsClockBeside, IsClockFirst, stream_in};
ghost use Rattle.talk_clock.specs.Streams.{IsClockStream, clocks_of};
ghost use Rattle.talker.specs.Turns.{IsTurn, frame_in};
ghost use Rattle.talker.specs.state.Turns.{IsLent, IsTurnOf, SendsInto, SendsPacket, turn_frame};

use crate::sent::Sent;
use crate::source::Source;
use crate::turn::Turn;
use avtp_base::NoMemory;
use std::alloc::Global;
use std::marker::Model;
use talk_clock::ClockStream;
use talk_plan::{TalkFault, TalkPlan};

/// Makes the frames of a plan from its input, by number or one after another. The memory for one frame, and for the
/// list of an H.264 stream's NAL units, is allocated at the beginning. Nothing is allocated later. Each frame is either
/// written into the caller's slice, or lent from the talker's own memory until the next frame is made.
#[derive(Debug, Drop)]
pub struct Talker<'a> {
    source: Source<'a>,
    clock: Option<ClockStream>,
    packets: u64,
    clocks: u64,
    /// How many of the stream's packets were already given in the order of sending. `given_clocks` is the number of the
    /// clock's packets that were already given.
    given_packets: u64,
    given_clocks: u64,
    /// The memory of the frame that was most recently lent.
    frame: Vec<u8>,
}

/// The longest tagged Ethernet frame, without its check sequence.
const FRAME_LIMIT: usize = 1518;

impl<'a> Model for Talker<'a> {
    ghost use Rattle.std.specs.Prelude.{◌+◌};
    ghost use Rattle.talker.specs.Talking.{Talking};
    ghost use Rattle.talker.specs.state.Talking.{input_in, plan_in};

    ghost Value = { Talking };

    ghost use Rattle.talker.specs.state.Kept.{IsTalker};

    ghost view = { λ t. record { plan = plan_in t.source; input = input_in t.source; given = t.given_clocks + t.given_packets } };

    ghost invariant = { IsTalker };
}

impl<'a> Talker<'a> {
    ghost use Rattle.std.specs.Borrow.{sem};
    ghost use Rattle.talker.specs.Lending.{EndsAs};

    /// A talker of the plan and the input. For audio, the input is a sequence of sample frames, each with its channels
    /// in order. A sample of PCM has its highest byte first; a sample of AM824 is a quadlet as it is sent: a label,
    /// then 24 bits (IEC 61883-6). For H.264, the input is a byte stream of NAL units (ITU-T H.264, annex B). The input
    /// has at most 268,435,456 bytes.
    ///
    /// A plan has a start of 0 to 4 * 10^18 and a lead of 1 to 10^9. A plan of audio either has no restarts, or has
    /// `restart` from 8 to 10^9 and `jump` from 4 to 10^9. PCM, sparse or not, has one of AAF's rates and 1 to 1023
    /// channels. A packet of PCM has 1 to 1476 sample frames, with at most 1476 bytes together. AM824 has one of the
    /// rates of IEC 61883-6 and 1 to 256 channels. A packet of AM824 has at least SYT_INTERVAL / 8 data blocks, with at
    /// most 1468 bytes together. H.264 has a rate of 1 to 240 and neither restarts nor a clock; its channels and its
    /// count are not read.
    ///
    /// A media clock has a base frequency of 1 to 200,000,000 Hz, a pull of 0 to 5, and 1 to 180 timestamps in a
    /// packet. The time from one timestamp to the next is 1 to 65,535 events of the clock, and a whole number of sample
    /// frames. With restarts, the time of a run of the stream is a whole multiple of the time of 8 clock packets.
    ///
    /// Returns `Frames` exactly if an audio input is not a whole number of sample frames. An input of H.264 is tested
    /// for three faults, and the first one found is returned. `StartCode`: there is no start code. `NalType`: a NAL
    /// unit has a type other than 1 to 23. `Packets`: an access unit needs more than 255 packets. Returns `Arrival` if
    /// and only if two things hold: the input itself has no fault, and a packet would arrive at 2^32 seconds or later.
    /// No packet of a plan within these limits arrives at 2^32 seconds or later. Returns `Memory` if memory runs out.
    pub fn begin(alloc: Global, plan: TalkPlan, input: &'a [u8]) -> Result<Self, TalkFault>
        requires plan { IsPlan plan }
        requires limit { length input.now ≤ most_input }
        ensures begun { IfOk result (λ talker. talker ≡ record { plan = plan; input = input.now; given = 0 }) }
        ensures accepted { OnOk result (fault_of plan input.now ≡ None) }
        ensures fault { IfSome (fault_of plan input.now) (λ fault. result ≡ Err fault) }
        ensures only { IfErr result (λ fault. (fault_of plan input.now ≡ Some fault) ⊎ (fault ≡ Memory)) }
    {
        let source = Source::of(alloc, plan, input)?;
        let packets = source.packets();
        let clock = source.clock(packets);
        let Ok(frame) = frame_memory(alloc) else {
            return Err(TalkFault::Memory);
        };
        Ok(Talker {
            source,
            clock,
            packets,
            clocks: clock_packets(&clock),
            given_packets: 0,
            given_clocks: 0,
            frame,
        })
    }

    /// The number of the stream's packets.
    pub fn packets(&self) -> u64
        ensures { result ≡ length (stream_frames self.now.plan self.now.input) }
    {
        self.packets
    }

    /// The number of the media clock's packets.
    pub fn clocks(&self) -> u64
        ensures { result ≡ length (clock_frames self.now.plan self.now.input) }
    {
        self.clocks
    }

    /// The frame of packet `n` of the stream, counted from 0; `n` is below `packets()`. Allocates nothing.
    #[inline(always)]
    pub fn packet(&mut self, n: u64) -> Sent<'_>
        requires { n < length (stream_frames self.old.plan self.old.input) }
        ensures frame { slice_get (stream_frames self.old.plan self.old.input) n ≡ Some (sent_frame result) }
        ensures fits { HasSpelling capture_style (record_of (sent_frame result)) }
        ensures size { length result.bytes.now ≤ 1518 }
        ensures* after { sem 𝓛 (EndsAs self.entry (λ last. last ≡ self.old)) }
    {
        let turn = self.source.turn(n);
        self.lend(turn)
    }

    /// The frame of a turn, in the talker's own memory.
    #[inline(always)]
    fn lend(&mut self, turn: Turn) -> Sent<'_>
        requires { SendsPacket (stream_of self.old.plan self.old.input) turn }
        ensures lent { IsLent (stream_of self.old.plan self.old.input) turn result }
        ensures* after { sem 𝓛 (EndsAs self.entry (λ last. last ≡ self.old)) }
    {
        write_front(&self.source, &self.clock, turn, self.frame.as_mut_slice());
        Sent {
            arrival: turn.arrival,
            number: turn.number,
            clock: turn.clock,
            bytes: &self.frame.as_slice()[..turn.size],
        }
    }

    /// The turn of packet `m` of the clock.
    #[inline(always)]
    fn clock_turn(&self, m: u64) -> Turn
        requires { m < length (clock_frames self.now.plan self.now.input) }
        ensures { IsTurnOf (stream_of self.now.plan self.now.input) true m result }
    {
        let Some(clock) = self.clock else {
            unreachable!()
        };
        Turn {
            arrival: clock.arrival(m),
            number: m,
            clock: true,
            size: clock.frame_size(m),
        }
    }

    /// What is sent next. Frames are sent in the order of their arrivals. If arrivals are equal, frames of the clock
    /// are sent first. Returns `None` exactly if all frames were given.
    #[inline(always)]
    pub fn turn(&self) -> Option<Turn>
        ensures turn { IfSome result (IsTurn self.now) }
        ensures end { IfNone result (self.now.given ≡ length (frames self.now.plan self.now.input)) }
    {
        let (m, n) = (self.given_clocks, self.given_packets);
        if clock_is_first(&self.clock, &self.source, m, n, self.packets) {
            return Some(self.clock_turn(m));
        }
        if n == self.packets {
            return None;
        }
        Some(self.source.turn(n))
    }

    /// Writes the frame that is sent next. Allocates nothing.
    #[inline(always)]
    pub fn write(&self, turn: Turn, out: &mut [u8])
        requires turn { IsTurn self.now turn }
        requires room { length out.old ≡ turn.size }
        ensures { slice_get (frames self.now.plan self.now.input) self.now.given ≡ Some (frame_in turn out.new) }
    {
        write_frame(&self.source, &self.clock, turn, out);
    }

    /// Counts the frame of `turn` as given. The frame of `turn` is the next frame to be sent.
    #[inline(always)]
    pub fn go_on(&mut self, turn: Turn)
        requires { IsTurn self.old turn }
        ensures { self.new ≡ gone_on self.old }
    {
        if turn.clock {
            self.given_clocks += 1;
        } else {
            self.given_packets += 1;
        }
    }

    /// Gives the next frame. Frames are sent in the order of their arrivals. If arrivals are equal, frames of the clock
    /// are sent first. Returns `None` exactly if all frames were given. Allocates nothing.
    #[inline(always)]
    pub fn next(&mut self) -> Option<Sent<'_>>
        ensures frame { option_map sent_frame result ≡ slice_get (frames self.old.plan self.old.input) self.old.given }
        ensures fits { IfSome result (λ sent. HasSpelling capture_style (record_of (sent_frame sent))) }
        ensures size { IfSome result (λ sent. length sent.bytes.now ≤ 1518) }
        ensures* after { sem 𝓛 (EndsAs self.entry (λ last. last ≡ gone_on self.old)) }
    {
        let turn = self.turn()?;
        self.go_on(turn);
        Some(self.lend(turn))
    }
}

/// The number of the clock's packets; 0 if there is no clock.
fn clock_packets(clock: &Option<ClockStream>) -> u64
    requires { IfSome clock.now IsClockStream }
    ensures { result ≡ clocks_of clock.now }
{
    match clock {
        None => 0,
        Some(clock) => clock.packets(),
    }
}

/// Memory for the longest frame.
fn frame_memory(alloc: Global) -> Result<Vec<u8>, NoMemory>
    ensures { IfOk result (λ frame. length frame.items ≡ 1518) }
{
    Ok(vec![in alloc; 0; FRAME_LIMIT]?)
}

/// Writes the frame of a turn.
#[inline(always)]
fn write_frame(source: &Source<'_>, clock: &Option<ClockStream>, turn: Turn, out: &mut [u8])
    requires { SendsInto source.now clock.now turn turn.size out.old }
    ensures { out.new ≡ (turn_frame (stream_in source.now) turn).bytes }
{
    if turn.clock {
        let Some(clock) = clock else { unreachable!() };
        clock.write(out, turn.number);
    } else {
        source.write(out, turn.number, turn.arrival);
    }
}

/// Writes the frame of a turn at the start of a slice.
#[inline(always)]
fn write_front(source: &Source<'_>, clock: &Option<ClockStream>, turn: Turn, out: &mut [u8])
    requires { SendsInto source.now clock.now turn 1518 out.old }
    ensures { take turn.size out.new ≡ (turn_frame (stream_in source.now) turn).bytes }
{
    write_frame(source, clock, turn, &mut out[..turn.size]);
}

/// Whether packet `m` of the clock exists and comes first: packet `n` of the stream does not exist, or is sent at the
/// same time or later.
fn clock_is_first(
    clock: &Option<ClockStream>,
    source: &Source<'_>,
    m: u64,
    n: u64,
    packets: u64,
) -> bool
    requires { IsClockBeside source.now clock.now packets }
    ensures { IsTrue result ↔ IsClockFirst clock.now (stream_in source.now) m n }
{
    match clock {
        None => false,
        Some(clock) => {
            m < clock.packets() && (n >= packets || clock.arrival(m) <= source.arrival(n))
        }
    }
}
