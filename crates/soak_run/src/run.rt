//! A listener hears a stream over a bad network.

ghost use Rattle.std.specs.Prelude.{◌≡◌, ◌≤◌, ◌^◌, All, IfOk, Some, length, map, true};
ghost use Rattle.presenter_ring.specs.Pipes.{ended_with};
ghost use Rattle.listener.specs.Heard.{heard_of, shown_of};
ghost use Rattle.talk_plan.specs.declared.fault.TalkFault.TheVariants.{Memory};
ghost use Rattle.talker.specs.Journal.{stream_of};
ghost use Rattle.soak_run.specs.Network.{deliveries_of};
ghost use Rattle.soak_run.specs.Captured.{captured, soak_capture, soak_listener};
ghost use Rattle.soak_run.specs.state.Hearing.{AreDeliverable};
ghost use Rattle.soak_run.specs.Outcomes.{outcomes, soak_counts, total};

use crate::counts::SoakCounts;
use crate::deliveries::{SOAK_PLAN, soak_deliveries};
use crate::hearing::Hearing;
use crate::laws::counts_add_up;
use crate::samples::soak_input;
use avtp_base::NoMemory;
use presenter_ring::{NoGate, Pipe, Pull, Round};
use std::alloc::Global;
use std::thread::Threads;
use talker::{TalkFault, Talker};

/// The maximum number of items that wait between the thread that hears the stream and the thread that counts.
const RING: u32 = 64;

/// Counts what becomes of deliveries of a talker's packets: one thread hears them, and another counts what is shown.
fn hear<T: Threads + Sync>(
    rt: &T,
    alloc: Global,
    talker: Talker<'_>,
    deliveries: &[(i64, u64)],
) -> Result<SoakCounts, NoMemory>
    requires deliverable { AreDeliverable talker deliveries.now }
    ensures { IfOk result (λ counts. counts ≡ outcomes (length deliveries.now) (shown_of soak_listener (map (captured (stream_of talker.entry.plan talker.entry.input)) deliveries.now))) }
{
    let mut pipe = Pipe::begin(alloc, RING)?;
    let mut hearing = Hearing::begin(alloc, talker, deliveries)?;
    let mut counts = SoakCounts::of(deliveries.len() as u64);
    loop {
        match pipe.round(rt, &mut hearing, &mut counts, &NoGate) {
            Round::More => {}
            Round::Drained => break,
            // Counting never fails.
            Round::PresentFault => unreachable!(),
        }
    }
    if is_over(&pipe) {
        Ok(counts)
    } else {
        Err(NoMemory)
    }
}

/// Whether the receiver of a pipe has returned all items and has ended.
fn is_over(pipe: &Pipe) -> bool
    ensures { result ≡ true → ended_with pipe.now ≡ Some Pull.Done }
{
    match pipe.ended() {
        Some(Pull::Done) => true,
        _ => false,
    }
}

/// The only possible fault of this stream is that memory runs out.
fn want_of_memory(_fault: TalkFault) -> NoMemory
    requires { _fault ≡ Memory }
{
    NoMemory
}

/// Sends a stream over a bad network, has a listener hear what arrives, and returns what became of the packets.
/// `packets` is the number of packets that are sent, at most 1,000,000. Returns `NoMemory` if memory cannot be
/// allocated.
///
/// The stream is sparse PCM of two channels at 48 kHz, with six sample frames in a packet. One packet in 16 is lost,
/// one in 16 arrives twice, and each copy arrives at most 2.52 ms after the packet is sent. The listener looks 32 items
/// ahead. The listener is given the deliveries as the records of a capture, in order of arrival. Each delivery has one
/// outcome, so the counts add up.
///
/// One thread talks and hears, and another thread counts what is shown. A ring carries the shown items from one thread
/// to the other. The counts do not depend on how the threads interleave.
pub fn soak<T: Threads + Sync>(rt: &T, alloc: Global, packets: u32) -> Result<SoakCounts, NoMemory>
    requires { packets ≤ 1000000 }
    ensures exact { IfOk result (λ counts. counts ≡ soak_counts packets) }
    ensures heard { IfOk result (λ counts. counts ≡ outcomes (length (deliveries_of packets)) (heard_of soak_listener (soak_capture packets)).shown) }
    ensures added { IfOk result (λ counts. total counts ≡ counts.delivered) }
{
    let deliveries = soak_deliveries(alloc, packets)?;
    let input = soak_input(alloc, packets)?;
    match Talker::begin(alloc, SOAK_PLAN, input.as_slice()) {
        Ok(talker) => {
            let counts = hear(rt, alloc, talker, deliveries.as_slice())?;
            counts_add_up();
            Ok(counts)
        }
        Err(fault) => Err(want_of_memory(fault)),
    }
}
