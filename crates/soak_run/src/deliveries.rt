//! The deliveries of a stream over a bad network.

ghost use Rattle.std.specs.Prelude.{◌≡◌, ◌+◌, ◌≤◌, ◌<◌, ◌^◌, ◌++◌, ℕ, pos, suc, IfOk, OnOk};
ghost use Rattle.soak_run.specs.Generator.{state_after};
ghost use Rattle.talk_plan.specs.Timing.{arrival_of};
ghost use Rattle.soak_run.specs.Network.{all_copies, copies_by, delay_by, deliveries_of, draws_before, soak_plan};
ghost use Rattle.soak_run.specs.state.Delivered.{HasDelivered};

use crate::generator::Noise;
use aaf_format::AafFormat;
use avtp_base::NoMemory;
use std::alloc::Global;
use talker::{TalkKind, TalkPlan};

/// The stream whose packets are delivered: sparse PCM of two channels at 48 kHz, six sample frames in a packet.
pub const SOAK_PLAN: TalkPlan = TalkPlan {
    kind: TalkKind::Aaf {
        format: AafFormat::Int16,
        sparse: true,
    },
    rate: 48_000,
    channels: 2,
    count: 6,
    id: 0x0200_0000_0001_0001,
    start: 1_000_000_000,
    lead: 2_000_000,
    restart: None,
    jump: 1_000_000,
    crf: None,
};

/// The delay of each copy is a multiple of this number of nanoseconds.
const DELAY_STEP: u32 = 40_000;

/// The number of copies of a packet that are delivered, if `draw` is drawn for the packet.
fn copies_drawn(draw: u32) -> u32
    ensures { result ≡ copies_by draw }
{
    match draw % 16 {
        0 => 0,
        1 => 2,
        _ => 1,
    }
}

/// If `draw` is drawn for a copy of packet `number`, the copy arrives at this instant, in nanoseconds of gPTP.
#[tactic(auto, using(crate::proofs::SoakLemmas::sent_soon))]
fn copy_arrival(number: u64, draw: u32) -> i64
    requires { number < 1000000 }
    ensures { result ≡ pos (arrival_of soak_plan number + delay_by draw) }
{
    SOAK_PLAN.arrival(number) + i64::from(draw % 64 * DELAY_STEP)
}

/// Delivers one copy, two copies or no copy of a packet, as a drawn number says.
fn deliver(noise: &mut Noise, number: u64, copies: &mut Vec<(i64, u64)>) -> Result<(), NoMemory>
    requires { number < 1000000 }
    ensures { OnOk result ((seed : ℕ) → noise.old ≡ state_after seed (draws_before seed number) → HasDelivered seed number noise.new copies.old.items copies.new.items) }
{
    for _ in 0..copies_drawn(noise.draw()) {
        let arrival = copy_arrival(number, noise.draw());
        copies.push((arrival, number))?;
    }
    Ok(())
}

/// The copies of this many packets, one packet after another.
fn copies_of_all(alloc: Global, packets: u32) -> Result<Vec<(i64, u64)>, NoMemory>
    requires { packets ≤ 1000000 }
    ensures { IfOk result (λ copies. copies.items ≡ all_copies packets packets) }
{
    let mut noise = Noise::new(u64::from(packets));
    let mut copies = Vec::new(alloc);
    for number in 0..u64::from(packets) {
        deliver(&mut noise, number, &mut copies)?;
    }
    Ok(copies)
}

/// The deliveries of the first `n` packets of the stream over a bad network. `n` must be at most 1,000,000. Each
/// delivery consists of its arrival, in nanoseconds of gPTP, and the number of its packet. The list is sorted by
/// arrival, then by number, then by copy. Returns `NoMemory` if the list cannot be allocated.
pub fn soak_deliveries(alloc: Global, n: u32) -> Result<Vec<(i64, u64)>, NoMemory>
    requires { n ≤ 1000000 }
    ensures { IfOk result (λ deliveries. deliveries.items ≡ deliveries_of n) }
{
    let mut deliveries = copies_of_all(alloc, n)?;
    deliveries.sort_by_key(|delivery| delivery.0)?;
    Ok(deliveries)
}
