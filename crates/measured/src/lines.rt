//! Measures how fast lines of a media clock are found.

ghost use Rattle.std.specs.Prelude.{◌+◌, ◌^◌, ◌≤◌};

use clock_track::{Clock, ClockAnswer, Points};
use std::alloc::Global;

/// The time between two timestamps of the clock, in nanoseconds.
const PERIOD: u64 = 2_000_000;

/// The maximum number of timestamp bytes in a packet.
const MOST: usize = 65_528;

/// The number of packets that a clock keeps.
const WINDOW: u32 = 64;

/// Looks up the lines of `count` samples near the newest timestamps of a clock. The clock's window is full of packets,
/// each with `timestamps` timestamps (1 to 8,191). Returns how many samples have a line.
pub fn lines(alloc: Global, timestamps: u32, count: u32) -> Option<u64>
    requires some { 1 ≤ timestamps }
    requires most { timestamps ≤ 8191 }
{
    let mut clock = Clock::new(alloc, 0).ok()?;
    for packet in 0..WINDOW {
        let payload = timestamps_of(alloc, packet * timestamps, timestamps)?;
        note(&mut clock, packet as u8, payload.as_slice());
    }
    let last = i64::from(WINDOW * timestamps) * PERIOD as i64;
    let mut found = 0_u64;
    for n in 0..count {
        let instant = last + i64::from(n % 1_000);
        if let ClockAnswer::OnLine { .. } = clock.line_for(instant, 48_000) {
            found = found.saturating_add(1);
        }
    }
    Some(found)
}

/// The bytes of `count` timestamps of a clock. `before` is the number of earlier timestamps of that clock.
fn timestamps_of(alloc: Global, before: u32, count: u32) -> Option<Vec<u8>>
    requires most { before + count ≤ 2 ^ 31 }
{
    let mut payload = Vec::new(alloc);
    for n in 0..count {
        let timestamp = u64::from(before + n + 1) * PERIOD;
        payload
            .extend_from_slice(timestamp.to_be_bytes().as_slice())
            .ok()?;
    }
    Some(payload)
}

/// Notes a packet of a 48 kHz clock that has a timestamp for every 96 events.
fn note(clock: &mut Clock, seq: u8, payload: &[u8]) {
    if payload.len() % 8 != 0 || payload.len() > MOST {
        return;
    }
    clock.note(&Points {
        usable: true,
        seq,
        mr: false,
        base_frequency: 48_000,
        pull: 0,
        interval: 96,
        payload,
    });
}
