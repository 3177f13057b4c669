//! Units that wait for their instants.

use crate::captured::Captured;
use crate::cases::{PLAN, STEPS, Seen, seen_in};
use avtp_base::NoMemory;
use std::alloc::Global;
use vectors_avtp::Draws;

/// Unit `n` is captured 10 ns after unit `n` - 1, and is due up to 20,000 ns after its arrival. No two units have both
/// the same instant and the same sequence number.
fn drawn(draws: &mut Draws, n: u16) -> (u32, Captured) {
    let arrival = 10 * u32::from(n);
    let instant = arrival + 100 * draws.below(200) + u32::from(n / 256);
    (instant, Captured::Unit((n % 256) as u8, arrival, instant))
}

/// Draws 4,000 units; about 1,000 of them wait at a time. Returns two lists, which must be equal: all units, sorted by
/// instant and then by index; and the units as the schedule shows them.
fn sorted_and_shown(alloc: Global) -> Result<[Vec<Seen>; 2], NoMemory> {
    let mut draws = Draws::seeded(10);
    let mut captured = Vec::new(alloc);
    let mut instants = Vec::new(alloc);
    for n in 0..4_000 {
        let (instant, unit) = drawn(&mut draws, n);
        captured.push(unit)?;
        instants.push((i64::from(instant), u64::from(n)))?;
    }
    instants.sort()?;
    let mut sorted = Vec::new(alloc);
    for (instant, n) in &instants {
        sorted.push(Seen::At(n.wrapping_add(1), *instant))?;
    }
    Ok([sorted, seen_in(alloc, &PLAN, captured.as_slice(), &STEPS)?])
}

#[test]
fn units_are_presented_in_the_order_of_their_instants(rt: HostRuntime) {
    let both = sorted_and_shown(rt.alloc());
    let Ok([sorted, shown]) = both else {
        panic!(rt; "no memory")
    };
    assert_eq!(rt; shown.as_slice(), sorted.as_slice());
}
