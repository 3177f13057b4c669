//! Deliveries over a bad network, and what becomes of them. They were worked out by hand and by another program.

use soak_run::{Noise, soak, soak_deliveries};
use std::alloc::Global;
use std::ops::Range;
use std::test::Fail;
use std::thread::Threads;
use vectors_avtp::check_rows;

/// Seeds, and the first four numbers that are drawn from each seed. A seed is taken modulo 2^31.
const DRAWS: &str = "\
1 => [16838, 5758, 10113, 17515]
2147483649 => [16838, 5758, 10113, 17515]
2 => [908, 22817, 10239, 12914]";

/// The first four numbers that are drawn from a seed.
fn drawn(alloc: Global, seed: &str) -> Result<String, Fail> {
    let mut noise = Noise::new(seed.parse()?);
    let numbers = [noise.draw(), noise.draw(), noise.draw(), noise.draw()];
    Ok(format!(in alloc; "{numbers:?}")?)
}

#[test]
fn numbers_are_drawn_from_a_seed(rt: HostRuntime) -> Result<(), Fail> {
    let alloc = rt.alloc();
    check_rows(DRAWS, |seed| drawn(alloc, seed))
}

/// How many packets are sent, a range of indexes, and how many copies are delivered. Then come the copies with these
/// indexes: each copy's arrival, and the number of its packet.
const DELIVERIES: &str = "\
0 0..0 => 0: []
1 0..1 => 1: [(1002480000, 0)]
2 0..2 => 2: [(1001320000, 0), (1002125000, 1)]
// the seventh and the tenth packet are lost, and the last packet is delivered twice
11 0..10 => 10: [(1000960000, 0), (1001130000, 2), (1001220000, 4), (1001865000, 5), (1001885000, 1), (1001895000, 3), (1002090000, 10), (1002810000, 10), (1002840000, 8), (1002995000, 7)]
// if copies arrive at the same time, they are in the order of their packets' numbers
25 8..10 => 22: [(1002440000, 0), (1002440000, 16)]
1000 1001..1002 => 1002: [(1126485000, 993)]";

/// How many copies of these packets are delivered; then the copies with these indexes.
fn delivered(alloc: Global, packets: u32, indexes: Range<usize>) -> Result<String, Fail> {
    let deliveries = soak_deliveries(alloc, packets.min(1_000_000))?;
    let copies = deliveries.get(indexes).unwrap_or(&[]);
    Ok(format!(in alloc; "{}: {copies:?}", deliveries.len())?)
}

/// What is delivered, with the number of packets and the indexes of a row.
fn delivered_in(alloc: Global, row: &str) -> Result<String, Fail> {
    let (packets, indexes) = row.split_once(' ').ok_or("a row without indexes")?;
    let (first, end) = indexes.split_once("..").ok_or("a row without a range")?;
    delivered(alloc, packets.parse()?, first.parse()?..end.parse()?)
}

#[test]
fn copies_are_delivered_by_arrival(rt: HostRuntime) -> Result<(), Fail> {
    let alloc = rt.alloc();
    check_rows(DELIVERIES, |row| delivered_in(alloc, row))
}

/// How many packets are sent; then six counts. The first count is the number of deliveries. The other five counts are
/// numbers of deliveries: those that are presented, late, repeats, without a known timestamp, or without room in the
/// buffer. The counts for at most ten packets were worked out by hand. The counts for more packets come from another
/// program, which has the same rules for the noise, the deliveries and the listener.
const OUTCOMES: &str = "\
0 => [0, 0, 0, 0, 0, 0]
// one copy, which arrives 0.48 ms after its presentation time
1 => [1, 0, 1, 0, 0, 0]
// one copy of each packet; the second copy arrives exactly at its presentation time
2 => [2, 2, 0, 0, 0, 0]
10 => [8, 3, 4, 0, 1, 0]
100 => [104, 64, 12, 6, 22, 0]
1000 => [1002, 727, 171, 42, 62, 0]
20000 => [19952, 14310, 3874, 750, 1018, 0]";

/// The counts of a run with this many packets.
fn outcomes(threads: &(impl Threads + Sync), alloc: Global, packets: &str) -> Result<String, Fail> {
    let packets: u32 = packets.parse()?;
    let c = soak(threads, alloc, packets.min(1_000_000))?;
    let counts = [
        c.delivered,
        c.presented,
        c.late,
        c.repeat,
        c.untimed,
        c.full,
    ];
    Ok(format!(in alloc; "{counts:?}")?)
}

#[test]
fn each_delivery_has_one_outcome(rt: HostRuntime) -> Result<(), Fail> {
    let alloc = rt.alloc();
    check_rows(OUTCOMES, |packets| outcomes(&rt, alloc, packets))
}
