//! The entries of a stream. The instants of the stream's packets are in one of several orders.

ghost use Rattle.std.specs.Prelude.{◌≡◌, ◌≤◌, ◌<◌, ◌^◌, All, IfOk, OnOk};
ghost use Rattle.sample_schedule.specs.Limits.{IsEntry};

use avtp_base::{Bytes, NoMemory};
use clock_track::ClockRow;
use sample_schedule::{Entry, HeadRule, Item, Packet};
use std::alloc::Global;

/// The order of the instants in each group of packets. The packets of a group are numbered in the order of arrival.
/// `Stream::waiting` is the number of packets in a group.
#[derive(Clone, Copy)]
pub enum Order {
    Rising,
    Falling,
    Random,
    /// The first packet of a group has the earliest instant, the second packet the latest, the third packet the second
    /// earliest, the fourth packet the second latest, and so on.
    Middle,
    /// All packets of a group have the same instant.
    Equal,
}

/// A stream of packets of 6 samples each, and its clock.
#[derive(Clone, Copy)]
pub struct Stream {
    pub order: Order,
    /// How many packets wait for their instants at a time, from 1 to 65,536.
    pub waiting: u32,
    /// Whether a packet of the clock comes before every sixteenth packet.
    pub clock: bool,
}

/// A random-looking permutation of the 16-bit numbers.
fn scrambled(n: u32) -> u32 {
    let first = n.wrapping_mul(40_503) % 65_536;
    let second = (first ^ (first >> 8)).wrapping_mul(46_387) % 65_536;
    second ^ (second >> 7)
}

impl Stream {
    /// The time between two arrivals, in nanoseconds.
    fn step(&self) -> u64
        ensures { result ≤ 125000 }
    {
        if self.waiting > 4_096 { 1_000 } else { 125_000 }
    }

    /// The index that packet n has in its group if the group is sorted by instant.
    fn place(&self, n: u32) -> u32
        requires { 1 ≤ self.now.waiting }
        ensures { result < self.now.waiting }
    {
        let i = n % self.waiting;
        match self.order {
            Order::Rising => i,
            Order::Falling => self.waiting - 1 - i,
            Order::Random => scrambled(i) % self.waiting,
            Order::Middle if i % 2 == 0 => i / 2,
            Order::Middle => self.waiting - 1 - i / 2,
            Order::Equal => 0,
        }
    }

    fn arrival(&self, n: u64) -> u64
        requires { n < 2 ^ 33 }
        ensures { result < 2 ^ 52 }
    {
        1_000_000_000 + n * self.step()
    }

    /// The instant of packet n. The packets are in groups of `waiting` packets. While the packets of one group arrive,
    /// the packets of the previous group are due.
    fn instant(&self, n: u32) -> u64
        requires some { 1 ≤ self.now.waiting }
        requires most { self.now.waiting ≤ 65536 }
    {
        let waiting = u64::from(self.waiting);
        let first = (u64::from(n) / waiting + 1) * waiting;
        self.arrival(first + u64::from(self.place(n)))
            .saturating_sub(1)
    }

    fn packet(&self, alloc: Global, n: u32) -> Result<Entry, NoMemory>
        requires some { 1 ≤ self.now.waiting }
        requires most { self.now.waiting ≤ 65536 }
        ensures { IfOk result IsEntry }
    {
        let bytes = vec![in alloc; (n % 256) as u8; 24]?;
        Ok(Entry::Item(Item::Packet(Packet {
            frame: u64::from(n) + 1,
            arrival: self.arrival(u64::from(n)) as i64,
            seq: (n % 256) as u8,
            mr: false,
            tu: false,
            stamp: Some((self.instant(n) % (1 << 32)) as u32),
            rule: HeadRule::Own,
            rate: 48_000,
            count: 6,
            bytes: Bytes::over(bytes),
        })))
    }

    /// A packet of the clock. The timestamp in this packet is the instant of packet n.
    fn clock_packet(&self, alloc: Global, n: u32) -> Result<Entry, NoMemory>
        requires some { 1 ≤ self.now.waiting }
        requires most { self.now.waiting ≤ 65536 }
        ensures { IfOk result IsEntry }
    {
        let mut payload = Vec::new(alloc);
        payload.extend_from_slice(self.instant(n).to_be_bytes().as_slice())?;
        Ok(Entry::Clock {
            arrival: self.arrival(u64::from(n)) as i64,
            row: ClockRow {
                usable: true,
                seq: (n / 16 % 256) as u8,
                mr: false,
                base_frequency: 48_000,
                pull: 0,
                interval: 96,
                payload: Bytes::over(payload),
            },
        })
    }

    /// Appends the packet of the clock that precedes packet n, if there is one.
    fn put_clock_packet(
        &self,
        alloc: Global,
        entries: &mut Vec<Entry>,
        n: u32,
    ) -> Result<(), NoMemory>
        requires some { 1 ≤ self.now.waiting }
        requires most { self.now.waiting ≤ 65536 }
        requires entries { All IsEntry entries.old.items }
        ensures { OnOk result (All IsEntry entries.new.items) }
    {
        if !self.clock || n % 16 != 0 {
            return Ok(());
        }
        entries.push(self.clock_packet(alloc, n)?)?;
        Ok(())
    }

    /// The entries of `count` packets of the stream, and of the packets of its clock.
    pub fn entries(&self, alloc: Global, count: u32) -> Result<Vec<Entry>, NoMemory>
        requires some { 1 ≤ self.now.waiting }
        requires most { self.now.waiting ≤ 65536 }
        ensures { IfOk result (λ v. All IsEntry v.items) }
    {
        let mut entries = Vec::new(alloc);
        for n in 0..count {
            self.put_clock_packet(alloc, &mut entries, n)?;
            entries.push(self.packet(alloc, n)?)?;
        }
        Ok(entries)
    }
}
