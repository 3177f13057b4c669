//! Captured packets of a stream and of its clock.

ghost use Rattle.std.specs.Prelude.{All, IfOk};
ghost use Rattle.clock_track.specs.Limits.{IsNotable};
ghost use Rattle.time_unfold.specs.Limits.{IsRule};
ghost use Rattle.sample_schedule.specs.Limits.{IsEntry};

use avtp_base::{Bytes, NoMemory};
use clock_track::ClockRow;
use sample_schedule::{Entry, HeadRule, Item, Packet, Unit};
use std::alloc::Global;

#[derive(Clone, Copy)]
pub enum Captured {
    /// A packet of a 48 kHz stream in which every packet has a timestamp: its sequence number, timestamp and arrival.
    Audio(u8, u32, u64),
    /// A packet of a 44.1 kHz stream in which every packet has a timestamp: its sequence number, timestamp and arrival.
    Cd(u8, u32, u64),
    /// A packet of six data blocks: its sequence number, the count of its first block, its timestamp and its arrival.
    Blocks(u8, u8, Option<u32>, u64),
    /// The packet with this number in a sparse stream.
    Sparse(u16),
    /// The packet with this number in a sparse stream that restarts after every ten packets. Each restart delays all
    /// later packets of the stream by a further 1 ms.
    Restarted(u16),
    /// A packet of the clock.
    Clock(Point),
    /// A unit: its sequence number, arrival and instant.
    Unit(u8, u32, u32),
}

/// A timestamp of a clock, 96 events after the timestamp before it.
#[derive(Clone, Copy)]
pub struct Point {
    pub seq: u8,
    pub mr: bool,
    pub base_frequency: u16,
    pub timestamp: u64,
    pub arrival: u64,
}

/// Which packets of a stream have a timestamp: each one, every eighth one, or those with a data block whose count is a
/// multiple of 8.
#[derive(Clone, Copy)]
enum Form {
    Each,
    Eighth,
    Blocks(u8),
}

fn rule_of(form: Form) -> HeadRule
    ensures { IsRule result }
{
    match form {
        Form::Each => HeadRule::Own,
        Form::Eighth => HeadRule::Eight,
        Form::Blocks(dbc) => HeadRule::Blocks { dbc, interval: 8 },
    }
}

#[derive(Clone, Copy)]
struct Sent {
    seq: u8,
    mr: bool,
    stamp: Option<u32>,
    form: Form,
    arrival: u64,
    rate: u16,
}

const fn stamped(seq: u8, stamp: Option<u32>, form: Form, arrival: u64) -> Sent {
    Sent {
        seq,
        mr: false,
        stamp,
        form,
        arrival,
        rate: 48_000,
    }
}

/// Packet `n` of a sparse stream, after `run` restarts. Packet 0 is due 1.002 s after the epoch. Each packet has 6
/// samples and lasts 125,000 ns. Each packet is captured 2 ms before it is due.
fn sparse(n: u16, run: u16) -> Sent {
    let due = 1_002_000_000 + 125_000 * u64::from(n) + 1_000_000 * u64::from(run);
    Sent {
        seq: (n % 256) as u8,
        mr: run % 2 == 1,
        stamp: if n % 8 == 0 {
            Some((due % (1 << 32)) as u32)
        } else {
            None
        },
        form: Form::Eighth,
        arrival: due - 2_000_000,
        rate: 48_000,
    }
}

/// A packet of six samples of 4 bytes each.
fn packet(alloc: Global, frame: u64, sent: Sent) -> Result<Entry, NoMemory>
    ensures { IfOk result IsEntry }
{
    let bytes = Vec::from_array(alloc, [7u8; 24])?;
    Ok(Entry::Item(Item::Packet(Packet {
        frame,
        arrival: sent.arrival.min(1 << 62) as i64,
        seq: sent.seq,
        mr: sent.mr,
        tu: false,
        stamp: sent.stamp,
        rule: rule_of(sent.form),
        rate: u32::from(sent.rate).max(8_000),
        count: 6,
        bytes: Bytes::over(bytes),
    })))
}

fn clock_row(alloc: Global, point: Point) -> Result<ClockRow, NoMemory>
    ensures { IfOk result IsNotable }
{
    let payload = Vec::from_array(alloc, point.timestamp.to_be_bytes())?;
    Ok(ClockRow {
        usable: point.base_frequency > 0,
        seq: point.seq,
        mr: point.mr,
        base_frequency: u32::from(point.base_frequency),
        pull: 0,
        interval: 96,
        payload: Bytes::over(payload),
    })
}

fn clock_entry(alloc: Global, point: Point) -> Result<Entry, NoMemory>
    ensures { IfOk result IsEntry }
{
    let row = clock_row(alloc, point)?;
    Ok(Entry::Clock {
        arrival: point.arrival.min(1 << 62) as i64,
        row,
    })
}

fn unit(alloc: Global, frame: u64, seq: u8, arrival: u32, instant: u32) -> Result<Entry, NoMemory>
    ensures { IfOk result IsEntry }
{
    let bytes = Vec::from_array(alloc, [7u8])?;
    Ok(Entry::Item(Item::Unit(Unit {
        frame,
        arrival: i64::from(arrival),
        seq,
        instant: i64::from(instant),
        bytes: Bytes::over(bytes),
    })))
}

fn entry(alloc: Global, frame: u64, captured: Captured) -> Result<Entry, NoMemory>
    ensures { IfOk result IsEntry }
{
    let sent = match captured {
        Captured::Audio(seq, stamp, arrival) => stamped(seq, Some(stamp), Form::Each, arrival),
        Captured::Cd(seq, stamp, arrival) => Sent {
            rate: 44_100,
            ..stamped(seq, Some(stamp), Form::Each, arrival)
        },
        Captured::Blocks(seq, dbc, stamp, arrival) => stamped(
            seq,
            stamp,
            Form::Blocks(dbc),
            arrival,
        ),
        Captured::Sparse(n) => sparse(n, 0),
        Captured::Restarted(n) => sparse(n, n / 10),
        Captured::Clock(point) => return clock_entry(alloc, point),
        Captured::Unit(seq, arrival, instant) => {
            return unit(alloc, frame, seq, arrival, instant);
        }
    };
    packet(alloc, frame, sent)
}

/// The captured entries, whose frames are numbered from 1.
pub fn entries_of(alloc: Global, rows: &[Captured]) -> Result<Vec<Entry>, NoMemory>
    ensures { IfOk result (λ v. All IsEntry v.items) }
{
    let mut entries = Vec::new(alloc);
    let mut frame = 1;
    for row in rows {
        entries.push(entry(alloc, frame, *row)?)?;
        frame = frame.wrapping_add(1);
    }
    Ok(entries)
}
