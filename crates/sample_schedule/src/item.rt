//! The items that are made of the deliveries of a stream.

use crate::shown::Reason;
use avtp_base::Bytes;
use time_unfold::HeadRule;

/// A well formed packet of audio samples.
#[derive(Debug, Drop)]
pub struct Packet {
    /// The number of the record in the capture, from 1.
    pub frame: u64,
    /// When the record was captured, in nanoseconds of gPTP.
    pub arrival: i64,
    pub seq: u8,
    /// The media clock restart bit.
    pub mr: bool,
    /// Whether the timestamp is uncertain.
    pub tu: bool,
    /// The timestamp, if there is a valid one.
    pub stamp: Option<u32>,
    pub rule: HeadRule,
    /// The nominal rate in Hz; 0 if the packet names no rate.
    pub rate: u32,
    /// The number of sample frames or data blocks.
    pub count: u32,
    /// The sample bytes. Each of the `count` samples has the same number of bytes.
    pub bytes: Bytes,
}

/// A whole H.264 unit.
#[derive(Debug, Drop)]
pub struct Unit {
    /// The number of the record that completed the unit; the capture's records are numbered from 1.
    pub frame: u64,
    /// When the record that completed the unit was captured, in nanoseconds of gPTP.
    pub arrival: i64,
    pub seq: u8,
    /// When the unit is presented, in nanoseconds of gPTP.
    pub instant: i64,
    pub bytes: Bytes,
}

/// A delivery that a schedule flags with this reason in any case, for example a malformed packet, or a fragment that is
/// in no whole unit.
#[derive(Debug, Drop)]
pub struct Bad {
    /// The number of the record in the capture, from 1.
    pub frame: u64,
    /// When the record was captured, in nanoseconds of gPTP.
    pub arrival: i64,
    pub seq: u8,
    pub reason: Reason,
}

/// An item of a stream.
#[derive(Debug, Drop)]
pub enum Item {
    Packet(Packet),
    Unit(Unit),
    Bad(Bad),
}

impl Item {
    ghost use Rattle.std.specs.Prelude.{◌≡◌};
    ghost use Rattle.sample_schedule.specs.Schedule.{frame_of, item_arrival, seq_of};

    /// The number of the item's record in the capture, from 1.
    pub fn frame(&self) -> u64
        ensures { result ≡ frame_of self.now }
    {
        match self {
            Item::Packet(packet) => packet.frame,
            Item::Unit(unit) => unit.frame,
            Item::Bad(bad) => bad.frame,
        }
    }

    /// When the item's record was captured, in nanoseconds of gPTP.
    pub fn arrival(&self) -> i64
        ensures { result ≡ item_arrival self.now }
    {
        match self {
            Item::Packet(packet) => packet.arrival,
            Item::Unit(unit) => unit.arrival,
            Item::Bad(bad) => bad.arrival,
        }
    }

    /// The sequence number.
    pub fn seq(&self) -> u8
        ensures { result ≡ seq_of self.now }
    {
        match self {
            Item::Packet(packet) => packet.seq,
            Item::Unit(unit) => unit.seq,
            Item::Bad(bad) => bad.seq,
        }
    }
}
