//! The packets of a clock.

use avtp_base::Bytes;

/// A clock packet (IEEE 1722-2016, 10), with borrowed timestamps.
#[derive(Clone, Copy, Debug)]
pub struct Points<'a> {
    /// The packet gives points: it is well formed, it is of the type for audio samples, and its timestamps are certain.
    pub usable: bool,
    /// The sequence number, modulo 256.
    pub seq: u8,
    /// The media clock restart bit, which toggles when the clock restarts.
    pub mr: bool,
    /// The base frequency in Hz, before it is pulled.
    pub base_frequency: u32,
    /// The code, from 0 to 5, of the pull factor. The base frequency is multiplied by this factor.
    pub pull: u8,
    /// The number of events from one timestamp to the next.
    pub interval: u16,
    /// The timestamps, 8 bytes each, in nanoseconds of gPTP, highest byte first.
    pub payload: &'a [u8],
}

/// A clock packet that owns its timestamps.
#[derive(Debug, Drop)]
pub struct ClockRow {
    pub usable: bool,
    pub seq: u8,
    pub mr: bool,
    pub base_frequency: u32,
    pub pull: u8,
    pub interval: u16,
    pub payload: Bytes,
}

impl ClockRow {
    ghost use Rattle.std.specs.Prelude.{◌≡◌};
    ghost use Rattle.clock_track.specs.Views.{row_of};

    /// The clock packet, with borrowed timestamps.
    pub fn points(&self) -> Points<'_>
        ensures { row_of result ≡ self.now }
    {
        Points {
            usable: self.usable,
            seq: self.seq,
            mr: self.mr,
            base_frequency: self.base_frequency,
            pull: self.pull,
            interval: self.interval,
            payload: self.payload.as_slice(),
        }
    }
}
