//! A delivery as the code holds it.

ghost use Rattle.time_unfold.specs.Time.{IsArrival};

/// A record that belongs to a stream or to its clock.
#[derive(Clone, Copy)]
pub struct DeliveryView<'a> {
    /// The number of the record in the capture, from 1.
    pub frame: u64,
    /// When the record was captured, in nanoseconds of gPTP.
    pub arrival: i64,
    /// The subtype of the record's packet.
    pub subtype: u8,
    /// The sequence number of the record's packet.
    pub seq: u8,
    /// The record's AVTP packet.
    pub packet: &'a [u8],
    ghost timely: { IsArrival arrival },
}
