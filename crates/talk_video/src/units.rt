//! The NAL units of a byte stream, and which of them are of the same access unit.

ghost use Rattle.std.specs.Prelude.{◌≡◌, ◌<◌, ◌≤◌, false, length, IfOk, IfErr, MatchOption, OnOk};
ghost use Rattle.cvf_format.specs.AnnexB.{nal_units};
ghost use Rattle.talk_video.specs.AccessUnits.{has_slice as has_slice_in, is_first_slice as is_first_slice_in, may_begin as may_begin_in, type_in};
ghost use Rattle.cvf_format.specs.Cvf.{is_single_type};
ghost use Rattle.talk_video.specs.Fragments.{all_packets};
ghost use Rattle.talk_video.specs.state.Listing.{CanPass, IsEnded, IsNext, IsWalk, walked};
ghost use Rattle.talk_plan.specs.Plan.{most_input};
ghost use Rattle.talk_video.specs.Streams.{HasListed, IsInside};
ghost use Rattle.talk_video.specs.Units.{units_fault as units_fault_of};

use avtp_base::NoMemory;
use avtp_base::octets::{bit_at, bits_at};
use cvf_format::{fragments, next_unit};
use memchr::memmem;
use std::alloc::Global;
use talk_plan::TalkFault;

/// The start code before each unit (ITU-T H.264, annex B).
const START_CODE: [u8; 3] = [0, 0, 1];

/// The maximum number of packets of an access unit.
const MOST_PACKETS: u64 = 255;

/// A NAL unit, and which packets of the stream carry it.
#[derive(Clone, Copy, Debug)]
pub struct NalUnit {
    /// The offset of the unit's first byte, and the offset after the unit's last byte.
    pub from: usize,
    pub to: usize,
    /// The number of the unit's access unit, counted from 0.
    pub access_unit: u64,
    /// The number of the first packet that carries the unit.
    pub first: u64,
}

/// A walk over the NAL units of a byte stream. A first walk finds faults and needs no memory; a second walk lists the
/// units. With two walks, a fault is found even if memory runs out.
#[derive(Clone, Copy, Debug)]
pub struct Units {
    /// How many units the walk has passed, and the offset after the last passed unit.
    number: usize,
    at: usize,
    /// Whether the current access unit already has a slice. The last passed unit belongs to the current access unit.
    sliced: bool,
    /// How many of the passed units begin a new access unit.
    begun: u64,
    /// How many packets carry the passed units, and how many of these packets precede the access unit of the last
    /// passed unit.
    packets: u64,
    before: u64,
}

/// The type of the unit from offset `from` to `to`.
fn unit_type(bytes: &[u8], from: usize, to: usize) -> u8
    requires { IsInside bytes.now (from, to) }
    ensures { result ≡ type_in bytes.now (from, to) }
{
    bits_at(bytes, from, 0, 8) % 32
}

/// Whether a unit has a slice of a picture (ITU-T H.264, table 7-1).
#[tactic(auto, unfolding(crate::specs::AccessUnits::has_slice))]
fn has_slice(bytes: &[u8], from: usize, to: usize) -> bool
    requires { IsInside bytes.now (from, to) }
    ensures { result ≡ has_slice_in bytes.now (from, to) }
{
    matches!(unit_type(bytes, from, to), 1..=5)
}

/// Whether the slice of a unit is the first slice of a picture: the top bit of the unit's second byte is set. A slice
/// of one byte has no second byte, so it begins no access unit.
fn is_first_slice(bytes: &[u8], from: usize, to: usize) -> bool
    requires { IsInside bytes.now (from, to) }
    ensures { result ≡ is_first_slice_in bytes.now (from, to) }
{
    from + 1 < to && bit_at(bytes, from + 1, 0)
}

/// Whether a unit can begin an access unit (ITU-T H.264, 7.4.1.2.3). A unit that can begin an access unit does so if
/// and only if the current access unit already has a slice.
#[tactic(auto, unfolding(crate::specs::AccessUnits::may_begin))]
fn may_begin(bytes: &[u8], from: usize, to: usize) -> bool
    requires { IsInside bytes.now (from, to) }
    ensures { result ≡ may_begin_in bytes.now (from, to) }
{
    match unit_type(bytes, from, to) {
        6..=9 | 14..=18 => true,
        1 | 2 | 5 => is_first_slice(bytes, from, to),
        _ => false,
    }
}

impl Units {
    /// A walk that has passed no unit.
    pub fn new() -> Self
        ensures { result ≡ record { number = 0; at = 0; sliced = false; begun = 0; packets = 0; before = 0 } }
    {
        Units {
            number: 0,
            at: 0,
            sliced: false,
            begun: 0,
            packets: 0,
            before: 0,
        }
    }

    /// The walk after it has passed one more unit.
    fn with(&self, bytes: &[u8], from: usize, to: usize) -> Self
        requires { CanPass bytes.now self.now (from, to) }
        ensures { result ≡ walked bytes.now self.now (from, to) }
    {
        let begins = self.sliced && may_begin(bytes, from, to);
        Units {
            number: self.number + 1,
            at: to,
            sliced: has_slice(bytes, from, to) || self.sliced && !begins,
            begun: self.begun + u64::from(begins),
            packets: self.packets + u64::from(fragments(to - from)),
            before: if begins { self.packets } else { self.before },
        }
    }

    /// The next unit, or `None` after the last one.
    pub fn next(&mut self, bytes: &[u8]) -> Option<NalUnit>
        requires { IsWalk bytes.now self.old }
        ensures walk { IsWalk bytes.now self.new }
        ensures next { MatchOption result (IsEnded bytes.now self.old self.new) (λ unit. IsNext bytes.now self.old.number self.new.number unit) }
    {
        let (from, to) = next_unit(bytes, self.at)?;
        let first = self.packets;
        *self = self.with(bytes, from, to);
        Some(NalUnit {
            from,
            to,
            access_unit: self.begun,
            first,
        })
    }
}

/// Whether a packet can carry the unit from `from` to `to`: the unit's type is 1 to 23 (RFC 6184, 5.4).
fn has_single_type(bytes: &[u8], from: usize, to: usize) -> bool
    requires { IsInside bytes.now (from, to) }
    ensures { result ≡ is_single_type (type_in bytes.now (from, to)) }
{
    matches!(unit_type(bytes, from, to), 1..=23)
}

/// Why the units of a byte stream are not sent.
#[tactic(auto, using(crate::proofs::ListingLemmas::begin_walk, crate::proofs::FaultLemmas::no_code, crate::proofs::FaultLemmas::no_other))]
pub fn units_fault(bytes: &[u8]) -> Option<TalkFault>
    requires { length bytes.now ≤ most_input }
    ensures { result ≡ units_fault_of bytes.now }
{
    if memmem::find(bytes, &START_CODE).is_none() {
        return Some(TalkFault::StartCode);
    }
    let mut units = Units::new();
    let mut long = false;
    while let Some(unit) = units.next(bytes) {
        if !has_single_type(bytes, unit.from, unit.to) {
            return Some(TalkFault::NalType);
        }
        long = long || units.packets - units.before > MOST_PACKETS;
    }
    if long { Some(TalkFault::Packets) } else { None }
}

/// All units of a byte stream, and the number of packets that carry them.
#[tactic(auto, using(crate::proofs::ListingLemmas::begin_walk, crate::proofs::ListingLemmas::listed_more))]
pub(crate) fn list_units(alloc: Global, bytes: &[u8]) -> Result<(Vec<NalUnit>, u64), NoMemory>
    requires { length bytes.now ≤ most_input }
    ensures { IfOk result (λ listed. HasListed bytes.now listed.0.items listed.1) }
{
    let mut listed = Vec::new(alloc);
    let mut units = Units::new();
    while let Some(unit) = units.next(bytes) {
        listed.push(unit)?;
    }
    Ok((listed, units.packets))
}
