//! Whether the timestamps of a stream advance by the durations of its packets.

use crate::rate::Beat;
use crate::tally::At;

/// A timestamp is allowed to be off by 1 / `PART_OF_PACKET` of the duration of the previous packet with a timestamp,
/// plus 1 / `PART_OF_ADVANCE` of the advance that the timestamp should have. The reasons are that a talker rounds
/// timestamps, and that a media clock does not run exactly at its nominal speed.
const PART_OF_PACKET: u64 = 8;

const PART_OF_ADVANCE: u64 = 1024;

/// The maximum advance of a timestamp in a stream without a rate, in nanoseconds. In a stream without a rate,
/// successive packets share a timestamp or are an unknown time apart.
const MOST_ADVANCE: i64 = 1_000_000_000;

/// A timestamp of 32 or 64 bits.
#[derive(Clone, Copy)]
pub enum Stamp {
    /// The field `avtp_timestamp` of a packet: nanoseconds modulo 2^32.
    Short(u32),
    /// A timestamp of a media clock: nanoseconds.
    Long(u64),
}

impl Stamp {
    /// How long this timestamp is after `other`, modulo 2^32 or 2^64. Negative if this timestamp is before `other`.
    fn since(self, other: Stamp) -> i64 {
        match (self, other) {
            (Stamp::Short(now), Stamp::Short(then)) => {
                i64::from(now.wrapping_sub(then).cast_signed())
            }
            (Stamp::Long(now), Stamp::Long(then)) => now.wrapping_sub(then).cast_signed(),
            _ => 0,
        }
    }

    /// This timestamp with its bytes in the reverse order.
    fn swapped(self) -> Stamp {
        match self {
            Stamp::Short(stamp) => Stamp::Short(stamp.swap_bytes()),
            Stamp::Long(stamp) => Stamp::Long(stamp.swap_bytes()),
        }
    }

    /// The difference of two leads. For timestamps of 32 bits, `difference` is known only modulo 2^32, and the possible
    /// value that is nearest to 0 is returned.
    pub fn wrapped(self, difference: i64) -> i64 {
        match self {
            Stamp::Short(_) => {
                let low = difference.cast_unsigned() & 0xffff_ffff;
                i64::from(u32::try_from(low).unwrap_or(0).cast_signed())
            }
            Stamp::Long(_) => difference,
        }
    }

    /// How long this timestamp is after `arrival`, modulo 2^32 or 2^64.
    pub fn lead(self, arrival: i64) -> i64 {
        let arrival = arrival.cast_unsigned();
        match self {
            Stamp::Short(_) => {
                let low = u32::try_from(arrival & 0xffff_ffff).unwrap_or(0);
                self.since(Stamp::Short(low))
            }
            Stamp::Long(_) => self.since(Stamp::Long(arrival)),
        }
    }
}

/// A packet with a timestamp.
#[derive(Clone, Copy)]
pub struct Stamped {
    pub at: At,
    pub stamp: Stamp,
    /// The index, among the stream's events, of the packet's first event. Events of missing packets are not counted.
    pub first: u64,
    /// According to the standard, the timestamp belongs to one of the packet's events. The index of this event among
    /// the packet's events is `anchor`.
    pub anchor: u32,
    /// How many events the packet has.
    pub count: u32,
}

/// A timestamp that did not advance as it should.
#[derive(Clone, Copy)]
pub struct Miss {
    pub at: At,
    /// The advance that the timestamp should have had, in nanoseconds. `found` is the advance that the timestamp had.
    pub wanted: u64,
    pub found: i64,
}

/// The timestamps that did not advance as they should.
#[derive(Clone, Copy)]
pub struct Misses {
    pub count: u64,
    pub first: Option<Miss>,
    pub second: Option<Miss>,
    /// Whether the first comparison was a miss. If the first comparison was a miss, the first timestamp does not fit
    /// the timestamps that follow.
    pub at_begin: bool,
}

impl Misses {
    const NONE: Misses = Misses {
        count: 0,
        first: None,
        second: None,
        at_begin: false,
    };

    fn note(&mut self, miss: Miss, is_first: bool) {
        self.count = self.count.saturating_add(1);
        self.at_begin = self.at_begin || is_first;
        if self.first.is_none() {
            self.first = Some(miss);
        } else if self.second.is_none() {
            self.second = Some(miss);
        }
    }
}

/// How the timestamps of a stream advance if they are read unchanged, and how they advance if their bytes are swapped.
#[derive(Clone, Copy)]
pub struct Pace {
    last: Option<Stamped>,
    /// The number of timestamps that were compared with the previous one.
    pub compared: u64,
    /// The total advance of all timestamps that advanced as they should. `nominal` is the advance that the nominal rate
    /// gives, and `told` is the advance that the timestamps give.
    pub nominal: u64,
    pub told: u64,
    /// The misses, on the assumption that each timestamp belongs to the event that the standard names.
    pub by_anchor: Misses,
    /// The misses, on the assumption that each timestamp belongs to the packet's first event. Some talkers stamp the
    /// first event of each packet.
    pub by_first: Misses,
    /// The misses of timestamps with swapped bytes, on the assumption of `by_anchor`. `swapped_by_first` holds the
    /// misses of timestamps with swapped bytes on the assumption of `by_first`. If a timestamp's own byte order makes
    /// it a miss on the assumptions of both `by_anchor` and `by_first`, the timestamp is tried with swapped bytes. No
    /// other timestamp is tried with swapped bytes.
    pub swapped_by_anchor: Misses,
    pub swapped_by_first: Misses,
}

/// How a timestamp compares with the previous timestamp.
#[derive(Clone, Copy, PartialEq, Eq)]
pub enum Advance {
    /// The timestamp is the first, or could not be compared.
    Begun,
    /// The timestamp advanced as it should.
    Even,
    /// The timestamp did not advance as it should.
    Missed,
}

impl Pace {
    pub const NONE: Pace = Pace {
        last: None,
        compared: 0,
        by_anchor: Misses::NONE,
        by_first: Misses::NONE,
        swapped_by_anchor: Misses::NONE,
        swapped_by_first: Misses::NONE,
        nominal: 0,
        told: 0,
    };

    /// After this call, the next timestamp is not compared with earlier timestamps. The call is needed after a restart
    /// of the media clock, after missing packets, and if a block count does not continue the previous one.
    pub fn restart(&mut self) {
        self.last = None;
    }

    /// `by_anchor` or `by_first`, whichever has fewer misses.
    pub fn misses(&self) -> &Misses {
        better(&self.by_anchor, &self.by_first)
    }

    /// `swapped_by_anchor` or `swapped_by_first`, whichever has fewer misses.
    pub fn swapped_misses(&self) -> &Misses {
        better(&self.swapped_by_anchor, &self.swapped_by_first)
    }

    /// The first miss of `by_first` if `swapped_by_first` has fewer misses than `swapped_by_anchor`. Otherwise the
    /// first miss of `by_anchor`.
    pub fn first_miss(&self) -> Option<Miss> {
        if self.swapped_by_first.count < self.swapped_by_anchor.count {
            self.by_first.first
        } else {
            self.by_anchor.first
        }
    }

    /// According to the timestamps, the stream's events are faster than the nominal rate by this many parts of 10^9.
    pub fn media_rate(&self) -> Option<i128> {
        i128::from(self.nominal)
            .saturating_sub(i128::from(self.told))
            .saturating_mul(1_000_000_000)
            .checked_div(i128::from(self.told))
    }

    /// Notes the next timestamp, and compares it with the previous one.
    pub fn note(&mut self, stamped: &Stamped, beat: Option<Beat>) -> Advance {
        let advance = match self.last {
            Some(last) => self.compare(&last, stamped, beat),
            None => Advance::Begun,
        };
        self.last = Some(*stamped);
        advance
    }

    fn compare(&mut self, last: &Stamped, stamped: &Stamped, beat: Option<Beat>) -> Advance {
        let is_first = self.compared == 0;
        self.compared = self.compared.saturating_add(1);
        match beat {
            Some(beat) => self.note_paced(last, stamped, beat, is_first),
            None => self.note_unpaced(last, stamped, is_first),
        }
    }

    /// Notes a timestamp of a stream with a rate. If `by_anchor` and `by_first` expect the same advance and the
    /// timestamp shows that advance, one comparison is enough.
    fn note_paced(
        &mut self,
        last: &Stamped,
        stamped: &Stamped,
        beat: Beat,
        is_first: bool,
    ) -> Advance {
        let slack = beat.time_of(u64::from(last.count)) / PART_OF_PACKET;
        let events = stamped.first.saturating_sub(last.first);
        let by_first = beat.time_of(events);
        let by_anchor = if stamped.anchor == last.anchor {
            by_first
        } else {
            beat.time_of(
                events
                    .saturating_add(u64::from(stamped.anchor))
                    .saturating_sub(u64::from(last.anchor)),
            )
        };
        let plain = stamped.stamp.since(last.stamp);
        let even = self
            .by_anchor
            .compare(stamped.at, by_anchor, plain, slack, is_first);
        let even_first = even && by_first == by_anchor
            || self
                .by_first
                .compare(stamped.at, by_first, plain, slack, is_first);
        if even || even_first {
            let wanted = if even { by_anchor } else { by_first };
            self.nominal = self.nominal.saturating_add(wanted);
            self.told = self.told.saturating_add(plain.unsigned_abs());
            return Advance::Even;
        }
        let swapped = stamped.stamp.swapped().since(last.stamp.swapped());
        let _ = self
            .swapped_by_anchor
            .compare(stamped.at, by_anchor, swapped, slack, is_first);
        let _ = self
            .swapped_by_first
            .compare(stamped.at, by_first, swapped, slack, is_first);
        Advance::Missed
    }

    /// Notes a timestamp of a stream without a rate. The timestamp must equal the previous timestamp or advance by a
    /// limited amount.
    fn note_unpaced(&mut self, last: &Stamped, stamped: &Stamped, is_first: bool) -> Advance {
        let plain = stamped.stamp.since(last.stamp);
        if is_advance(plain) {
            return Advance::Even;
        }
        let swapped = stamped.stamp.swapped().since(last.stamp.swapped());
        if !is_advance(swapped) {
            let miss = Miss {
                at: stamped.at,
                wanted: 0,
                found: swapped,
            };
            self.swapped_by_anchor.note(miss, is_first);
            self.swapped_by_first.note(miss, is_first);
        }
        let miss = Miss {
            at: stamped.at,
            wanted: 0,
            found: plain,
        };
        self.by_anchor.note(miss, is_first);
        self.by_first.note(miss, is_first);
        Advance::Missed
    }
}

fn is_advance(found: i64) -> bool {
    found >= 0 && found <= MOST_ADVANCE
}

fn better<'a>(one: &'a Misses, other: &'a Misses) -> &'a Misses {
    if other.count < one.count { other } else { one }
}

impl Misses {
    /// Whether a timestamp advanced as it should. Notes the miss if the timestamp did not advance as it should.
    fn compare(&mut self, at: At, wanted: u64, found: i64, slack: u64, is_first: bool) -> bool {
        let slack = slack.saturating_add(wanted / PART_OF_ADVANCE);
        let wanted_signed = i64::try_from(wanted).unwrap_or(i64::MAX);
        if found.abs_diff(wanted_signed) <= slack {
            return true;
        }
        self.note(Miss { at, wanted, found }, is_first);
        false
    }
}
