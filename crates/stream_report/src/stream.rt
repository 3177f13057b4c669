//! A stream, and what is counted for it.

use crate::facts::{Facts, Format, Labels};
use crate::limits::{LEAST_STEP, LEAST_UNEVEN};
use crate::order::Order;
use crate::pace::{Advance, Pace, Stamped};
use crate::rate::Beat;
use crate::sequence::Place;
use crate::tally::{At, Tally};
use crate::trace::{Column, Range, Trace};
use crate::trend::Trend;
use avtp_base::{Field, NoMemory};
use pcap_frames::Tag;
use std::alloc::Global;
use value_spread::Spread;

/// What identifies a stream: the subtype and the stream ID of its packets.
#[derive(Clone, Copy, PartialEq, Eq, Hash)]
pub struct StreamKey {
    /// The subtype of the stream's packets (IEEE 1722-2016, table 6).
    pub subtype: u8,
    pub id: u64,
}

/// The sender, the destination and the VLAN tag of a stream, from the Ethernet header.
#[derive(Clone, Copy, PartialEq, Eq)]
pub struct Sender {
    /// The source address and the destination address, 48 bits each.
    pub source: u64,
    pub destination: u64,
    pub tag: Option<Tag>,
}

/// Where in the capture a frame is, and when it arrived.
#[derive(Clone, Copy)]
pub struct Came {
    pub at: At,
    /// When the frame arrived, in nanoseconds of the capture's clock.
    pub arrival: i64,
    /// The time since the arrival of the capture's first frame, in nanoseconds.
    pub since: u64,
}

/// The number of packets that were refused at `field`.
#[derive(Clone, Copy)]
pub struct FieldCount {
    pub field: Field,
    pub count: u64,
}

/// What is kept of the newest packet.
#[derive(Clone, Copy)]
struct Last {
    count: u32,
    dbc: Option<u8>,
    mr: bool,
    /// The number of packets, including missing packets, since `mr` last changed. `None` if `mr` has not changed.
    held: Option<u64>,
}

/// After a restart of the media clock, `mr` keeps its value for at least this many packets (IEEE 1722-2016, 4.4.4).
const LEAST_HOLD: u64 = 8;

/// If no packet arrives for this many packet durations, the next packet counts as ahead of the newest packet, whatever
/// its sequence number is.
const LONG_PAUSE: u64 = 64;

/// What is counted for a stream. The fields that change with each packet are declared first.
#[derive(Drop)]
pub struct Stream {
    pub key: StreamKey,
    pub sender: Sender,
    pub format: Format,
    /// `None` before the first packet with a rate.
    beat: Option<Beat>,
    /// The duration of the first packet that has any events, at the nominal rate, in nanoseconds. The duration is 0 if
    /// it is not known.
    pub packet_time: u64,
    /// The number of packets that were not refused.
    pub packets: u64,
    /// The arrival of the first packet that was not refused. `last_arrival` is the arrival of the last packet that was
    /// not refused.
    pub first_arrival: i64,
    pub last_arrival: i64,
    last: Option<Last>,
    /// The number of events in the packets that arrived in order, not counting the newest packet.
    events: u64,
    last_lead: Option<i64>,
    /// How often the time between two arrivals was compared with the duration of the earlier packet.
    pub compared: u64,
    /// The times between the arrivals of successive packets in the capture, in nanoseconds.
    pub distances: Spread,
    /// The leads: timestamp minus arrival, in nanoseconds. The leads of a media clock are exact. Other leads are known
    /// only modulo 2^32, and are kept as numbers from -2^31 to 2^31 - 1.
    pub leads: Spread,
    /// `None` if no pictures are wanted.
    pub trace: Option<Trace>,
    /// `None` before the first packet that is not refused.
    order: Option<Order>,
    pub trend: Trend,
    pub pace: Pace,
    pub first: At,
    /// The number of events in the first packet that has any events.
    pub count: u32,
    /// Packets whose lead is below 0.
    pub late: Tally,
    /// Uneven arrivals: the time since the previous arrival differs too much from the previous packet's duration.
    pub uneven: Tally,
    pub restarts: Tally,
    pub flapping: Tally,
    pub uncertain: Tally,
    pub missing: Tally,
    pub unwanted: Tally,
    pub reserved: Tally,
    /// Block counts (DBC) that do not continue the block count of the previous packet.
    pub blocks: Tally,
    /// Quadlets with a label other than 0x40. `reserved_labels` are quadlets with a reserved label.
    pub labels: Tally,
    pub reserved_labels: Tally,
    pub first_label: u8,
    pub malformed: Tally,
    pub fields: Vec<FieldCount>,
    /// Packets whose sender, destination or VLAN tag differs from the first packet's. `formats` are the packets whose
    /// format differs from the first packet's.
    pub senders: Tally,
    pub formats: Tally,
}

/// How a packet follows the packets before it.
#[derive(Clone, Copy, PartialEq, Eq)]
enum Step {
    First,
    Next,
    /// This many packets are missing before the packet.
    After(u64),
    /// The packet arrived after packets with later numbers, and was counted as missing.
    Late,
    /// The packet's number is before the first packet's number.
    Early,
    Repeat,
}

impl Step {
    /// How many packets are missing before the packet.
    fn missing(self) -> u64 {
        match self {
            Step::After(missing) => missing,
            _ => 0,
        }
    }
}

impl Stream {
    /// A stream whose first packet is in the frame `first`, with nothing counted yet. The stream has a `trace` if
    /// pictures of it are wanted.
    pub fn new(
        alloc: Global,
        key: StreamKey,
        sender: Sender,
        first: At,
        trace: Option<Trace>,
    ) -> Self {
        Stream {
            key,
            sender,
            first,
            format: Format::Unknown,
            count: 0,
            packet_time: 0,
            packets: 0,
            first_arrival: 0,
            last_arrival: 0,
            distances: Spread::new(alloc),
            leads: Spread::new(alloc),
            late: Tally::NONE,
            pace: Pace::NONE,
            trend: Trend::NONE,
            compared: 0,
            uneven: Tally::NONE,
            restarts: Tally::NONE,
            flapping: Tally::NONE,
            uncertain: Tally::NONE,
            missing: Tally::NONE,
            unwanted: Tally::NONE,
            reserved: Tally::NONE,
            blocks: Tally::NONE,
            labels: Tally::NONE,
            reserved_labels: Tally::NONE,
            first_label: 0,
            malformed: Tally::NONE,
            fields: Vec::new(alloc),
            senders: Tally::NONE,
            formats: Tally::NONE,
            trace,
            beat: None,
            order: None,
            last: None,
            events: 0,
            last_lead: None,
        }
    }

    /// Counts a packet that is refused at `field`.
    pub fn note_malformed(&mut self, at: At, field: Field) -> Result<(), NoMemory> {
        self.malformed.note(at);
        for known in self.fields.iter_mut() {
            if known.field == field {
                known.count = known.count.saturating_add(1);
                return Ok(());
            }
        }
        self.fields.push(FieldCount { field, count: 1 })?;
        Ok(())
    }

    /// Counts a packet that is not refused.
    pub fn note(&mut self, came: &Came, sender: &Sender, facts: &Facts) -> Result<(), NoMemory> {
        let distance = self.note_arrival(came.arrival)?;
        self.note_kind(came.at, sender, facts);
        let step = self.note_order(came.at, facts.seq, distance);
        if matches!(step, Step::First | Step::Next | Step::After(_)) {
            self.note_next(came, facts, step, distance);
        }
        let lead = if step == Step::Repeat {
            None
        } else {
            self.note_lead(came, facts)?
        };
        let Some(trace) = &mut self.trace else {
            return Ok(());
        };
        if step == Step::Late {
            trace.take_back();
        }
        let column = Column {
            slot: 0,
            lead: lead.map(Range::of),
            distance: distance.map(Range::of),
            lost: step.missing(),
        };
        trace.note(came.since, column)
    }

    /// Counts the arrival of a packet. Returns the time since the previous packet's arrival, if there was a previous
    /// packet.
    fn note_arrival(&mut self, arrival: i64) -> Result<Option<i64>, NoMemory> {
        let before = self.last_arrival;
        self.last_arrival = arrival;
        self.packets = self.packets.saturating_add(1);
        if self.packets == 1 {
            self.first_arrival = arrival;
            return Ok(None);
        }
        let distance = arrival.wrapping_sub(before);
        self.distances.note(distance)?;
        Ok(Some(distance))
    }

    /// Counts what is found without comparing a packet with the packet before it in the stream.
    fn note_kind(&mut self, at: At, sender: &Sender, facts: &Facts) {
        if *sender != self.sender {
            self.senders.note(at);
        }
        if self.packets == 1 {
            self.format = facts.format;
        } else if is_change(&self.format, &facts.format) {
            self.formats.note(at);
        }
        if self.packet_time == 0 {
            self.note_time(facts);
        }
        if facts.reserved {
            self.reserved.note(at);
        }
        if facts.tu {
            self.uncertain.note(at);
        }
        if facts.labels.other > 0 {
            self.note_labels(at, facts.labels);
        }
    }

    /// Counts labels other than 0x40.
    fn note_labels(&mut self, at: At, labels: Labels) {
        if self.reserved_labels.count == 0 {
            self.first_label = labels.first_reserved;
        }
        self.labels.add(u64::from(labels.other), at);
        self.reserved_labels.add(u64::from(labels.reserved), at);
    }

    /// Keeps the number of events of the first packet that has any, and the rate of the first packet that has one.
    fn note_time(&mut self, facts: &Facts) {
        if self.count == 0 {
            self.count = facts.count;
        }
        let rate = match self.beat {
            Some(beat) => Some(beat.rate),
            None => facts.format.rate(),
        };
        if let Some(rate) = rate {
            self.beat = Some(Beat::new(rate, self.count));
            self.packet_time = rate.time_of(u64::from(self.count));
        }
    }

    /// The counts that are based on sequence numbers. All counts are 0 before the first packet.
    fn counted(&self) -> Order {
        match self.order {
            Some(order) => order,
            None => Order::first(0),
        }
    }

    /// Packets that are missing. The length of a gap is known only modulo 256, as a number from 0 to 255. If the length
    /// of the gap exceeds 191 and the stream did not pause, the packet after the gap counts as an earlier packet.
    pub fn lost(&self) -> Tally {
        self.counted().lost
    }

    /// The number of packets missing in the longest gap, as counted when the packet after that gap arrived. Packets
    /// that arrive later do not lower it.
    pub fn most_lost(&self) -> u64 {
        self.counted().most_lost
    }

    /// Packets that arrived more than once.
    pub fn repeated(&self) -> Tally {
        self.counted().repeated
    }

    /// Packets that arrived after packets with later numbers.
    pub fn reordered(&self) -> Tally {
        self.counted().late
    }

    /// Counts a packet by its sequence number, and returns how it follows the packets before it.
    fn note_order(&mut self, at: At, seq: u8, distance: Option<i64>) -> Step {
        let pause = self.packet_time.saturating_mul(LONG_PAUSE);
        let paused = pause > 0 && distance.unwrap_or(0).unsigned_abs() >= pause;
        let Some(order) = &mut self.order else {
            self.order = Some(Order::first(seq));
            return Step::First;
        };
        if paused {
            return after(order.resume(seq, at));
        }
        match order.note(seq, at) {
            Place::Ahead { missing } => after(u64::from(missing)),
            Place::Late => Step::Late,
            Place::Early => Step::Early,
            Place::Repeat => Step::Repeat,
        }
    }

    /// Counts what is found by comparing a packet with the packet before it in the stream.
    fn note_next(&mut self, came: &Came, facts: &Facts, step: Step, distance: Option<i64>) {
        let last = self.last;
        let restarted = self.note_restart(came.at, facts, step.missing());
        let steady = step != Step::Next || self.note_block_count(came.at, facts, last);
        if step == Step::Next && !restarted {
            self.note_evenness(came.at, last, distance);
        }
        self.events = self
            .events
            .saturating_add(last.map_or(0, |last| u64::from(last.count)));
        if step != Step::Next || restarted || !steady {
            self.pace.restart();
        }
        if steady {
            self.note_stamp(came, facts, restarted);
        }
    }

    /// Counts a restart of the media clock if `mr` has changed. Whether or not `mr` has changed, keeps the packet as
    /// the newest. Returns whether there was a restart.
    fn note_restart(&mut self, at: At, facts: &Facts, missing: u64) -> bool {
        let (restarted, held) = match &self.last {
            Some(last) => (last.mr != facts.mr, last.held),
            None => (false, None),
        };
        if restarted {
            self.restarts.note(at);
            if held.is_some_and(|held| held.saturating_add(missing) < LEAST_HOLD) {
                self.flapping.note(at);
            }
        }
        self.last = Some(Last {
            count: facts.count,
            dbc: facts.dbc,
            mr: facts.mr,
            held: if restarted {
                Some(1)
            } else {
                held.map(|held| held.saturating_add(missing).saturating_add(1))
            },
        });
        restarted
    }

    /// Whether the packet's block count continues the block count of the packet directly before it. If the block count
    /// does not continue, the packet is counted in `blocks`. True if one of the block counts is not known.
    fn note_block_count(&mut self, at: At, facts: &Facts, last: Option<Last>) -> bool {
        let Some(last) = last else {
            return true;
        };
        let (Some(before), Some(now)) = (last.dbc, facts.dbc) else {
            return true;
        };
        let low = u8::try_from(last.count % 256).unwrap_or(0);
        if before.wrapping_add(low) == now {
            return true;
        }
        self.blocks.note(at);
        false
    }

    /// Counts an arrival if it is uneven: the time since the previous arrival differs too much from the previous
    /// packet's duration.
    fn note_evenness(&mut self, at: At, last: Option<Last>, distance: Option<i64>) {
        let (Some(beat), Some(last), Some(distance)) = (self.beat, last, distance) else {
            return;
        };
        let time = beat.time_of(u64::from(last.count));
        let wanted = i64::try_from(time).unwrap_or(i64::MAX);
        self.compared = self.compared.saturating_add(1);
        if distance.abs_diff(wanted) > (time / 2).max(LEAST_UNEVEN) {
            self.uneven.note(at);
        }
    }

    /// Counts the packet if its timestamp is missing, or if the packet has a timestamp that it must not have. Compares
    /// the packet's timestamp with the previous timestamp, unless the packet's timestamp is uncertain.
    fn note_stamp(&mut self, came: &Came, facts: &Facts, restarted: bool) {
        if facts.stamp_wrong {
            match facts.stamp {
                Some(_) => self.unwanted.note(came.at),
                None => self.missing.note(came.at),
            }
        }
        let Some(stamp) = facts.stamp else {
            return;
        };
        if facts.tu {
            return;
        }
        let stamped = Stamped {
            at: came.at,
            stamp,
            first: self.events,
            anchor: facts.anchor,
            count: facts.count,
        };
        let advance = self.pace.note(&stamped, self.beat);
        let advance = if restarted { Advance::Missed } else { advance };
        self.note_trend(came.arrival, &stamped, advance);
    }

    /// Computes the lead of a packet's first event from the packet's timestamp, and adds this lead to the trend. If the
    /// timestamps have a step, the lead counts as unchanged. If a timestamp advances by the packets' durations, the
    /// timestamp is not a step, however late its packet arrives.
    fn note_trend(&mut self, arrival: i64, stamped: &Stamped, advance: Advance) {
        let before_anchor = match self.beat {
            Some(beat) => beat.time_of(u64::from(stamped.anchor)),
            None => 0,
        };
        let stamp = stamped.stamp;
        let lead = stamp
            .lead(arrival)
            .wrapping_sub(before_anchor.cast_signed());
        let change = match self.last_lead {
            Some(before) => stamp.wrapped(lead.wrapping_sub(before)),
            None => 0,
        };
        let goes_on = match advance {
            Advance::Even if self.beat.is_some() => true,
            Advance::Even | Advance::Begun => change.unsigned_abs() <= LEAST_STEP,
            Advance::Missed => false,
        };
        let change = if goes_on { change } else { 0 };
        self.last_lead = Some(lead);
        let since = arrival.wrapping_sub(self.first_arrival).max(0);
        self.trend.note(since.cast_unsigned(), change);
    }

    /// Counts and returns the lead of a packet. `None` if the packet's timestamp is missing or uncertain.
    fn note_lead(&mut self, came: &Came, facts: &Facts) -> Result<Option<i64>, NoMemory> {
        let Some(stamp) = facts.stamp else {
            return Ok(None);
        };
        if facts.tu {
            return Ok(None);
        }
        let lead = stamp.lead(came.arrival);
        self.leads.note(lead)?;
        if lead < 0 {
            self.late.note(came.at);
        }
        Ok(Some(lead))
    }
}

/// How a packet follows the packet before it. `missing` is the number of packets that are missing between the two
/// packets.
fn after(missing: u64) -> Step {
    if missing == 0 {
        Step::Next
    } else {
        Step::After(missing)
    }
}

/// Whether a packet has another format than the stream. A missing rate is no change, because a packet without data has
/// no rate. A different number of timestamps in a packet of a media clock is no change, either.
fn is_change(was: &Format, now: &Format) -> bool {
    if was == now {
        return false;
    }
    match (was, now) {
        (
            Format::Iec { rate, quadlets },
            Format::Iec {
                rate: now_rate,
                quadlets: now_quadlets,
            },
        ) => {
            let rates_differ = rate.is_some() && now_rate.is_some() && rate != now_rate;
            rates_differ || quadlets != now_quadlets
        }
        (
            Format::Crf {
                kind,
                base,
                pull,
                interval,
                points: _,
            },
            Format::Crf {
                kind: now_kind,
                base: now_base,
                pull: now_pull,
                interval: now_interval,
                points: _,
            },
        ) => (kind, base, pull, interval) != (now_kind, now_base, now_pull, now_interval),
        _ => true,
    }
}
