//! The verdicts on a stream.

use crate::limits::{
    CLASS_A, CLASS_B, DRIFT_PART, FEW, LEAST_DRIFT, LEAST_DRIFT_TIME, MOST_LEAD, MOST_TRANSIT,
    TAI_AHEAD, UNEVEN_PART,
};
use crate::stream::Stream;
use crate::tally::Tally;
use crate::verdict::{ClockGuess, Verdict};
use avtp_base::NoMemory;
use avtp_header::subtype;
use std::alloc::Global;

/// The class of a stream: the first class whose max transit time is at least the median lead.
#[derive(Clone, Copy, PartialEq, Eq)]
pub enum Class {
    /// The max transit time is 2 ms.
    A,
    /// The max transit time is 50 ms.
    B,
    /// The max transit time is longer than 50 ms.
    Longer,
    /// Most presentation times are before the packets' arrivals or far after them, so the lead cannot be a transit
    /// time.
    Unknown,
}

/// The class of a stream, judged from its leads. `None` if no packet has a timestamp.
pub fn class_of(stream: &Stream) -> Option<Class> {
    let median = stream.leads.percentile(50)?;
    Some(match median {
        0..=CLASS_A => Class::A,
        0..=CLASS_B => Class::B,
        0..=MOST_LEAD => Class::Longer,
        _ => Class::Unknown,
    })
}

/// What is wrong with a stream, the worst first.
pub fn verdicts_of(alloc: Global, stream: &Stream) -> Result<Vec<Verdict>, NoMemory> {
    let mut verdicts = Vec::new(alloc);
    let order = order_verdict(stream);
    let in_order = order.is_none();
    add(&mut verdicts, order)?;
    if in_order {
        let clocks = clocks_verdict(stream);
        let near = clocks.is_none();
        add(&mut verdicts, clocks)?;
        if near {
            add(&mut verdicts, late_verdict(stream))?;
        }
        add(&mut verdicts, first_stamp_verdict(stream))?;
        add(&mut verdicts, steps_verdict(stream))?;
        add(&mut verdicts, drift_verdict(stream))?;
    }
    add(&mut verdicts, lost_verdict(stream))?;
    add(&mut verdicts, jitter_verdict(stream))?;
    add(&mut verdicts, labels_verdict(stream))?;
    add_counted(&mut verdicts, stream)?;
    verdicts.sort_by_key(|verdict| verdict.rank())?;
    Ok(verdicts)
}

fn add(verdicts: &mut Vec<Verdict>, verdict: Option<Verdict>) -> Result<(), NoMemory> {
    if let Some(verdict) = verdict {
        verdicts.push(verdict)?;
    }
    Ok(())
}

/// Whether `some` exceeds the quotient `of / part`.
fn is_more(some: u64, of: u64, part: u64) -> bool {
    some.saturating_mul(part) > of
}

/// The verdict that most timestamps do not advance by their packets' durations. `None` if at least half of the
/// timestamps advance by their packets' durations.
fn order_verdict(stream: &Stream) -> Option<Verdict> {
    let pace = &stream.pace;
    let compared = pace.compared;
    let off = pace.misses().count;
    if compared == 0 || !is_more(off, compared, 2) {
        return None;
    }
    Some(Verdict::NotInOrder {
        off,
        compared,
        first: pace.first_miss()?,
        swapped: !is_more(pace.swapped_misses().count, compared, FEW),
    })
}

/// The verdict that presentation times are far from the packets' arrivals. For a stream that is not a media clock, the
/// verdict is given if the median lead is negative or above a quarter of a second. For a media clock, the verdict is
/// given if the median lead is more than a quarter of a second away from 0. For a media clock, a slightly negative
/// median is normal. The clock's timestamps are the times of its events, and these times can be in the past.
fn clocks_verdict(stream: &Stream) -> Option<Verdict> {
    let lead = stream.leads.percentile(50)?;
    let exact = stream.key.subtype == subtype::CRF;
    let least = if exact { -MOST_LEAD } else { 0 };
    if lead >= least && lead <= MOST_LEAD {
        return None;
    }
    Some(Verdict::Clocks {
        lead,
        guess: guess_of(lead, exact),
        exact,
    })
}

/// A guess, from the lead, at how the clocks differ.
fn guess_of(lead: i64, exact: bool) -> ClockGuess {
    if is_transit(lead, TAI_AHEAD, exact) {
        ClockGuess::CaptureBehind
    } else if is_transit(lead, -TAI_AHEAD, exact) {
        ClockGuess::CaptureAhead
    } else {
        ClockGuess::Apart
    }
}

/// Whether the lead is a transit time once the difference `apart` of the clocks is subtracted.
fn is_transit(lead: i64, apart: i64, exact: bool) -> bool {
    let rest = lead.saturating_sub(apart);
    let rest = if exact { rest } else { near_zero(rest) };
    rest >= 0 && rest <= MOST_TRANSIT
}

/// The number nearest to 0 that differs from `number` by a multiple of 2^32.
fn near_zero(number: i64) -> i64 {
    let low = number.cast_unsigned() & 0xffff_ffff;
    i64::from(u32::try_from(low).unwrap_or(0).cast_signed())
}

/// The verdict that packets arrived after their presentation time. The verdict is given if two things hold: the stream
/// is not a media clock, and its late packets outnumber its timestamps that do not advance as they should.
fn late_verdict(stream: &Stream) -> Option<Verdict> {
    let explained = stream.pace.misses().count;
    if stream.key.subtype == subtype::CRF || stream.late.count <= explained {
        return None;
    }
    Some(Verdict::Late {
        packets: stream.late,
        stamped: stream.leads.count,
        most: stream.leads.least.unsigned_abs(),
    })
}

fn first_stamp_verdict(stream: &Stream) -> Option<Verdict> {
    let misses = stream.pace.misses();
    let first = misses.first?;
    if !misses.at_begin {
        return None;
    }
    Some(Verdict::FirstStamp {
        found: first.found,
        wanted: first.wanted,
    })
}

/// The verdict that some timestamps do not advance by their packets' durations. The first comparison does not count.
fn steps_verdict(stream: &Stream) -> Option<Verdict> {
    let misses = stream.pace.misses();
    let first = if misses.at_begin {
        misses.second
    } else {
        misses.first
    };
    Some(Verdict::Steps {
        off: misses.count.saturating_sub(u64::from(misses.at_begin)),
        compared: stream.pace.compared,
        first: first?,
    })
}

/// The drift of timestamps against arrivals, in parts of 10^9. `None` if the capture is too short to tell.
pub fn drift_of(stream: &Stream) -> Option<i64> {
    if stream.trend.time() < LEAST_DRIFT_TIME {
        return None;
    }
    stream.trend.drift()
}

/// The verdict that the leads drift, if the drift is more than jitter.
fn drift_verdict(stream: &Stream) -> Option<Verdict> {
    let trend = &stream.trend;
    let parts = drift_of(stream)?;
    let time = trend.time();
    let change = u128::from(parts.unsigned_abs())
        .saturating_mul(u128::from(time))
        .checked_div(1_000_000_000)?;
    let is_drift = parts.unsigned_abs() >= LEAST_DRIFT
        && change.saturating_mul(u128::from(DRIFT_PART)) >= u128::from(trend.spread());
    is_drift.then_some(Verdict::Drift { parts })
}

fn lost_verdict(stream: &Stream) -> Option<Verdict> {
    let packets = stream.lost();
    let most = stream.most_lost();
    (packets.count > 0).then_some(Verdict::Lost { packets, most })
}

fn jitter_verdict(stream: &Stream) -> Option<Verdict> {
    let packets = stream.uneven;
    let compared = stream.compared;
    if !is_more(packets.count, compared, UNEVEN_PART) {
        return None;
    }
    let half = i64::try_from(stream.packet_time / 2).unwrap_or(i64::MAX);
    let bursts = stream.distances.percentile(50)? < half;
    Some(Verdict::Jitter {
        packets,
        compared,
        bursts,
    })
}

fn labels_verdict(stream: &Stream) -> Option<Verdict> {
    let quadlets = stream.reserved_labels;
    let label = stream.first_label;
    (quadlets.count > 0).then_some(Verdict::Labels { quadlets, label })
}

/// For each count of something that is always wrong, adds a verdict if the count is above 0.
fn add_counted(verdicts: &mut Vec<Verdict>, stream: &Stream) -> Result<(), NoMemory> {
    add_if_any(
        verdicts,
        stream.malformed,
        Verdict::Malformed {
            packets: stream.malformed,
        },
    )?;
    add_if_any(
        verdicts,
        stream.senders,
        Verdict::Senders {
            packets: stream.senders,
        },
    )?;
    add_if_any(
        verdicts,
        stream.blocks,
        Verdict::Blocks {
            packets: stream.blocks,
        },
    )?;
    add_if_any(
        verdicts,
        stream.repeated(),
        Verdict::Repeated {
            packets: stream.repeated(),
        },
    )?;
    add_if_any(
        verdicts,
        stream.reordered(),
        Verdict::Reordered {
            packets: stream.reordered(),
        },
    )?;
    add_if_any(
        verdicts,
        stream.flapping,
        Verdict::Flapping {
            restarts: stream.flapping,
        },
    )?;
    add_if_any(
        verdicts,
        stream.missing,
        Verdict::Missing {
            packets: stream.missing,
        },
    )?;
    add_if_any(
        verdicts,
        stream.unwanted,
        Verdict::Unwanted {
            packets: stream.unwanted,
        },
    )?;
    add_if_any(
        verdicts,
        stream.formats,
        Verdict::Formats {
            packets: stream.formats,
        },
    )?;
    add_if_any(
        verdicts,
        stream.reserved,
        Verdict::Reserved {
            packets: stream.reserved,
        },
    )?;
    add_if_any(
        verdicts,
        stream.uncertain,
        Verdict::Uncertain {
            packets: stream.uncertain,
        },
    )
}

fn add_if_any(verdicts: &mut Vec<Verdict>, tally: Tally, verdict: Verdict) -> Result<(), NoMemory> {
    if tally.count > 0 {
        verdicts.push(verdict)?;
    }
    Ok(())
}
