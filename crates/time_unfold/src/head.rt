//! A packet without a timestamp is counted from another packet's stamp; `head_among` finds this stamp.

ghost use Rattle.std.specs.Prelude.{◌≡◌, ◌≤◌, ◌*◌, All, IfSome};
ghost use Rattle.time_unfold.specs.Limits.{IsStamp, IsWant};
ghost use Rattle.time_unfold.specs.Stamps.{IsFound, candidate as candidate_of, find_last, fits as fits_of, found, is_near as is_near_of, last_of};
ghost use Rattle.time_unfold.specs.state.Trials.{IsTried};

use crate::line::Line;
use crate::stamp::{Stamp, Want};

const NANOSECONDS: u64 = 1_000_000_000;

/// A packet's first sample is expected at the packet's arrival plus the lead. A stamp is near if the first sample,
/// counted from the stamp, is at most this many packet durations away from that expected instant.
const REACH: u64 = 60;

fn candidate(stamp: &Stamp, want: &Want) -> i64
    requires { IsTried stamp.now want.now }
    ensures { result ≡ candidate_of want.now stamp.now }
{
    let line = Line {
        base: stamp.instant,
        num: NANOSECONDS,
        den: u64::from(want.rate),
    };
    line.at(i64::from(want.back))
}

fn is_near(stamp: &Stamp, want: &Want) -> bool
    requires { IsTried stamp.now want.now }
    ensures { result ≡ is_near_of want.now stamp.now }
{
    let expected = want.arrival + i64::from(want.lead);
    let distance = expected.abs_diff(candidate(stamp, want));
    u128::from(distance) * u128::from(want.rate)
        <= u128::from(REACH * u64::from(want.count) * NANOSECONDS)
}

fn fits(stamp: &Stamp, want: &Want) -> bool
    requires { IsTried stamp.now want.now }
    ensures { result ≡ fits_of want.now stamp.now }
{
    stamp.seq == want.seq
        && stamp.mr == want.mr
        && stamp.rate == want.rate
        && stamp.block == want.block
        && is_near(stamp, want)
}

/// The last of the stamps that fit.
pub fn last_fit(stamps: &[Stamp], want: &Want) -> Option<Stamp>
    requires stamps { All IsStamp stamps.now }
    requires want { IsWant want.now }
    ensures value { result ≡ find_last (fits_of want.now) stamps.now }
    ensures stamp { IfSome result IsStamp }
{
    let mut rest = stamps;
    while let Some((last, front)) = rest.split_last() {
        if fits(last, want) {
            return Some(*last);
        }
        rest = front;
    }
    None
}

/// A packet without a timestamp is counted from the returned stamp. The returned stamp is the last that fits among the
/// last `room` stamps of the list. `None` if and only if none of the last `room` stamps fits.
///
/// A stamp fits if it has the wanted sequence number, media clock restart bit, rate and block count, and is near (IEEE
/// 1722-2016, 7, sparse timestamps; IEC 61883-6, block counts). A packet's first sample is expected at the packet's
/// arrival plus the lead. A stamp is near if the first sample, counted from the stamp, is at most 60 packet durations
/// away from that expected instant.
///
/// The stamps are in the order in which their packets arrived, and their instants are from -2^62 to below 2^62 + 2^31
/// ns. The packet has at most 65,535 samples, and its rate is at least 1 Hz. `want.back` is at most 7 times the
/// packet's number of samples.
pub fn head_among(stamps: &[Stamp], room: u32, want: &Want) -> Option<Stamp>
    requires stamps { All IsStamp stamps.now }
    requires want { IsWant want.now }
    ensures value { result ≡ found room want.now stamps.now }
    ensures last { IsFound want.now (last_of room stamps.now) result }
{
    let first = stamps.len().saturating_sub(room as usize);
    last_fit(&stamps[first..], want)
}
