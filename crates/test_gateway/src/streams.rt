//! Streams that are converted, and then converted back. The streams cover all rates, several numbers of channels,
//! packets about as long as the longest piece, sparse PCM, AM824 whose timestamps belong to a later block, and restarts
//! and losses.

use crate::captures::{Recorded, records_of};
use crate::checking::is_clean;
use crate::hearing::samples_of;
use crate::turning::{line_of, turn_scanned};
use am824_gateway::To;
use std::alloc::Global;
use std::test::Fail;
use vectors_avtp::check_rows;

/// A stream of PCM, the number of batches that a listener presents from it, and the number of AM824 packets that these
/// batches make. A packet of AM824 has at most 1,468 bytes of quadlets.
const PCM: &str = "\
rate=32000 => 3 3
rate=44100 => 3 3
rate=48000 => 3 3
rate=88200 => 3 3
rate=96000 => 3 3
rate=176400 => 3 3
rate=192000 => 3 3
channels=1 count=366 => 3 3
channels=1 count=367 => 3 3
channels=1 count=368 => 3 6
channels=1 count=492 => 3 9
channels=2 count=1 => 3 3
channels=2 count=182 => 3 3
channels=2 count=183 => 3 3
channels=2 count=184 => 3 6
channels=2 count=246 => 3 6
channels=61 count=5 => 3 3
channels=61 count=6 => 3 3
channels=61 count=7 => 3 6
channels=122 count=3 => 3 3
channels=122 count=4 => 3 6
channels=123 count=2 => 3 3
channels=123 count=3 => 3 6
channels=183 count=2 => 3 3
channels=184 count=1 => 3 3
channels=184 count=2 => 3 6
channels=256 count=1 => 3 3
sparse packets=17 => 17 17
sparse rate=44100 packets=17 => 17 45
sparse rate=44100 packets=17 lost=3 lost=8 => 8 21
sparse rate=96000 count=5 packets=24 restart=10 => 14 25
rate=44100 packets=20 restart=8 => 20 20
rate=192000 count=100 packets=4 => 4 4
packets=5 lost=1 lost=2 => 3 3
start=0 => 3 3
start=1 => 3 3
start=1999999 => 3 3
rate=44100 start=0 packets=40 => 40 40
start=4294967296000000000 => 3 3
";

/// A stream of AM824, the number of batches that a listener presents from it, and the number of PCM packets that these
/// batches make. If the timestamp belongs to a later block, the samples before and after that block are not all on the
/// nominal line of the first sample.
const AM824: &str = "\
am824 => 3 5
am824 rate=32000 packets=5 => 5 5
am824 rate=44100 packets=9 => 9 19
am824 rate=48000 packets=9 => 9 15
am824 rate=88200 packets=9 => 9 34
am824 rate=96000 packets=9 => 9 18
am824 rate=176400 packets=9 => 9 44
am824 rate=192000 packets=9 => 9 13
am824 rate=44100 dbc=3 packets=4 => 4 12
am824 rate=44100 dbc=253 count=8 packets=4 => 4 16
am824 channels=1 count=366 => 3 5
am824 channels=1 count=367 => 3 5
am824 channels=2 count=183 => 3 5
am824 channels=61 count=6 => 3 5
am824 channels=122 count=3 => 3 4
am824 channels=123 count=2 packets=9 => 9 11
am824 channels=183 count=2 packets=9 => 9 11
am824 channels=184 count=1 packets=9 => 9 9
am824 channels=256 count=1 packets=9 => 9 9
am824 rate=44100 count=1 packets=20 lost=8 => 12 12
am824 rate=44100 packets=20 restart=8 => 20 45
am824 rate=48000 count=5 packets=12 lost=2 => 11 17
am824 rate=44100 start=0 packets=9 => 9 19
am824 rate=48000 count=8 packets=34 => 34 34
";

/// Whether a listener presents the same values at the same instants from both lists of records.
fn sound_alike(
    alloc: Global,
    to: To,
    before: &[Recorded],
    after: &[Recorded],
) -> Result<bool, Fail> {
    let was = samples_of(alloc, before, to == To::Aaf, 0)?;
    let is = samples_of(alloc, after, to == To::Am824, 0)?;
    Ok(!is.is_empty() && is == was)
}

fn are_same(a: &[Recorded], b: &[Recorded]) -> bool {
    if a.len() != b.len() {
        return false;
    }
    for (x, y) in a.iter().zip(b) {
        if x.arrival != y.arrival || x.frame != y.frame {
            return false;
        }
    }
    true
}

/// What is wrong with records that were converted: a listener presents other values or other instants from them, or
/// `check` finds something in them.
fn wrong_with(
    alloc: Global,
    to: To,
    before: &[Recorded],
    after: &[Recorded],
) -> Result<&'static str, Fail> {
    if !sound_alike(alloc, to, before, after)? {
        return Ok(" heard otherwise");
    }
    Ok(if is_clean(alloc, after)? {
        ""
    } else {
        " found"
    })
}

/// The numbers of batches and packets that a row's stream is converted to, and what is wrong with these packets or with
/// the packets of the conversion back. If AM824 that a gateway made is converted to PCM and back, the frames must stay
/// the same.
fn turned_text(alloc: Global, to: To, row: &str) -> Result<String, Fail> {
    let back = match to {
        To::Am824 => To::Aaf,
        To::Aaf => To::Am824,
    };
    let records = records_of(alloc, row)?;
    let there = turn_scanned(alloc, to, &records, 0)?;
    let wrong = wrong_with(alloc, to, &records, &there.records)?;
    let again = turn_scanned(alloc, back, &there.records, 3)?;
    let wrong_back = wrong_with(alloc, back, &there.records, &again.records)?;
    let third = turn_scanned(alloc, to, &again.records, 0)?;
    let same = to == To::Aaf || are_same(&third.records, &there.records);
    let changed = if same { "" } else { " changed" };
    let line = line_of(alloc, &there)?;
    Ok(format!(in alloc; "{line}{wrong}{wrong_back}{changed}")?)
}

#[test]
fn pcm_is_turned_into_am824_and_back(rt: HostRuntime) -> Result<(), Fail> {
    let alloc = rt.alloc();
    check_rows(PCM, |row| turned_text(alloc, To::Am824, row))
}

#[test]
fn am824_is_turned_into_pcm_and_back(rt: HostRuntime) -> Result<(), Fail> {
    let alloc = rt.alloc();
    check_rows(AM824, |row| turned_text(alloc, To::Aaf, row))
}
