//! Units of H.264 and their fragments.

use crate::hearing::{check_shown, heard_of};
use sample_schedule::{Reason, Shown};
use std::alloc::Global;
use std::test::Fail;
use vectors_avtp::check_rows;

/// If the middle fragment is captured twice, all four fragments are flagged.
const ROWS: &str = "\
// a unit
first, middle, last => 3/2 at 1002000000
// a fragment that comes again
first, middle, middle, last => 1/0 Broken, 2/1 Broken, 3/1 Broken, 4/2 Broken
// stamped on the last fragment
first 1=80 12=00000000, middle 1=80 12=00000000, last => 3/2 at 1002000000
// stamped on the last, and one comes again
first 1=80 12=00000000, middle 1=80 12=00000000, middle 1=80 12=00000000, last => 1/0 Broken, 2/1 Broken, 3/1 Broken, 4/2 Broken
// a packet of the clock between the fragments
look:0 | first, crf, middle, last => 4/2 at 1002000000
// the same without the clock
first, crf, middle, last => 4/2 at 1002000000
// a fragment is missing
first, last => 1/0 Broken, 2/2 Broken
// a fragment comes early
first, last, middle => 1/0 Broken, 2/2 Broken, 3/1 Broken
// another time
first, h264 seq:1 ts:1002000001 28=7c450003 => 1/0 Broken, 2/1 Broken
// a whole unit
first, h264 seq:1 => 1/0 Broken, 2/1 at 1002000000
// another first fragment
first, first, middle, last => 1/0 Broken, 4/2 at 1002000000
// audio
first, aaf seq:9, h264 seq:1 28=7c450003 => 1/0 Broken, 3/1 Broken, 2/9 at 1002000000
// a fragment that is first and last
first, h264 seq:1 28=7cc5 => 1/0 Broken, 2/1 Malformed(FuHeader)
// an uncertain time
first, h264 seq:1 3=01 28=7c45 => 1/0 Broken, 2/1 Uncertain
// no timestamp
first, h264 seq:1 1=80 12=00000000 28=7c450003 => 1/0 Broken, 2/1 Untimed
// the end
first, middle => 1/0 Broken, 2/1 Broken
// no first fragment
middle => 1/1 Broken";

#[test]
fn fragments_beside_each_other_make_a_unit(rt: HostRuntime) -> Result<(), Fail> {
    check_shown(rt.alloc(), ROWS)
}

/// Fragments, and what is presented of them: the bytes of the unit if there is only one item and it is presented, or
/// their number if there are more than seven. Then come the number of fragments that are flagged because the unit is
/// too long, and the number of packets. The long fragments of a unit have 65,529 zero bytes each, and the last of them
/// has 447 or 448 zero bytes.
const LONG: &str = "\
buffer:1 room:7 | first, middle, last => [101, 0, 1, 0, 2, 0, 3], 0 long, 3 packets
buffer:1 | long-first, long-middle copies:63, h264 seq:64 20=01c5 28=7c45 len=30 len=477 => 4194304 bytes, 0 long, 65 packets
buffer:1 | long-first, long-middle copies:63, h264 seq:64 20=01c6 28=7c45 len=30 len=478 => nothing, 65 long, 65 packets
// the 4,098th fragment does not continue a unit
buffer:1 | first, middle copies:4096, middle => nothing, 4097 long, 4098 packets";

/// Bytes as text, or their number if there are more than seven.
fn bytes_text(alloc: Global, bytes: &[u8]) -> Result<String, Fail> {
    if bytes.len() > 7 {
        return Ok(format!(in alloc; "{} bytes", bytes.len())?);
    }
    Ok(format!(in alloc; "{bytes:?}")?)
}

/// The bytes of the item, if there is only one item and it is presented, as text.
fn unit_text(alloc: Global, shown: &[Shown]) -> Result<String, Fail> {
    let [Shown::Present(batch)] = shown else {
        return Ok(String::from_str(alloc, "nothing")?);
    };
    bytes_text(alloc, batch.bytes.as_slice())
}

/// What becomes of the fragments of a row.
fn long_text(alloc: Global, row: &str) -> Result<String, Fail> {
    let heard = heard_of(alloc, row)?;
    let mut long = 0usize;
    for shown in heard.shown.as_slice() {
        if let Shown::Flag { reason, .. } = shown
            && *reason == Reason::Long
        {
            long = long.saturating_add(1);
        }
    }
    let unit = unit_text(alloc, heard.shown.as_slice())?;
    let packets = heard.counts.packets;
    Ok(format!(in alloc; "{unit}, {long} long, {packets} packets")?)
}

#[test]
fn a_unit_has_at_most_4096_fragments_and_4194304_bytes(rt: HostRuntime) -> Result<(), Fail> {
    let alloc = rt.alloc();
    check_rows(LONG, |row| long_text(alloc, row))
}
