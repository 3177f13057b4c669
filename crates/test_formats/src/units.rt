//! NAL units of byte streams.

use cvf_format::{next_unit, split_annex_b};
use std::alloc::Global;
use std::test::Fail;
use vectors_avtp::{bytes_of, check_rows};

/// Byte streams. Each stream is followed by two indexes for each of its units: the index of the first byte, and the
/// index after the last byte.
const STREAMS: &str = "\
 => []
01 => []
0000 => []
6742000a => []
00000267000167 => []
000001 => []
00000001 => []
000001 000001 00000001 => []
000001 0000 => []
00000001 6742000a => [(4, 8)]
000001 67 => [(3, 4)]
000000000001 67 => [(6, 7)]
ff68 000001 67 => [(5, 6)]
000001 67 00 => [(3, 4)]
000001 67 0000 => [(3, 4)]
000001 67 000000 => [(3, 4)]
000001 00670000020000030001 => [(3, 13)]
000001 67 0000006869 => [(3, 4)]
000001 00000068 000001 67 => [(10, 11)]
00000001 6742 000001 000001 68 0000000001 650000030000 => [(4, 6), (12, 13), (18, 22)]";

/// The units of a byte stream, if the first of them is what `next_unit` finds first.
fn units_of(alloc: Global, row: &str) -> Result<String, Fail> {
    let bytes = bytes_of(alloc, row)?;
    let units = split_annex_b(alloc, &bytes)?;
    if next_unit(&bytes, 0) != units.get(0).copied() {
        return Err(Fail::new("the next unit is not the first unit"));
    }
    Ok(format!(in alloc; "{units:?}")?)
}

#[test]
fn a_unit_lies_between_start_codes_without_zeros_at_its_end(rt: HostRuntime) -> Result<(), Fail> {
    let alloc = rt.alloc();
    check_rows(STREAMS, |row| units_of(alloc, row))
}
