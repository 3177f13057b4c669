//! The instants of all samples that are presented.

use crate::hearing::heard_of;
use sample_schedule::{Batch, Shown};
use std::alloc::Global;
use std::test::Fail;
use vectors_avtp::{check_rows, vector};

/// Packets, and the samples of each packet: their instants, the number of their bytes, and the vector that ends with
/// these bytes.
const ROWS: &str = "\
// 48 kHz
aaf => 1002000000 1002020833 1002041666 1002062500 1002083333 1002104166 24 aaf;
// 44.1 kHz
aaf 17=40 => 1002000000 1002022675 1002045351 1002068027 1002090702 1002113378 24 aaf;
// data blocks
stamped, next => 4999916666 4999937500 4999958333 4999979166 5000000000 5000020833 48 iec; 5000041666 5000062500 5000083333 5000104166 5000125000 5000145833 48 iec;
// a clock that takes 2 ms for 96 events of 44.1 kHz
look:2 | crf 14=ac44, clocked, clocked-second, tock 14=ac44 => 1004000000 1004019140 1004038281 1004057421 1004076562 1004095703 24 aaf; 1004125000 1004144140 1004163281 1004182421 1004201562 1004220703 24 aaf;";

/// The vector that ends with these bytes.
fn vector_of(alloc: Global, bytes: &[u8]) -> Result<&'static str, Fail> {
    if vector(alloc, 1)?.ends_with(bytes) {
        return Ok("aaf");
    }
    let is_iec = vector(alloc, 2)?.ends_with(bytes);
    Ok(if is_iec { "iec" } else { "other bytes" })
}

/// The instants of the samples of a batch, the number of their bytes, and the vector that ends with these bytes.
fn samples_of(alloc: Global, batch: &Batch) -> Result<String, Fail> {
    let mut text = String::new(alloc);
    for j in 0..batch.count {
        text.push_str(&format!(in alloc; "{} ", batch.instant(j))?)?;
    }
    let bytes = batch.bytes.as_slice();
    let name = vector_of(alloc, bytes)?;
    text.push_str(&format!(in alloc; "{} {name}", bytes.len())?)?;
    Ok(text)
}

/// The samples of each item that is shown of the packets in a row.
fn presented(alloc: Global, row: &str) -> Result<String, Fail> {
    let heard = heard_of(alloc, row)?;
    let mut text = String::new(alloc);
    for shown in heard.shown.as_slice() {
        if let Shown::Present(batch) = shown {
            text.push_str(&samples_of(alloc, batch)?)?;
        }
        text.push_str("; ")?;
    }
    Ok(text)
}

#[test]
fn samples_are_presented_at_their_instants(rt: HostRuntime) -> Result<(), Fail> {
    let alloc = rt.alloc();
    check_rows(ROWS, |row| presented(alloc, row))
}
