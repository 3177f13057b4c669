//! Damage to captures: to their records, to the fields of their packets, and to any byte.

use crate::draws::Draws;
use crate::records::{LONGEST, Record, spelled};
use avtp_base::NoMemory;
use std::alloc::Global;

/// Large distances in time, in nanoseconds: multiples of half the range of an AVTP timestamp, up to distances that no
/// capture can have.
const TURNS: [u64; 6] = [0, 1 << 31, 1 << 32, 3 << 31, 1 << 62, 1 << 63];

/// Short distances in time, in nanoseconds. The amounts include the distance between two packets (125,000) and the max
/// transit time (2,000,000).
const STEPS: [u64; 4] = [0, 1, 125_000, 2_000_000];

/// Lengths, counts and other numbers at their bounds.
const BOUNDS: [u64; 16] = [
    0, 1, 3, 4, 7, 8, 15, 24, 255, 256, 1_476, 32_767, 65_535, 262_144, 262_145, 0xffffffff,
];

/// The stream ID of the talkers' streams, the stream ID of their media clocks, and two other IDs.
const IDS: [u64; 4] = [0x0200_0000_0001_0001, 0x0200_0000_0001_0002, 0, u64::MAX];

/// The subtypes that are read, and two other numbers.
const SUBTYPES: [u64; 6] = [0x00, 0x02, 0x03, 0x04, 0x6e, 0xff];

/// The offset of the packet in a frame with a VLAN tag.
const PACKET: usize = 18;

/// Overwrites bytes from an offset on, up to the end of the slice.
fn put(bytes: &mut [u8], at: usize, new: &[u8]) {
    for (k, byte) in new.iter().enumerate() {
        if let Some(place) = bytes.get_mut(at.wrapping_add(k)) {
            *place = *byte;
        }
    }
}

/// Flips one bit of the first `most` bytes.
fn flip(draws: &mut Draws, bytes: &mut [u8], most: usize) {
    let at = draws.below(most.min(bytes.len()));
    let bit = 1 << draws.below(8);
    if let Some(place) = bytes.get_mut(at) {
        *place ^= bit;
    }
}

/// Appends bytes of one value until there are `size` bytes.
fn lengthen(draws: &mut Draws, bytes: &mut Vec<u8>, size: usize) -> Result<(), NoMemory> {
    let byte = if draws.one_in(2) { 0 } else { 255 };
    for _ in bytes.len()..size {
        bytes.push(byte)?;
    }
    Ok(())
}

/// A time that differs from `time` by one of the amounts `by`.
fn moved(draws: &mut Draws, time: u64, by: &[u64]) -> u64 {
    let by = draws.pick(by);
    if draws.one_in(2) {
        time.wrapping_add(by)
    } else {
        time.wrapping_sub(by)
    }
}

/// Damages a field of a record's packet: a length, a number, a timestamp, a timestamp of a media clock, the stream ID,
/// the subtype, the sequence number, or any bit.
fn damage_field(draws: &mut Draws, record: &mut Record) {
    let turned = moved(draws, record.at, &TURNS);
    let time = moved(draws, turned, &STEPS).to_be_bytes();
    let bound = draws.pick(&BOUNDS).to_be_bytes();
    let id = draws.pick(&IDS).to_be_bytes();
    let subtype = draws.pick(&SUBTYPES).to_be_bytes();
    let place = draws.below(40);
    let frame = record.frame.as_mut_slice();
    match draws.below(9) {
        0 => put(frame, PACKET + 16, &bound[6..]),
        1 => put(frame, PACKET + 20, &bound[6..]),
        2 => put(frame, PACKET + place, &bound[6..]),
        3 => put(frame, PACKET + 12, &time[4..]),
        4 => put(frame, PACKET + 20 + place / 8 * 8, &time),
        5 => put(frame, PACKET + 4, &id),
        6 => put(frame, PACKET, &subtype[7..]),
        7 => put(frame, PACKET + 2, &bound[7..]),
        _ => flip(draws, frame, 60),
    }
}

/// Cuts a frame or makes it longer. On average, one frame in 30 is lengthened to about the maximum length of a frame in
/// a capture.
fn damage_size(draws: &mut Draws, frame: &mut Vec<u8>) -> Result<(), NoMemory> {
    let size = draws.below(frame.len());
    let more = draws.below(40);
    match draws.below(30) {
        0 => lengthen(draws, frame, LONGEST - 20 + more),
        1..=15 => lengthen(draws, frame, frame.len().wrapping_add(more)),
        _ => {
            frame.truncate(size);
            Ok(())
        }
    }
}

/// Damages one record, or drops, repeats or swaps records.
fn damage_records(
    alloc: Global,
    draws: &mut Draws,
    records: &mut Vec<Record>,
) -> Result<(), NoMemory> {
    let at = draws.below(records.len());
    let other = draws.below(records.len());
    if at >= records.len() || other >= records.len() {
        return Ok(());
    }
    match draws.below(16) {
        0 => drop(records.remove(at)),
        1 => records.swap(at, other),
        2 => {
            let again = records[at].copied(alloc)?;
            records.insert(other, again)?;
        }
        3 => damage_size(draws, &mut records[at].frame)?,
        4 => records[at].at = moved(draws, records[other].at, &STEPS),
        5 => records[at].at = moved(draws, records[other].at, &TURNS),
        _ => damage_field(draws, &mut records[at]),
    }
    Ok(())
}

/// Damages any bytes, whatever they mean.
pub fn damage_bytes(draws: &mut Draws, bytes: &mut Vec<u8>) -> Result<(), NoMemory> {
    let at = draws.below(bytes.len());
    let more = draws.below(64);
    let bound = draws.pick(&BOUNDS).to_le_bytes();
    match draws.below(4) {
        0 => flip(draws, bytes.as_mut_slice(), usize::MAX),
        1 => put(bytes.as_mut_slice(), at - at % 4, &bound[..4]),
        2 => bytes.truncate(at),
        _ => lengthen(draws, bytes, bytes.len().wrapping_add(more))?,
    }
    Ok(())
}

/// A capture of these records, with some damage or with none.
pub fn damaged(
    alloc: Global,
    draws: &mut Draws,
    mut records: Vec<Record>,
) -> Result<Vec<u8>, NoMemory> {
    for _ in 0..draws.below(8) {
        damage_records(alloc, draws, &mut records)?;
    }
    let mut bytes = spelled(alloc, draws, &records)?;
    for _ in 2..draws.below(6) {
        damage_bytes(draws, &mut bytes)?;
    }
    Ok(bytes)
}
