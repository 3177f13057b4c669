//! The files of a transcript. Each file is written as steps, which add bytes or change them, one after another:
//!
//! - `V1` adds a published vector, and `V1/58` adds the vector's bytes from offset 58 on.
//! - `x0a0b` adds these bytes, `xff*9` adds nine such bytes, and `zeros:9` adds nine zero bytes. `noise:9` adds nine bytes of
//!   samples that differ from packet to packet.
//! - `..24` keeps only the first 24 bytes.
//! - `75=50ff` overwrites bytes from offset 75 on. `ts:9` writes an AVTP timestamp into a packet, `point:9` a CRF timestamp.
//! - `record:9` puts a packet into a frame, and the frame into a record that arrived at 9 ns. `capture:9` makes a
//!   capture whose only record arrived at 9 ns.
//!
//! Any other step does nothing, so the test that states the file's bytes fails.

use avtp_base::NoMemory;
use std::alloc::Global;
use vectors_avtp::vector;

/// The bytes that the steps of each line make, line after line.
pub fn file_of(alloc: Global, lines: &str) -> Result<Vec<u8>, NoMemory> {
    let mut file = Vec::new(alloc);
    for steps in lines.lines() {
        file.extend_from_slice(&bytes_of(alloc, steps)?)?;
    }
    Ok(file)
}

/// The bytes that the steps make.
pub fn bytes_of(alloc: Global, steps: &str) -> Result<Vec<u8>, NoMemory> {
    let mut bytes = Vec::new(alloc);
    for step in steps.split_ascii_whitespace() {
        do_step(alloc, &mut bytes, step)?;
    }
    Ok(bytes)
}

pub fn number(text: &str) -> usize {
    text.parse::<usize>().unwrap_or(0)
}

fn do_step(alloc: Global, bytes: &mut Vec<u8>, step: &str) -> Result<(), NoMemory> {
    if let Some(name) = step.strip_prefix('V') {
        add_vector(alloc, bytes, name)?;
    } else if let Some(digits) = step.strip_prefix('x') {
        add_digits(alloc, bytes, digits)?;
    } else if let Some(len) = step.strip_prefix("..") {
        bytes.truncate(number(len));
    } else if let Some((at, digits)) = step.split_once('=') {
        put(bytes, number(at), &decoded(alloc, digits));
    } else if let Some((name, value)) = step.split_once(':') {
        do_named(alloc, bytes, name, number(value))?;
    }
    Ok(())
}

fn do_named(alloc: Global, bytes: &mut Vec<u8>, name: &str, value: usize) -> Result<(), NoMemory> {
    match name {
        "zeros" => add_zeros(bytes, value)?,
        "noise" => add_noise(bytes, value)?,
        "ts" => put(bytes, 12, &small(value).to_be_bytes()),
        "point" => put(bytes, 24, &small(value).to_be_bytes()),
        "record" => *bytes = framed(alloc, &[], bytes, value)?,
        "capture" => *bytes = framed(alloc, &V1_HEADER, bytes, value)?,
        _ => {}
    }
    Ok(())
}

/// The file header of the first vector.
const V1_HEADER: [u8; 24] = [
    0x4d, 0x3c, 0xb2, 0xa1, 2, 0, 4, 0, 0, 0, 0, 0, 0, 0, 0, 0, 0, 0, 4, 0, 1, 0, 0, 0,
];

/// The addresses, the VLAN tag and the EtherType of the first vector's frame.
const V1_FRAME: [u8; 18] = [
    0x91, 0xe0, 0xf0, 0x00, 0xfe, 0x00, 0x02, 0x00, 0x00, 0x00, 0x00, 0x01, 0x81, 0x00, 0x60, 0x02,
    0x22, 0xf0,
];

fn small(value: usize) -> u32 {
    u32::try_from(value).unwrap_or(0)
}

fn decoded(alloc: Global, digits: &str) -> Vec<u8> {
    hex::decode(alloc, digits).unwrap_or(Vec::new(alloc))
}

fn add_vector(alloc: Global, bytes: &mut Vec<u8>, name: &str) -> Result<(), NoMemory> {
    let (n, from) = name.split_once('/').unwrap_or((name, "0"));
    let n = small(number(n));
    if 0 < n && n <= 5 {
        let vector = vector(alloc, n)?;
        bytes.extend_from_slice(vector.get(number(from)..).unwrap_or(&[]))?;
    }
    Ok(())
}

fn add_digits(alloc: Global, bytes: &mut Vec<u8>, digits: &str) -> Result<(), NoMemory> {
    let (digits, times) = digits.split_once('*').unwrap_or((digits, "1"));
    let piece = decoded(alloc, digits);
    for _ in 0..number(times) {
        bytes.extend_from_slice(&piece)?;
    }
    Ok(())
}

fn add_zeros(bytes: &mut Vec<u8>, count: usize) -> Result<(), NoMemory> {
    for _ in 0..count {
        bytes.push(0)?;
    }
    Ok(())
}

fn add_noise(bytes: &mut Vec<u8>, count: usize) -> Result<(), NoMemory> {
    for n in 0..count {
        bytes.push((n % 251) as u8)?;
    }
    Ok(())
}

fn put(bytes: &mut Vec<u8>, at: usize, piece: &[u8]) {
    for (offset, byte) in piece.iter().enumerate() {
        if let Some(place) = bytes.get_mut(at.saturating_add(offset)) {
            *place = *byte;
        }
    }
}

/// The bytes `before`, followed by the record of a packet that arrived at `arrival` ns.
fn framed(
    alloc: Global,
    before: &[u8],
    packet: &[u8],
    arrival: usize,
) -> Result<Vec<u8>, NoMemory> {
    let mut bytes = Vec::from_slice(alloc, before)?;
    let size = small(packet.len()).saturating_add(18);
    for field in [
        small(arrival / 1_000_000_000),
        small(arrival % 1_000_000_000),
        size,
        size,
    ] {
        bytes.extend_from_slice(&field.to_le_bytes())?;
    }
    bytes.extend_from_slice(&V1_FRAME)?;
    bytes.extend_from_slice(packet)?;
    Ok(bytes)
}
