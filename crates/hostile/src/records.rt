//! The records of a capture, and how they are written as bytes.

use crate::draws::Draws;
use avtp_base::NoMemory;
use byteorder::{ByteOrder, LittleEndian};
use std::alloc::Global;

/// A frame, and when it was captured, in nanoseconds.
#[derive(Drop)]
pub struct Record {
    pub at: u64,
    pub frame: Vec<u8>,
}

/// The byte order of a capture's numbers, and whether the capture counts microseconds or nanoseconds.
#[derive(Clone, Copy)]
struct Style {
    big: bool,
    micro: bool,
}

/// The maximum length of a frame in a capture.
pub const LONGEST: usize = 262_144;

impl Record {
    /// A copy.
    pub fn copied(&self, alloc: Global) -> Result<Record, NoMemory> {
        let frame = Vec::from_slice(alloc, &self.frame)?;
        Ok(Record { at: self.at, frame })
    }
}

impl Style {
    /// Appends numbers.
    fn add(self, bytes: &mut Vec<u8>, numbers: &[u32]) -> Result<(), NoMemory> {
        for number in numbers {
            let four = if self.big {
                number.to_be_bytes()
            } else {
                number.to_le_bytes()
            };
            bytes.extend_from_slice(&four)?;
        }
        Ok(())
    }

    /// Two numbers of 16 bits as one number of 32 bits.
    fn pair(self, first: u16, second: u16) -> u32 {
        if self.big {
            u32::from(first) * 65_536 + u32::from(second)
        } else {
            u32::from(second) * 65_536 + u32::from(first)
        }
    }

    /// Appends the header of a pcap file, or the section header and the only interface description of a pcapng file.
    fn add_header(self, bytes: &mut Vec<u8>, pcapng: bool) -> Result<(), NoMemory> {
        if !pcapng {
            let magic = if self.micro { 0xa1b2_c3d4 } else { 0xa1b2_3c4d };
            return self.add(bytes, &[magic, self.pair(2, 4), 0, 0, LONGEST as u32, 1]);
        }
        let section = [0x0a0d_0d0a, 28, 0x1a2b_3c4d, self.pair(1, 0)];
        self.add(bytes, &section)?;
        self.add(bytes, &[u32::MAX, u32::MAX, 28])?;
        let interface = [1, 32, self.pair(1, 0), LONGEST as u32, self.pair(9, 1)];
        self.add(bytes, &interface)?;
        bytes.extend_from_slice(&[if self.micro { 6 } else { 9 }, 0, 0, 0])?;
        self.add(bytes, &[0, 32])
    }

    fn add_record(
        self,
        bytes: &mut Vec<u8>,
        pcapng: bool,
        record: &Record,
    ) -> Result<(), NoMemory> {
        let unit = if self.micro { 1_000 } else { 1 };
        let size = (record.frame.len() % (1 << 20)) as u32;
        if !pcapng {
            let seconds = (record.at / 1_000_000_000 % (1 << 32)) as u32;
            let fraction = (record.at % 1_000_000_000 / unit) as u32;
            self.add(bytes, &[seconds, fraction, size, size])?;
            bytes.extend_from_slice(&record.frame)?;
            return Ok(());
        }
        let at = record.at / unit;
        let padded = size.div_ceil(4) * 4;
        let high = (at >> 32) as u32;
        self.add(bytes, &[6, padded + 32, 0, high, (at % (1 << 32)) as u32])?;
        self.add(bytes, &[size, size])?;
        bytes.extend_from_slice(&record.frame)?;
        for _ in size..padded {
            bytes.push(0)?;
        }
        self.add(bytes, &[padded + 32])
    }
}

/// A capture of these records, as pcap or pcapng, in a randomly drawn style.
pub fn spelled(alloc: Global, draws: &mut Draws, records: &[Record]) -> Result<Vec<u8>, NoMemory> {
    let style = Style {
        big: draws.one_in(3),
        micro: draws.one_in(3),
    };
    let pcapng = draws.one_in(3);
    let mut bytes = Vec::new(alloc);
    style.add_header(&mut bytes, pcapng)?;
    for record in records {
        style.add_record(&mut bytes, pcapng, record)?;
    }
    Ok(bytes)
}

/// The first records of a capture that `talk` made, at most `most` of them.
pub fn records_of(alloc: Global, capture: &[u8], most: usize) -> Result<Vec<Record>, NoMemory> {
    let mut records = Vec::new(alloc);
    let mut rest = capture.get(24..).unwrap_or(&[]);
    for _ in 0..most {
        if rest.len() < 16 {
            break;
        }
        let seconds = u64::from(LittleEndian::read_u32(rest));
        let nanoseconds = u64::from(LittleEndian::read_u32(&rest[4..]));
        let size = LittleEndian::read_u32(&rest[8..]) as usize;
        let body = &rest[16..];
        records.push(Record {
            at: seconds * 1_000_000_000 + nanoseconds,
            frame: Vec::from_slice(alloc, body.get(..size).unwrap_or(&[]))?,
        })?;
        rest = body.get(size..).unwrap_or(&[]);
    }
    Ok(records)
}
