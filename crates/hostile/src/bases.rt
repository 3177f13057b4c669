//! What damaged captures are made from: streams of conforming talkers, and the vectors.

use crate::commands::talked;
use crate::draws::Draws;
use crate::records::{Record, records_of};
use avtp_base::NoMemory;
use std::alloc::Global;
use std::thread::Threads;
use vectors_avtp::vector;

/// The arguments of the talkers. The streams of all talkers share one stream ID, and their media clocks share another
/// one.
pub const TALKS: [&str; 9] = [
    "--kind aaf",
    "--sparse --restart 8",
    "--crf 0200000000010002 --crf-interval 6",
    "--format int24 --rate 96000 --channels 8 --crf 0200000000010002 --crf-points 3",
    "--format float32 --rate 192000 --channels 1 --count 12",
    "--kind am824",
    "--kind am824 --rate 44100 --crf 0200000000010002",
    "--kind h264",
    "--kind h264 --last-stamp --rate 240",
];

/// The maximum number of records of a stream.
const MOST: usize = 160;

/// The talkers' input, and the records of the talkers' streams and of the vectors.
#[derive(Drop)]
pub struct Bases {
    input: Vec<u8>,
    streams: Vec<Vec<Record>>,
}

impl Bases {
    /// Makes the records of the vectors and the records of each talker's stream.
    pub fn new<T: Threads + Sync>(rt: &T, alloc: Global) -> Result<Self, NoMemory> {
        let input = input(alloc)?;
        let mut streams = Vec::new(alloc);
        streams.push(vectors(alloc)?)?;
        add_talked(rt, alloc, &input, &mut streams)?;
        Ok(Bases { input, streams })
    }

    /// Up to 40 consecutive records of a stream.
    pub fn records(&self, alloc: Global, draws: &mut Draws) -> Result<Vec<Record>, NoMemory> {
        let mut records = Vec::new(alloc);
        if let Some(stream) = self.streams.get(draws.below(self.streams.len())) {
            let first = draws.below(stream.len());
            for record in stream.iter().skip(first).take(draws.below(40) + 1) {
                records.push(record.copied(alloc)?)?;
            }
        }
        Ok(records)
    }

    /// A prefix of the talkers' input.
    pub fn samples(&self, alloc: Global, draws: &mut Draws) -> Result<Vec<u8>, NoMemory> {
        let size = draws.below(self.input.len());
        let part = self.input.get(..size - size % 24).unwrap_or(&[]);
        Ok(Vec::from_slice(alloc, part)?)
    }
}

/// Adds the records of each talker's stream.
fn add_talked<T: Threads + Sync>(
    rt: &T,
    alloc: Global,
    input: &[u8],
    streams: &mut Vec<Vec<Record>>,
) -> Result<(), NoMemory> {
    let labelled = labelled(alloc, input)?;
    for options in TALKS {
        let is_am824 = options.starts_with("--kind am824");
        let samples = if is_am824 { labelled.as_slice() } else { input };
        streams.push(stream_of(rt, alloc, options, samples)?)?;
    }
    Ok(())
}

/// The records of a talker's stream.
fn stream_of<T: Threads + Sync>(
    rt: &T,
    alloc: Global,
    options: &str,
    samples: &[u8],
) -> Result<Vec<Record>, NoMemory> {
    let capture = talked(rt, alloc, options, samples)?;
    records_of(alloc, &capture, MOST)
}

/// One input for all talkers. For each talker, the input consists of whole sample frames. The input is also an H.264
/// byte stream, with short NAL units and one NAL unit that needs fragments.
fn input(alloc: Global) -> Result<Vec<u8>, NoMemory> {
    let mut bytes = Vec::new(alloc);
    for n in 0..3_840_u32 {
        bytes.push(match n % 240 {
            0..=2 if n < 1_200 => 0,
            3 if n < 1_200 => 1,
            4 if n < 1_200 => 0x65,
            _ => (n % 251) as u8,
        })?;
    }
    Ok(bytes)
}

/// The input as AM824: the first byte of each quadlet is the label of linear audio.
fn labelled(alloc: Global, input: &[u8]) -> Result<Vec<u8>, NoMemory> {
    let mut bytes = Vec::new(alloc);
    for (place, byte) in input.iter().enumerate() {
        bytes.push(if place % 4 == 0 { 0x40 } else { *byte })?;
    }
    Ok(bytes)
}

/// Records of the vectors' packets, each in a frame like that of the first vector.
fn vectors(alloc: Global) -> Result<Vec<Record>, NoMemory> {
    let first = vector(alloc, 1)?;
    let mut records = records_of(alloc, &first, MOST)?;
    for n in 2..5 {
        records.push(framed(alloc, &first, &vector(alloc, n)?)?)?;
    }
    Ok(records)
}

/// A record of a packet, in a frame like that of the first vector.
fn framed(alloc: Global, first: &[u8], packet: &[u8]) -> Result<Record, NoMemory> {
    let mut frame = Vec::from_slice(alloc, first.get(40..58).unwrap_or(&[]))?;
    frame.extend_from_slice(packet)?;
    let at = 1_000_000_000;
    Ok(Record { at, frame })
}
