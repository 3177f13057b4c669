//! The greatest absolute value of the 16-bit samples in the packets of a capture: an example of `pcap_frames` and
//! `aaf_format` as libraries.
#![tactic(auto)]

use aaf_format::{AafFormat, AafView, read_aaf};
use avtp_base::Bytes;
use pcap_frames::{KeptRecord, read_frame, read_pieces};
use std::process::ExitCode;
use std::{env, fs};

/// The EtherType of AVTP (IEEE 1722-2016, 4.2).
const AVTP: u16 = 0x22f0;

/// The greatest length in bytes of a capture that is accepted.
const MOST_BYTES: usize = 1 << 30;

fn main(rt: HostRuntime) -> ExitCode {
    let Some(peak) = peak_of_file(&rt) else {
        return ExitCode::FAILURE;
    };
    match println!(rt; "peak {peak} of 32768") {
        Ok(()) => ExitCode::SUCCESS,
        Err(_) => ExitCode::FAILURE,
    }
}

/// The peak of the capture that the first argument names. `None` if the capture cannot be read or is too long.
fn peak_of_file(rt: &HostRuntime) -> Option<u16> {
    let words: Vec<String> = env::args(rt).ok()?.skip(1).collect(rt.alloc()).ok()?;
    let bytes = fs::read(rt, words.get(0)?.as_str()).ok()?;
    if bytes.len() > MOST_BYTES {
        return None;
    }
    let contents = read_pieces(rt.alloc(), &[Bytes::over(bytes)]).ok()?;
    let mut peak = 0;
    for record in contents.records.iter() {
        if let Some(found) = peak_of_record(record) {
            peak = peak.max(found);
        }
    }
    Some(peak)
}

/// The peak of a record, if the record holds a PCM packet of 16-bit samples.
fn peak_of_record(record: &KeptRecord) -> Option<u16> {
    let frame = read_frame(record.bytes.as_slice()).ok()?;
    if frame.ethertype != AVTP {
        return None;
    }
    let view = read_aaf(frame.payload).ok()?;
    (view.format == AafFormat::Int16).then(|| peak_of_samples(&view))
}

fn peak_of_samples(view: &AafView<'_>) -> u16 {
    let mut peak = 0;
    for sample in view.payload.chunks_exact(2) {
        peak = peak.max(i16::from_be_bytes([sample[0], sample[1]]).unsigned_abs());
    }
    peak
}
