//! Reads a capture, and describes as text what was read.

use avtp_memory::MemoryShelf;
use capture_io::{End, Source};
use pcap_frames::RecordView;
use std::alloc::{AllocError, Global};
use std::test::Fail;
use vectors_avtp::refusal_text;

/// How a capture is read: at most `most` bytes per call, and at most `limit` bytes in all. Calls are numbered from 1,
/// and call number `fails` fails. If `fails` is 0, no call fails.
#[derive(Clone, Copy)]
pub struct Way {
    pub most: usize,
    pub limit: u32,
    pub fails: u64,
}

/// A shelf whose file `a` holds these bytes.
pub fn shelf_over(alloc: Global, bytes: &[u8], way: Way) -> Result<MemoryShelf, AllocError> {
    let mut files = Vec::new(alloc);
    files.push((String::from_str(alloc, "a")?, bytes.to_vec(alloc)?))?;
    let fails = vec![in alloc; way.fails]?;
    Ok(MemoryShelf::over(alloc, files, fails).at_most(way.most.max(1)))
}

/// The arrival, the length on the wire and the number of captured bytes of a record.
#[derive(Clone, Copy)]
struct Record {
    arrival: i64,
    orig_len: u32,
    bytes: usize,
}

fn numbers_of(record: &RecordView<'_>) -> Record {
    Record {
        arrival: record.arrival,
        orig_len: record.orig_len,
        bytes: record.bytes.len(),
    }
}

fn record_text(alloc: Global, record: Record) -> Result<String, AllocError> {
    let Record {
        arrival,
        orig_len,
        bytes,
    } = record;
    format!(in alloc; "{arrival} {orig_len} {bytes}, ")
}

fn end_text(alloc: Global, end: Option<End>) -> Result<String, AllocError> {
    match end {
        Some(End::Refused(refusal)) => refusal_text(alloc, refusal),
        end => format!(in alloc; "{end:?}"),
    }
}

fn text_of(
    alloc: Global,
    records: [Option<Record>; 2],
    end: Option<End>,
) -> Result<String, AllocError> {
    let mut text = String::new(alloc);
    for record in records {
        if let Some(record) = record {
            text.push_str(record_text(alloc, record)?.as_str())?;
        }
    }
    text.push_str(end_text(alloc, end)?.as_str())?;
    Ok(text)
}

/// The records of a capture that has at most two records, and how the reading ends, as text. Once the reading has
/// ended, each further call has to return the same end.
pub fn told(alloc: Global, capture: &[u8], way: Way) -> Result<String, Fail> {
    let mut shelf = shelf_over(alloc, capture, way)?;
    let Ok(mut source) = Source::open(alloc, u64::from(way.limit), &mut shelf, "a") else {
        return Err(Fail::from("the capture cannot be opened"));
    };
    let first = match source.next(&mut shelf) {
        None => Some(numbers_of(&source.record())),
        Some(_) => None,
    };
    let second = match source.next(&mut shelf) {
        None => Some(numbers_of(&source.record())),
        Some(_) => None,
    };
    let end = source.next(&mut shelf);
    source.close(&mut shelf);
    Ok(text_of(alloc, [first, second], end)?)
}
