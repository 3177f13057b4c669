//! Captures of an audio stream. Each capture is made from a row of a table, byte by byte as the standards say.

ghost use Rattle.std.specs.Prelude.{◌≤◌, ◌<◌};

use avtp_base::NoMemory;
use std::alloc::Global;

/// The stream ID in all captures.
pub const STREAM: u64 = 0x0200_0000_0001_0001;

const SECOND: u64 = 1_000_000_000;

/// A captured frame.
#[derive(Debug, Drop)]
pub struct Recorded {
    pub arrival: i64,
    pub frame: Vec<u8>,
}

/// The stream of a row.
#[derive(Clone, Copy, Debug)]
struct Source {
    am824: bool,
    sparse: bool,
    rate: u64,
    channels: u64,
    count: u64,
    packets: u64,
    /// The first instant, in nanoseconds.
    start: u64,
    /// The block count of the first data block.
    dbc: u64,
    /// The number of packets after which the stream restarts; 0 if it never restarts. `jump` is how far presentation
    /// times jump at each restart, in nanoseconds.
    restart: u64,
    jump: u64,
    /// The time from the capture of a packet to its first instant, in nanoseconds.
    lead: u64,
    /// A number that the values depend on.
    noise: u64,
}

pub fn number(text: &str) -> u64 {
    text.parse::<u64>().unwrap_or(0)
}

fn with_word(source: Source, word: &str) -> Source {
    let (name, value) = word.split_once('=').unwrap_or((word, "1"));
    let value = number(value);
    match name {
        "am824" => Source {
            am824: true,
            ..source
        },
        "sparse" => Source {
            sparse: true,
            ..source
        },
        "rate" => Source {
            rate: value,
            ..source
        },
        "channels" => Source {
            channels: value,
            ..source
        },
        "count" => Source {
            count: value,
            ..source
        },
        "packets" => Source {
            packets: value,
            ..source
        },
        "start" => Source {
            start: value,
            ..source
        },
        "dbc" => Source {
            dbc: value,
            ..source
        },
        "restart" => Source {
            restart: value,
            ..source
        },
        "jump" => Source {
            jump: value,
            ..source
        },
        "lead" => Source {
            lead: value,
            ..source
        },
        "noise" => Source {
            noise: value,
            ..source
        },
        _ => source,
    }
}

fn source_of(words: &str) -> Source {
    let mut source = Source {
        am824: false,
        sparse: false,
        rate: 48_000,
        channels: 2,
        count: 6,
        packets: 3,
        start: 1_002_000_000,
        dbc: 0,
        restart: 0,
        jump: 1_000_000,
        lead: 2_000_000,
        noise: 1,
    };
    for word in words.split_ascii_whitespace() {
        source = with_word(source, word);
    }
    source
}

/// The duration of this many samples, in whole nanoseconds.
fn span(samples: u64, rate: u64) -> u64 {
    samples.saturating_mul(SECOND) / rate.max(1)
}

/// SYT_INTERVAL at a rate (IEC 61883-6).
fn interval_of(rate: u64) -> u64
    ensures { 1 ≤ result }
{
    match rate {
        88_200 | 96_000 => 16,
        176_400 | 192_000 => 32,
        _ => 8,
    }
}

/// The FDF of a rate, and the rate's code in AAF.
fn codes_of(rate: u64) -> (u8, u8) {
    match rate {
        32_000 => (0, 3),
        44_100 => (1, 4),
        48_000 => (2, 5),
        88_200 => (3, 6),
        96_000 => (4, 7),
        176_400 => (5, 8),
        192_000 => (6, 9),
        _ => (2, 1),
    }
}

/// When a packet's first sample is presented; the packet's timestamp, if it has one; and the packet's restart bit.
#[derive(Clone, Copy)]
struct Times {
    first: u64,
    stamp: Option<u64>,
    mr: bool,
}

fn times_of(source: &Source, n: u64) -> Times {
    let run = n.checked_div(source.restart).unwrap_or(0);
    let begun = run.saturating_mul(source.restart);
    let before = span(begun.saturating_mul(source.count), source.rate);
    let start = source
        .start
        .saturating_add(run.saturating_mul(source.jump))
        .saturating_add(before);
    let event = n.saturating_sub(begun).saturating_mul(source.count);
    let stamped = if source.am824 {
        let interval = interval_of(source.rate);
        let block = block_of(source, n);
        interval.saturating_sub(block % interval) % interval
    } else if source.sparse && n % 8 != 0 {
        source.count
    } else {
        0
    };
    let at = start.saturating_add(span(event.saturating_add(stamped), source.rate));
    Times {
        first: start.saturating_add(span(event, source.rate)),
        stamp: if stamped < source.count {
            Some(at)
        } else {
            None
        },
        mr: run % 2 == 1,
    }
}

fn block_of(source: &Source, n: u64) -> u64
    ensures { result < 256 }
{
    source.dbc.saturating_add(n.saturating_mul(source.count)) % 256
}

/// Adds the values of packet `n`. Each value differs from the value before it. In AM824, values have labels.
fn add_samples(bytes: &mut Vec<u8>, source: &Source, n: u64) -> Result<(), NoMemory> {
    let values = source.count.saturating_mul(source.channels).min(1_000);
    for k in 0..values {
        let value = n
            .saturating_mul(values)
            .saturating_add(k)
            .saturating_add(source.noise)
            .saturating_mul(65_521);
        if source.am824 {
            bytes.push(0x40)?;
        }
        let [_, b1, b2, b3] = ((value % (1 << 32)) as u32).to_be_bytes();
        bytes.extend_from_slice(&[b1, b2, b3])?;
    }
    Ok(())
}

const ETHERNET: [u8; 18] = [
    0x91, 0xe0, 0xf0, 0x00, 0xfe, 0x00, 0x02, 0x00, 0x00, 0x00, 0x00, 0x01, 0x81, 0x00, 0x60, 0x02,
    0x22, 0xf0,
];

/// Adds the part of the stream header that both formats have, up to the timestamp.
fn add_header(bytes: &mut Vec<u8>, source: &Source, n: u64, times: &Times) -> Result<(), NoMemory> {
    let flags = 0x80 | (if times.mr { 8 } else { 0 }) | (if times.stamp.is_some() { 1 } else { 0 });
    bytes.extend_from_slice(&ETHERNET)?;
    bytes.push(if source.am824 { 0 } else { 2 })?;
    bytes.push(flags)?;
    bytes.push((n % 256) as u8)?;
    bytes.push(0)?;
    bytes.extend_from_slice(&STREAM.to_be_bytes())?;
    bytes.extend_from_slice(&((times.stamp.unwrap_or(0) % (1 << 32)) as u32).to_be_bytes())?;
    Ok(())
}

/// The low 16 bits of a number, in network byte order.
fn two_bytes(number: u64) -> [u8; 2] {
    ((number % (1 << 16)) as u16).to_be_bytes()
}

fn frame_of(alloc: Global, source: &Source, n: u64) -> Result<Vec<u8>, NoMemory> {
    let times = times_of(source, n);
    let mut bytes = Vec::new(alloc);
    add_header(&mut bytes, source, n, &times)?;
    let (fdf, nsr) = codes_of(source.rate);
    let [high, low] = two_bytes(source.channels);
    let values = source.count.saturating_mul(source.channels);
    if source.am824 {
        let size = two_bytes(values.saturating_mul(4).saturating_add(8));
        let block = block_of(source, n) as u8;
        bytes.extend_from_slice(&[0, 0, 0, 0, size[0], size[1], 0x5f, 0xa0])?;
        bytes.extend_from_slice(&[63, low, 0, block, 0x90, fdf, 0xff, 0xff])?;
    } else {
        let size = two_bytes(values.saturating_mul(3));
        let sparse = if source.sparse { 0x10 } else { 0 };
        bytes.extend_from_slice(&[3, nsr << 4 | high, low, 24, size[0], size[1], sparse, 0])?;
    }
    add_samples(&mut bytes, source, n)?;
    Ok(bytes)
}

/// Whether a row's words say that packet `n` is lost, as `lost=3` does for packet 3.
fn is_lost(words: &str, n: u64) -> bool {
    for word in words.split_ascii_whitespace() {
        if let Some(("lost", place)) = word.split_once('=')
            && number(place) == n
        {
            return true;
        }
    }
    false
}

/// The captured frames of a row's streams, one after another. A row is, for example, `am824 rate=96000 count=6
/// packets=3, start=1002000000 ..`.
pub fn records_of(alloc: Global, row: &str) -> Result<Vec<Recorded>, NoMemory> {
    let mut records = Vec::new(alloc);
    for words in row.split(',') {
        let source = source_of(words);
        for n in 0..source.packets {
            if !is_lost(words, n) {
                let sent = times_of(&source, n).first.saturating_sub(source.lead);
                let arrival = i64::try_from(sent).unwrap_or(0);
                let frame = frame_of(alloc, &source, n)?;
                records.push(Recorded { arrival, frame })?;
            }
        }
    }
    Ok(records)
}

/// A little-endian capture of these records, with times in nanoseconds.
pub fn capture_of(alloc: Global, records: &[Recorded]) -> Result<Vec<u8>, NoMemory> {
    let mut bytes = Vec::new(alloc);
    bytes.extend_from_slice(&[0x4d, 0x3c, 0xb2, 0xa1, 2, 0, 4, 0, 0, 0, 0, 0])?;
    bytes.extend_from_slice(&[0, 0, 0, 0, 0, 0, 4, 0, 1, 0, 0, 0])?;
    for record in records {
        let size = record.frame.len() as u64;
        let arrival = record.arrival.unsigned_abs();
        for number in [arrival / SECOND, arrival % SECOND, size, size] {
            bytes.extend_from_slice(&((number % (1 << 32)) as u32).to_le_bytes())?;
        }
        bytes.extend_from_slice(&record.frame)?;
    }
    Ok(bytes)
}
